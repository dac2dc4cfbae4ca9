//! What may cross threads.

use crate::published::Published;
use gm_views::{Spies, Spy};

fn is_sent<T: Send>() {}

/// A machine with its views, and what gives readers of them, may be handed to another thread: this wouldn't compile
/// otherwise.
pub fn published_cross_threads() {
    is_sent::<Published>();
    is_sent::<Spies>();
    is_sent::<Spy>();
}
