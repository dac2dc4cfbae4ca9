//! What may cross threads.

use crate::machine::Machine;
use gm_script::Script;

fn is_sent<T: Send>() {}

fn is_shared<T: Send + Sync>() {}

/// A machine may be handed to another thread, and a script may be read by many: this wouldn't compile otherwise.
pub fn machines_cross_threads() {
    is_sent::<Machine>();
    is_shared::<Script>();
}
