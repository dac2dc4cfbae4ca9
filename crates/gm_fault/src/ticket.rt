//! Faults in flight.

use gm_base::Access;
use gm_flat::{Backing, Looked, Sampled};

/// A fault in flight: its access, and what it has sampled, looked up and got so far.
#[derive(Clone, Copy, Debug, PartialEq, Eq)]
pub struct Ticket {
    pub access: Access,
    pub sampled: Option<Sampled>,
    pub looked: Option<Looked>,
    pub backing: Option<Backing>,
}
