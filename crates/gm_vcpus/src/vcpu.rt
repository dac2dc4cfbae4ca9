//! A vCPU.

use gm_fault::Ticket;

/// How many commands it has ended, its fault in flight, the position right after its last miss (0 until it has missed),
/// and whether it has written `gone`.
#[derive(Clone, Copy, Debug, PartialEq, Eq)]
pub struct Vcpu {
    pub ended: u64,
    pub fault: Option<Ticket>,
    pub missed: u64,
    pub gone: bool,
}
