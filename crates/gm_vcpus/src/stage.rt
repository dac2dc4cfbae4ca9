//! How far a fault in flight is.

ghost use Rattle.std.specs.Prelude.{◌≡◌};
ghost use Rattle.gm_vcpus.specs.Stages.{stage_of};

use gm_fault::Ticket;
use gm_flat::{Backing, Looked, Sampled};

/// The last step of a fault, with what it has found so far.
#[derive(Clone, Copy, Debug, PartialEq, Eq)]
pub enum Stage {
    Missed,
    Sampled(Sampled),
    Looked(Sampled, Looked),
    Got(Sampled, Looked, Backing),
}

/// How far the fault is.
pub fn stage_of(ticket: &Ticket) -> Stage
    ensures { result ≡ stage_of ticket.now }
{
    match (ticket.sampled, ticket.looked, ticket.backing) {
        (None, _, _) => Stage::Missed,
        (Some(sampled), None, _) => Stage::Sampled(sampled),
        (Some(sampled), Some(looked), None) => Stage::Looked(sampled, looked),
        (Some(sampled), Some(looked), Some(backing)) => Stage::Got(sampled, looked, backing),
    }
}
