//! What gives each vCPU its reader, once.

use crate::doors::Doors;
use gm_base::MOST_VCPUS;
use std::marker::Model;

/// The readers of the vCPUs, each to be taken once.
#[derive(Drop)]
pub struct Spies {
    doors: Doors,
    vcpus: u32,
    given: [bool; MOST_VCPUS as usize],
}

impl Model for Spies {
    ghost use Rattle.std.specs.Prelude.{◌≤◌};
    ghost use Rattle.gm_base.specs.declared.numbers.TheConstants.{MOST_VCPUS};
    ghost use Rattle.gm_views.specs.Spies.{SpiesSeen};

    ghost Value = { SpiesSeen };

    ghost view = { λ s. record { refused = s.doors; vcpus = s.vcpus; given = s.given } };

    ghost invariant = { λ s. s.vcpus ≤ MOST_VCPUS };
}

mod steps;
