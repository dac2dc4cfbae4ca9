//! The readers of the views. They take no memory and wait for nobody.

use crate::rule::{Known, Rule, ViewReader};
use crate::shown::Shown;
use gm_base::Kind;
use gm_flat::SlotView;
use left_right::reader::Factory;
use std::marker::Model;

/// What makes readers, if it could be had. It counts the readers that were refused. To a contract it is that count.
#[derive(Drop)]
pub struct Doors {
    from: Option<Factory<Shown, Known, Rule>>,
    refused: u64,
}

impl Model for Doors {
    ghost use Rattle.std.specs.Prelude.{ℕ};

    ghost Value = { ℕ };

    ghost view = { λ d. d.refused };
}

/// One reader. It counts how often it was refused.
#[derive(Drop)]
pub struct Door {
    reader: Option<ViewReader>,
    refused: u64,
}

impl Model for Door {
    ghost use Rattle.left_right.specs.Sides.{view as knowledge};
    ghost use Rattle.std.specs.Prelude.{option_map};
    ghost use Rattle.gm_views.specs.Doors.{DoorSeen};

    ghost Value = { DoorSeen };

    ghost view = { λ d. record { refused = d.refused; known = option_map (λ r. knowledge r.place) d.reader } };
}

/// What a reader saw at one moment: the view's number, its position and sequence, and its slot and attribute for the page.
#[derive(Clone, Copy, Debug, PartialEq, Eq)]
pub struct Glimpse {
    pub view: u64,
    pub at: u64,
    pub seq: u64,
    pub slot: Option<SlotView>,
    pub attr: Kind,
}

mod steps;
