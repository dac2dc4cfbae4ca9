//! A reader of the views that remembers what it was told and what it answered.

use crate::doors::Door;
use std::marker::Model;

/// A reader with the length of the history when it was told last, and the view and the position of its last answer.
#[derive(Drop)]
pub struct Spy {
    door: Door,
    told_at: u64,
    last: u64,
    at: u64,
}

impl Model for Spy {
    ghost use Rattle.std.specs.Prelude.{IfSome};
    ghost use Rattle.gm_views.specs.Spies.{SpySeen, IsNoLater};

    ghost Value = { SpySeen };

    ghost view = { λ s. record { refused = s.door.refused; known = s.door.known; told_at = s.told_at; last = s.last; at = s.at } };

    ghost invariant = { λ s. IfSome s.door.known (λ v. IsNoLater s.last s.at s.told_at v) };
}

mod steps;
