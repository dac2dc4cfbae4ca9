//! The machine with the writer of its views.

use gm_machine::Machine;
use gm_views::{Change, Publisher};
use std::alloc::Global;
use std::marker::Model;

/// A machine, the writer of its views, and what each view changed. It isn't `Drop`: end it by `into_machine`.
pub struct Published {
    machine: Machine,
    publisher: Publisher,
    kept: Vec<Change>,
    alloc: Global,
}

impl Model for Published {
    ghost use Rattle.gm_publish.specs.Kept.{AreTied};
    ghost use Rattle.gm_publish.specs.Publisheds.{PublishedSeen};

    ghost Value = { PublishedSeen };

    ghost view = { λ p. record { orders = p.machine.orders; past = p.machine.past; turns = p.machine.turns; published = p.publisher.published } };

    ghost invariant = { λ p. AreTied p.machine p.publisher p.kept.items };
}

mod depositing;
mod elsewhere;
mod judging;
mod steps;
mod turning;
