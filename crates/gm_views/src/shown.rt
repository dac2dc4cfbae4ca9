//! The value that is published.

ghost use Rattle.std.specs.Prelude.{◌+◌, ◌^◌, ◌<◌, ◌≤◌};

use crate::attributes::ShownAttributes;
use crate::sights::Sight;
use crate::slots::ShownSlots;
use gm_base::Span;
use gm_flat::Effect;

/// One change of what is shown: the position, the sequence, the count and the kept range after it, and what it does to
/// slots and attributes, if anything. It has no memory of its own.
#[derive(Clone, Copy, Debug, PartialEq, Eq)]
pub struct Change {
    pub position: u64,
    pub seq: u64,
    pub count: u32,
    pub hull: Option<Span>,
    pub effect: Option<Effect>,
}

// What both copies have in common. No value of it is made.
#[derive(Drop)]
pub struct Content {
    pub number: u64,
    pub room: u32,
    pub sight: Sight,
}

/// A copy of the view that was published last: its number, and room for so many changes more.
#[derive(Drop)]
pub struct Shown {
    pub(crate) number: u64,
    pub(crate) room: u32,
    pub(crate) position: u64,
    pub(crate) seq: u64,
    pub(crate) count: u32,
    pub(crate) hull: Option<Span>,
    pub(crate) slots: ShownSlots,
    pub(crate) attributes: ShownAttributes,
    ghost counted: { number + room < 2 ^ 64 },
    ghost roomy: { room ≤ attributes.room },
}

mod steps;
