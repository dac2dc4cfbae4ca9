//! What a view has.

use gm_base::{Kind, Span};
use gm_flat::SlotView;
use std::collections::LinkedList;
use std::marker::Model;

/// A call that set the attribute of a span. To a contract it is that of the flat state.
#[derive(Clone, Copy, Debug, PartialEq, Eq)]
pub struct AttrCall {
    pub span: Span,
    pub kind: Kind,
}

impl Model for AttrCall {
    ghost use Rattle.gm_flat.specs.FlatState.{AttrCall};

    ghost Value = { AttrCall };

    ghost view = { λ c. record { span = c.span; kind = c.kind } };

    ghost inverse = { λ c. record { span = c.span; kind = c.kind } };
}

// What a view shows: its position, the sequence, the count and the kept range of invalidations, and the slots and the
// attribute calls, the newest first. No value of it is made.
#[derive(Drop)]
pub struct Sight {
    pub position: u64,
    pub seq: u64,
    pub count: u32,
    pub hull: Option<Span>,
    pub slots: LinkedList<SlotView>,
    pub calls: LinkedList<AttrCall>,
}
