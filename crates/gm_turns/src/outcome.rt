//! How a turn is taken, what it comes to, and what it changes of what is shown.

use gm_base::Span;
use gm_flat::Effect;

/// How a turn is taken: the actor's next, or a kick of a vCPU.
#[derive(Clone, Copy, Debug, PartialEq, Eq)]
pub enum How {
    Next,
    Kick,
}

/// What a turn waits for: a caller that holds a lock, or a vCPU that is inside and hasn't flushed.
#[derive(Clone, Copy, Debug, PartialEq, Eq)]
pub enum Blocker {
    Lock(u32),
    Inside(u32),
}

/// What a turn came to: it wrote entries, its actor is gone, a kick found no flush pending, or it waits.
#[derive(Clone, Copy, Debug, PartialEq, Eq)]
pub enum Outcome {
    Moved,
    Done,
    Nothing,
    Waits(Blocker),
}

/// What a turn changes of what is shown: the position after the last of its entries that is a begin, a change or an end,
/// the effect where that is a change, and the sequence, the count and the kept range of invalidations after the turn.
#[derive(Clone, Copy, Debug, PartialEq, Eq)]
pub struct Ahead {
    pub at: u64,
    pub effect: Option<Effect>,
    pub seq: u64,
    pub count: u32,
    pub hull: Option<Span>,
}
