//! A list of spans with room to spare.

ghost use Rattle.std.specs.Prelude.{◌≡◌, ◌+◌, ◌-◌, ◌<◌, ◌≤◌, ◌++◌, ◌∷◌, [], length, OnOk, OnErr, IfOk, IsOk};
ghost use Rattle.gm_flat.specs.Roomy.{AreOfPages};

use gm_base::{NoMemory, Span};
use std::alloc::{AllocError, Global};
use std::marker::Model;

/// Spans in order, and how many more can be pushed without memory.
#[derive(Debug, Drop)]
pub struct Spans {
    items: Vec<Span>,
    // `Vec` doesn't promise that a push keeps its capacity, so the room is counted here.
    spare: u32,
}

impl Model for Spans {
    ghost use Rattle.std.specs.Prelude.{ℕ, ◌+◌, ◌≤◌, vec_capacity, vec_len};
    ghost use Rattle.gm_flat.specs.Roomy.{Roomy, AreOfPages};

    ghost Value = { Roomy };

    ghost view = { λ s. record { list = s.items.items; spare = s.spare } };

    ghost invariant = { λ s. (vec_len s.items + s.spare ≤ vec_capacity s.items) × AreOfPages s.items.items };
}

impl Spans {
    /// No span, with this room.
    pub fn new(alloc: Global, room: u32) -> Result<Spans, NoMemory>
        ensures list { IfOk result (λ spans. spans.list ≡ []) }
        ensures room { IfOk result (λ spans. spans.spare ≡ room) }
    {
        let items = Vec::with_capacity(alloc, room as usize)?;
        Ok(Spans { items, spare: room })
    }

    /// Appends a span. Where there is spare room it takes no memory.
    pub fn push(&mut self, span: Span) -> Result<(), NoMemory>
        ensures ok { OnOk result (self.new.list ≡ self.old.list ++ span ∷ []) }
        ensures spare { OnOk result (self.new.spare ≡ self.old.spare - 1) }
        ensures succeeds { 0 < self.old.spare → IsOk result }
        ensures err { OnErr result (self.new ≡ self.old) }
    {
        // Read for what the span's type says of them.
        let _lo = span.lo();
        let _hi = span.hi();
        self.items.push(span)?;
        self.spare = self.spare.saturating_sub(1);
        Ok(())
    }

    /// Empties the list, which then has this room. It takes memory only where it had less, and at `NoMemory` nothing
    /// changes.
    pub fn renew(&mut self, room: u32) -> Result<(), NoMemory>
        ensures ok { OnOk result (self.new ≡ record { list = []; spare = room }) }
        ensures enough { room ≤ length self.old.list + self.old.spare → IsOk result }
        ensures err { OnErr result (self.new ≡ self.old) }
    {
        if self.items.capacity() < room as usize {
            self.items.reserve(room as usize - self.items.len())?;
        }
        self.items.clear();
        self.spare = room;
        Ok(())
    }

    /// The spans, in the order in which they were pushed.
    pub fn list(&self) -> &[Span]
        ensures { result.now ≡ self.now.list }
    {
        &self.items
    }

    /// Tells a caller that the spans are of guest pages. It does nothing.
    pub fn are_of_pages(&self)
        ensures { AreOfPages self.now.list }
    {
        let _ = &self.spare;
    }
}

impl Clone for Spans {
    ghost is_clone = { λ spans copy. copy ≡ spans };

    /// The same spans, with the same room to spare.
    fn clone(&self) -> Result<Spans, AllocError> {
        let mut items = Vec::new(*self.items.allocator());
        items.reserve(self.items.len() + self.spare as usize)?;
        items.extend_from_slice(self.list())?;
        Ok(Spans {
            items,
            spare: self.spare,
        })
    }
}
