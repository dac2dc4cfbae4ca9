//! A vCPU's buffer.

ghost use Rattle.std.specs.Prelude.{◌≡◌, ◌≤◌, ◌∷◌, [], IfOk, take, length, reverse};
ghost use Rattle.gm_base.specs.declared.numbers.TheConstants.{BUFFER_FILLS};
ghost use Rattle.gm_tlb.specs.Fills.{latest};

use circular_buffer::HeapCircularBuffer;
use gm_base::{Access, BUFFER_FILLS, Leaf, NoMemory};
use std::alloc::Global;
use std::marker::Model;

/// A leaf, and the position in the history of the touch that put it into the buffer.
#[derive(Clone, Copy, Debug, PartialEq, Eq)]
pub struct Fill {
    pub leaf: Leaf,
    pub at: u64,
}

/// The last 256 fills since a flush.
#[derive(Drop)]
pub struct Tlb {
    fills: HeapCircularBuffer<Fill>,
}

impl Model for Tlb {
    ghost use Rattle.std.specs.Prelude.{◌≡◌, ◌≤◌, List, length, reverse};
    ghost use Rattle.gm_base.specs.declared.numbers.TheConstants.{BUFFER_FILLS};
    ghost use Rattle.gm_tlb.specs.declared.tlb.Fill.{Fill};

    ghost Value = { List Fill };

    ghost view = { λ t. reverse t.fills.items };

    ghost invariant = { λ t. (t.fills.capacity ≡ BUFFER_FILLS) × (length t.fills.items ≤ BUFFER_FILLS) };
}

impl Tlb {
    /// No fill.
    pub fn new(alloc: Global) -> Result<Tlb, NoMemory>
        ensures { IfOk result (λ tlb. tlb ≡ []) }
    {
        let fills = HeapCircularBuffer::with_capacity(alloc, BUFFER_FILLS)?;
        Ok(Tlb { fills })
    }

    /// The latest fill that serves the access. None exactly where none does.
    pub fn hit(&self, access: &Access) -> Option<Fill>
        ensures { result ≡ latest self.now access.now }
    {
        let (older, newer) = self.fills.as_slices();
        match latest_of(newer, access) {
            Some(fill) => Some(fill),
            None => latest_of(older, access),
        }
    }

    /// Adds a fill. The oldest goes where 256 are held.
    pub fn fill(&mut self, fill: Fill)
        ensures { self.new ≡ take BUFFER_FILLS (fill ∷ self.old) }
    {
        self.fills.push_back(fill);
    }

    /// Takes all fills away.
    pub fn flush(&mut self)
        ensures { self.new ≡ [] }
    {
        self.fills.clear();
    }
}

// The last of the fills that serves the access.
fn latest_of(fills: &[Fill], access: &Access) -> Option<Fill>
    ensures { result ≡ latest (reverse fills.now) access.now }
{
    let wanted = *access;
    let mut rest = fills;
    while let [older @ .., fill] = rest {
        if fill.leaf.serves(wanted) {
            return Some(*fill);
        }
        rest = older;
    }
    None
}
