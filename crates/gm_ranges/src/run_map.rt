//! Run maps.

ghost use Rattle.std.specs.Prelude.{◌≡◌, ℕ, ◌+◌, ◌<◌, ◌≤◌, ◌∷◌, [], List, IfOk, OnOk, OnErr, IfSome, IfNone, if◌then◌else◌};
ghost use Rattle.gm_base.specs.Extent.{holds};
ghost use Rattle.gm_ranges.specs.Runs.{Runs, Call, value_at, Tells, AllHave, SomeDiffer};

use crate::edges::{paint, value_before};
use gm_base::{NoMemory, PAGE_LIMIT, Span};
use gm_radix::Radix;
use std::alloc::Global;
use std::marker::Model;

/// A truth value for each page: that of the latest call of `set` whose span holds the page, and false where none does.
#[derive(Drop)]
pub struct RunMap {
    // The pages below 2^52 at which the value changes: a run of true begins at each second one.
    edges: Radix<()>,
    // For how many calls there is room, at two edges each.
    spare: u32,
}

impl Model for RunMap {
    ghost use Rattle.std.specs.Prelude.{◌*◌, ◌≤◌};
    ghost use Rattle.gm_base.specs.declared.numbers.TheConstants.{PAGE_LIMIT};
    ghost use Rattle.gm_radix.specs.Entries.{Rises};
    ghost use Rattle.gm_ranges.specs.Runs.{Runs, edges_of};

    ghost Value = { Runs };

    ghost view = { λ m. record { edges = edges_of m.edges.entries; spare = m.spare } };

    ghost invariant = { λ m. Rises 0 PAGE_LIMIT m.edges.entries × (2 * m.spare ≤ m.edges.spare) };
}

impl RunMap {
    /// The map of no call: every page is false, and there is room for no call.
    pub fn new(alloc: Global) -> Result<RunMap, NoMemory>
        ensures made { result ≡ Ok record { edges = []; spare = 0 } }
        ensures calls { IfOk result (λ map. Tells map []) }
    {
        Ok(RunMap {
            edges: Radix::new(alloc),
            spare: 0,
        })
    }

    /// Makes room for at least `n` calls of `set`. They have at most two edges each, of which the map takes fewer than 2^32.
    pub fn reserve(&mut self, n: u32) -> Result<(), NoMemory>
        ensures same { self.new.edges ≡ self.old.edges }
        ensures spare { OnOk result (n ≤ self.new.spare) }
        ensures kept { self.old.spare ≤ self.new.spare }
        ensures err { OnErr result (self.new ≡ self.old) }
    {
        if self.spare < n {
            let inserts = n.checked_mul(2).ok_or(NoMemory)?;
            self.edges.reserve(inserts)?;
            self.spare = n;
        }
        Ok(())
    }

    /// Gives the pages of a span a value. It takes no memory. What it costs is the depth of the tree of edges, for the span's
    /// ends and for each edge in it.
    pub fn set(&mut self, span: Span, value: bool)
        requires { 0 < self.old.spare }

        // The list of calls gets this one.
        ensures calls { (calls : List Call) → Tells self.old calls → Tells self.new (record { span = span; value = value } ∷ calls) }
        ensures pages { (page : ℕ) → value_at self.new page ≡ (if holds span page then value else value_at self.old page) }
        ensures spare { self.new.spare + 1 ≡ self.old.spare }
    {
        paint(&mut self.edges, span, value);
        self.spare -= 1;
    }

    /// The value of the page of this number.
    pub fn get(&self, page: u64) -> bool
        ensures { result ≡ value_at self.now page }
    {
        page < PAGE_LIMIT && value_before(&self.edges, page + 1)
    }

    /// The value that every page of the span has. None exactly where two of them differ.
    pub fn all_same(&self, span: Span) -> Option<bool>
        ensures all { IfSome result (AllHave self.now span) }
        ensures differ { IfNone result (SomeDiffer self.now span) }
    {
        let lo = span.lo();
        if self.edges.has_any(lo + 1, span.hi()) {
            None
        } else {
            Some(self.get(lo))
        }
    }
}
