//! Files.

ghost use Rattle.std.specs.Prelude.{◌≡◌, ℕ, ◌+◌, ◌-◌, ◌<◌, ◌≤◌, ◌++◌, [], length, nat_eq, None, Some, IfOk, IfErr, IfSome, IfNone, IsOk, IsSome, OnOk, OnErr, ◌↔◌, if◌then◌else◌};
ghost use Rattle.gm_base.specs.declared.numbers.TheConstants.{PAGE_LIMIT};
ghost use Rattle.gm_radix.specs.Entries.{count_within, lookup, put, within, without, IsFirstGap};
ghost use Rattle.gm_file.specs.Ranges.{met, parts_of, range_at, slot_of, with_range, without_slot};
ghost use Rattle.gm_file.specs.Views.{unless_within};

use crate::folios::Folios;
use crate::ranges::{Bound, BoundRange, all_met, drop_slot, find_met, put_range};
use gm_base::{Folio, NoMemory, PAGE_LIMIT};
use gm_radix::Radix;
use std::alloc::Global;
use std::marker::Model;

// Memory is kept for so many pages more than are asked for, so that few turns ask for more.
const MORE_PAGES: u32 = 63;

/// A guest_memfd of a number of pages: which of its indexes have which folios, and which ranges of indexes are bound for
/// which slots. Bound ranges don't meet. It keeps memory for a number of pages and ranges.
#[derive(Drop)]
pub struct File {
    pages: u64,
    block: bool,
    cache: Radix<Folio>,
    // Every index below `full` is cached, and none from `end` on. Most files are filled from their start, so these two
    // tell most of what is asked.
    full: u64,
    end: u64,
    // In order of index.
    bound: Vec<BoundRange>,
    page_spare: u32,
    bind_spare: u32,
}

impl Model for File {
    ghost use Rattle.std.specs.Prelude.{◌+◌, ◌≤◌, vec_capacity, vec_len};
    ghost use Rattle.gm_base.specs.declared.numbers.TheConstants.{PAGE_LIMIT};
    ghost use Rattle.gm_radix.specs.Entries.{Rises};
    ghost use Rattle.gm_file.specs.Ranges.{LieApart};
    ghost use Rattle.gm_file.specs.Views.{FileView, IsFull};

    ghost Value = { FileView };

    ghost view = { λ f. record { pages = f.pages; block = f.block; cached = f.cache.entries; bound = f.bound.items; page_spare = f.page_spare; bind_spare = f.bind_spare } };

    ghost invariant = { λ f. (f.pages ≤ PAGE_LIMIT) × Rises 0 f.end f.cache.entries × LieApart 0 f.bound.items × (f.page_spare ≤ f.cache.spare) × (vec_len f.bound + f.bind_spare ≤ vec_capacity f.bound) × (f.end ≤ f.pages) × IsFull f.full f.cache.entries };
}

impl File {
    /// A file of this many pages, with nothing cached or bound and no memory kept. `NoMemory` comes exactly where there are
    /// more than 2^52 pages, for which no cache can be made.
    pub fn new(alloc: Global, pages: u64, block: bool) -> Result<File, NoMemory>
        ensures when { IsOk result ↔ (pages ≤ PAGE_LIMIT) }
        ensures made { IfOk result (λ file. file ≡ record { pages = pages; block = block; cached = []; bound = []; page_spare = 0; bind_spare = 0 }) }
    {
        if pages > PAGE_LIMIT {
            return Err(NoMemory);
        }
        Ok(File {
            pages,
            block,
            cache: Radix::new(alloc),
            full: 0,
            end: 0,
            bound: Vec::new(alloc),
            page_spare: 0,
            bind_spare: 0,
        })
    }

    /// Keeps memory for at least this many pages and bound ranges. `NoMemory` comes only where there is less yet.
    pub fn reserve(&mut self, pages: u32, binds: u32) -> Result<(), NoMemory>
        ensures same { self.new ≡ record self.old { page_spare = self.new.page_spare; bind_spare = self.new.bind_spare } }
        ensures page_room { OnOk result (pages ≤ self.new.page_spare) }
        ensures bind_room { OnOk result (binds ≤ self.new.bind_spare) }
        ensures pages_not_less { self.old.page_spare ≤ self.new.page_spare }
        ensures binds_not_less { self.old.bind_spare ≤ self.new.bind_spare }
        ensures enough { pages ≤ self.old.page_spare → binds ≤ self.old.bind_spare → IsOk result }
        ensures err { OnErr result (self.new ≡ self.old) }
    {
        let mut page_spare = self.page_spare;
        if page_spare < pages {
            page_spare = pages.saturating_add(MORE_PAGES);
            self.cache.reserve(page_spare)?;
        }
        if self.bind_spare < binds {
            self.bound.reserve(binds as usize)?;
            self.bind_spare = binds;
        }
        self.page_spare = page_spare;
        Ok(())
    }

    /// The count of pages.
    pub fn pages(&self) -> u64
        ensures { result ≡ self.now.pages }
    {
        self.pages
    }

    /// Whether first uses take blocks.
    pub fn is_block(&self) -> bool
        ensures { result ≡ self.now.block }
    {
        self.block
    }

    /// The folio at the index, where one is cached.
    pub fn cached(&self, index: u64) -> Option<Folio>
        ensures folio { result ≡ lookup index self.now.cached }

        // Nothing is cached past the file's size.
        ensures inside { IsSome result → index < self.now.pages }
    {
        if index < self.end {
            self.cache.get(index)
        } else {
            None
        }
    }

    /// The least index from `lo` on and below `hi` that isn't cached. However much is cached, it is found along the depth of
    /// the cache's tree, or at once where all that is cached stands at the file's start.
    pub fn next_free(&self, lo: u64, hi: u64) -> Option<u64>
        ensures first { IfSome result (IsFirstGap self.now.cached lo) }
        ensures below { IfSome result (λ index. index < hi) }
        ensures none { IfNone result ((index : ℕ) → lo ≤ index → index < hi → IsSome (lookup index self.now.cached)) }
    {
        let free = if self.end <= lo {
            lo
        } else if self.full == self.end {
            self.full
        } else {
            self.cache.first_gap(lo)
        };
        if free < hi { Some(free) } else { None }
    }

    /// How many indexes from `lo` on and below `hi` are cached. Like `next_free` it costs the depth.
    pub fn count_in(&self, lo: u64, hi: u64) -> u64
        ensures { result ≡ count_within lo hi self.now.cached }
    {
        self.cache.count_in(lo, hi)
    }

    /// Caches the folio at an index of the file that has none. It takes no memory but what is kept.
    pub fn put(&mut self, index: u64, folio: Folio)
        requires free { lookup index self.old.cached ≡ None }
        requires inside { index < self.old.pages }
        requires room { 1 ≤ self.old.page_spare }
        ensures file { self.new ≡ record self.old { cached = put index folio self.old.cached; page_spare = self.old.page_spare - 1 } }

        // The same, index by index.
        ensures cached { (k : ℕ) → lookup k self.new.cached ≡ (if nat_eq k index then Some folio else lookup k self.old.cached) }
    {
        self.cache.insert_new(index, folio);
        self.page_spare -= 1;
        self.end = self.end.max(index + 1);
        if index == self.full {
            self.full += 1;
        }
    }

    /// Moves what is cached from `lo` on and below `hi` to the end of a list that has room for all that is cached, in
    /// order of index. It takes no memory.
    pub fn cut(&mut self, lo: u64, hi: u64, out: &mut Folios)
        requires { length out.old.list + length self.old.cached ≤ out.old.room }
        ensures file { self.new ≡ record self.old { cached = without lo hi self.old.cached } }
        ensures taken { out.new ≡ record out.old { list = out.old.list ++ within lo hi self.old.cached } }

        // The same, index by index.
        ensures cached { (k : ℕ) → lookup k self.new.cached ≡ unless_within lo hi k (lookup k self.old.cached) }
    {
        out.take_from(&mut self.cache, lo, hi);
        self.full = self.full.min(lo);
    }

    /// Binds the indexes from `lo` on and below `hi` for a slot. Refused where one of them is bound, with the slot of the
    /// first range in order of index that has one; nothing changes then. It takes no memory but what is kept. Finding the
    /// place is a binary search; making it moves the later ranges, at most one for each slot.
    pub fn bind(&mut self, lo: u64, hi: u64, slot: u32) -> Result<(), Bound>
        requires order { lo < hi }
        requires limit { hi ≤ PAGE_LIMIT }
        requires room { 1 ≤ self.old.bind_spare }
        ensures free { OnOk result (met lo hi self.old.bound ≡ []) }
        ensures ok { OnOk result (self.new ≡ record self.old { bound = with_range (record { lo = lo; hi = hi; slot = slot }) self.old.bound; bind_spare = self.old.bind_spare - 1 }) }
        ensures met { IfErr result (λ e. slot_of (range_at 0 (met lo hi self.old.bound)) ≡ Some e.slot) }
        ensures err { OnErr result (self.new ≡ self.old) }
    {
        if let Some(range) = find_met(&self.bound, lo, hi, 0) {
            return Err(Bound { slot: range.slot });
        }
        put_range(&mut self.bound, BoundRange { lo, hi, slot });
        self.bind_spare -= 1;
        Ok(())
    }

    /// Ends the binding of each range that is bound for the slot. It takes no memory.
    pub fn unbind(&mut self, slot: u32)
        ensures { self.new ≡ record self.old { bound = without_slot slot self.old.bound } }
    {
        drop_slot(&mut self.bound, slot);
    }

    /// Number `at`, from 0 on in order of index, of the bound ranges that have an index from `lo` on and below `hi`: its
    /// first index, the one after its last, and its slot.
    pub fn bound_in(&self, lo: u64, hi: u64, at: u32) -> Option<(u64, u64, u32)>
        ensures { result ≡ parts_of (range_at at (met lo hi self.now.bound)) }
    {
        let range = find_met(&self.bound, lo, hi, at)?;
        Some((range.lo, range.hi, range.slot))
    }

    /// The bound ranges that have an index from `lo` on and below `hi`, in order of index. Two binary searches find all
    /// of them.
    pub fn bound_within(&self, lo: u64, hi: u64) -> &[BoundRange]
        ensures { result.now ≡ met lo hi self.now.bound }
    {
        all_met(&self.bound, lo, hi)
    }
}
