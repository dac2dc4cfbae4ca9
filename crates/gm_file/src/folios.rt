//! Lists of folios that a cut fills.

ghost use Rattle.std.specs.Prelude.{◌≡◌, ◌+◌, ◌<◌, ◌≤◌, ◌++◌, [], length, slice_set, take, IfOk, OnOk, IsOk, OnErr};
ghost use Rattle.gm_radix.specs.Entries.{within, without};

use gm_base::{Folio, NoMemory};
use gm_radix::Radix;
use std::alloc::Global;
use std::marker::Model;

/// Folios with their indexes, in a list that has its room from the start.
#[derive(Debug, Drop)]
pub struct Folios {
    items: Vec<(u64, Folio)>,
    room: u32,
}

impl Model for Folios {
    ghost use Rattle.std.specs.Prelude.{◌≤◌, vec_capacity, vec_len};
    ghost use Rattle.gm_file.specs.Views.{FolioList};

    ghost Value = { FolioList };

    ghost view = { λ f. record { list = f.items.items; room = f.room } };

    ghost invariant = { λ f. (vec_len f.items ≤ f.room) × (f.room ≤ vec_capacity f.items) };
}

impl Folios {
    /// The empty list that can have this length.
    pub fn new(alloc: Global, room: u32) -> Result<Folios, NoMemory>
        ensures { IfOk result (λ folios. folios ≡ record { list = []; room = room }) }
    {
        let items = Vec::with_capacity(alloc, room as usize)?;
        Ok(Folios { items, room })
    }

    /// Makes room for this length. What is in the list stays, and `NoMemory` comes only where there is less room yet.
    pub fn reserve(&mut self, room: u32) -> Result<(), NoMemory>
        ensures same { self.new ≡ record self.old { room = self.new.room } }
        ensures room { OnOk result (room ≤ self.new.room) }
        ensures not_less { self.old.room ≤ self.new.room }
        ensures enough { room ≤ self.old.room → IsOk result }
        ensures err { OnErr result (self.new ≡ self.old) }
    {
        if self.room < room {
            self.items.reserve(room as usize - self.items.len())?;
            self.room = room;
        }
        Ok(())
    }

    /// The folios with their indexes.
    pub fn list(&self) -> &[(u64, Folio)]
        ensures { result.now ≡ self.now.list }
    {
        &self.items
    }

    /// Empties the list, which keeps its room.
    pub fn clear(&mut self)
        ensures { self.new ≡ record self.old { list = [] } }
    {
        self.items.clear();
    }

    /// Puts a folio with its index in place number `at`, from 0 on, instead of what is there.
    pub fn put(&mut self, at: usize, index: u64, folio: Folio)
        requires { at < length self.old.list }
        ensures { self.new ≡ record self.old { list = slice_set self.old.list at (index, folio) } }
    {
        self.items[at] = (index, folio);
    }

    /// Keeps the first so many and drops the rest.
    pub fn truncate(&mut self, count: usize)
        ensures { self.new ≡ record self.old { list = take count self.old.list } }
    {
        self.items.truncate(count);
    }

    /// Moves the entries of a cache whose index is at least `lo` and below `hi` to the end of the list.
    pub(crate) fn take_from(&mut self, cache: &mut Radix<Folio>, lo: u64, hi: u64)
        requires { length self.old.list + length cache.old.entries ≤ self.old.room }
        ensures taken { self.new ≡ record self.old { list = self.old.list ++ within lo hi cache.old.entries } }
        ensures rest { cache.new.entries ≡ without lo hi cache.old.entries }
        ensures spare { cache.new.spare ≡ cache.old.spare }
    {
        cache.drain(lo, hi, &mut self.items);
    }
}
