//! Pages that calls add.

ghost use Rattle.std.specs.Prelude.{◌≡◌, ◌<◌, ◌≤◌, None, IfNone, IfSome, length};
ghost use Rattle.gm_base.specs.declared.numbers.TheConstants.{COUNTER_LIMIT, PAGE_LIMIT};
ghost use Rattle.gm_base.specs.declared.values.Setup.{Setup};
ghost use Rattle.gm_flat.specs.RightLook.{IsFull};
ghost use Rattle.gm_state.specs.Paging.{CopyAdded, FirstAdded};
ghost use Rattle.gm_state.specs.Stand.{Memory, StateIs};
ghost use Rattle.gm_store.specs.Asked.{AllCachedIn, IsFirstFree};
ghost use Rattle.gm_store.specs.Views.{cached_in, file_in, first_room, page_room, pages_in};

use crate::state::State;
use gm_base::Folio;
use gm_store::Used;

impl State {
    /// The least index from `lo` on and below `hi` at which nothing of the file is cached.
    pub fn next_free(&self, file: u32, lo: u64, hi: u64) -> Option<u64>
        ensures first { (s : Setup) (m : Memory) → StateIs s self.now m → IfSome result (IsFirstFree file lo hi m.stored.flat) }
        ensures none { (s : Setup) (m : Memory) → StateIs s self.now m → IfNone result (AllCachedIn file lo hi m.stored.flat) }
    {
        self.store.next_free(file, lo, hi)
    }

    /// Adds what the first use of an index adds, which has nothing cached; nobody holds it. None exactly where no frame
    /// is free; nothing changes then.
    pub fn add_first(&mut self, file: u32, index: u64) -> Option<Used>
        requires free { cached_in index (file_in self.old.store.files file) ≡ None }
        requires inside { index < pages_in (file_in self.old.store.files file) }
        requires small { pages_in (file_in self.old.store.files file) ≤ PAGE_LIMIT }
        requires room { first_room (file_in self.old.store.files file) ≤ page_room (file_in self.old.store.files file) }
        requires serial { self.old.store.pool.next < COUNTER_LIMIT }
        ensures others { self.new ≡ record self.old { store = self.new.store } }
        ensures some { IfSome result (λ used. (s : Setup) (m : Memory) → StateIs s self.old m → FirstAdded s file index used self.new m) }
        ensures none { IfNone result ((s : Setup) (m : Memory) → StateIs s self.old m → IsFull s.frames m.stored.flat.folios) }
        ensures unchanged { IfNone result (self.new ≡ self.old) }
    {
        self.store.first_use(file, index)
    }

    /// Adds a folio at an index of the file that has none, with the words of a user page; nobody holds it. None exactly
    /// where no frame is free; nothing changes then.
    pub fn add_copy(&mut self, file: u32, index: u64, page: u64) -> Option<Folio>
        requires free { cached_in index (file_in self.old.store.files file) ≡ None }
        requires inside { index < pages_in (file_in self.old.store.files file) }
        requires room { 1 ≤ page_room (file_in self.old.store.files file) }
        requires serial { self.old.store.pool.next < COUNTER_LIMIT }
        requires user { page < length self.old.user }
        ensures others { self.new ≡ record self.old { store = self.new.store } }
        ensures some { IfSome result (λ folio. (s : Setup) (m : Memory) → StateIs s self.old m → CopyAdded s file index page folio self.new m) }
        ensures none { IfNone result ((s : Setup) (m : Memory) → StateIs s self.old m → IsFull s.frames m.stored.flat.folios) }
        ensures unchanged { IfNone result (self.new ≡ self.old) }
    {
        let _pages = self.user.pages();
        self.store.add_copy(file, index, &self.user, page as u32)
    }
}
