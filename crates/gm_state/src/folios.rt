//! Folios that faults hold.

ghost use Rattle.std.specs.Prelude.{◌≡◌, ◌<◌, ◌≤◌, ◌-◌, ◌^◌, None, IfNone, IfSome};
ghost use Rattle.gm_base.specs.declared.numbers.TheConstants.{COUNTER_LIMIT, PAGE_LIMIT};
ghost use Rattle.gm_base.specs.declared.values.Setup.{Setup};
ghost use Rattle.gm_flat.specs.FlatState.{cached, in_use};
ghost use Rattle.gm_flat.specs.RightLook.{IsFull};
ghost use Rattle.gm_store.specs.Views.{cached_in, file_in, first_room, page_room, pages_in};
ghost use Rattle.gm_pool.specs.Pools.{IsLive};
ghost use Rattle.gm_state.specs.Holding.{FirstHeld, IsReleasable, freed_by, held, released};
ghost use Rattle.gm_state.specs.Stand.{Memory, StateIs};

use crate::state::State;
use gm_base::Folio;
use gm_flat::Backing;
use gm_store::Used;

impl State {
    /// Whether a file of this number is in use.
    pub fn is_used(&self, file: u32) -> bool
        ensures { (s : Setup) (m : Memory) → StateIs s self.now m → result ≡ in_use file m.stored.flat.files }
    {
        match self.store.files().get(file as usize) {
            Some(Some(_)) => true,
            _ => false,
        }
    }

    /// The folio that is cached at an index of a file.
    pub fn cached(&self, file: u32, index: u64) -> Option<Folio>
        ensures { (s : Setup) (m : Memory) → StateIs s self.now m → result ≡ cached file index m.stored.flat.cache }
    {
        self.store.cached(file, index)
    }

    /// One more hold of a live folio.
    pub fn hold(&mut self, folio: Folio)
        requires { IsLive self.old.store.pool folio (λ usage. usage.holds < 2 ^ 32 - 1) }
        ensures others { self.new ≡ record self.old { store = self.new.store } }
        ensures is { (s : Setup) (m : Memory) → StateIs s self.old m → StateIs s self.new (held folio.serial m) }
    {
        self.store.hold(folio);
    }

    /// Adds what the first use of an index adds, which has nothing cached, and holds the folio of the index. None exactly
    /// where no frame is free; nothing changes then.
    pub fn first_use(&mut self, file: u32, index: u64) -> Option<Used>
        requires stands { (s : Setup) × (m : Memory) × StateIs s self.old m }
        requires free { cached_in index (file_in self.old.store.files file) ≡ None }
        requires inside { index < pages_in (file_in self.old.store.files file) }
        requires small { pages_in (file_in self.old.store.files file) ≤ PAGE_LIMIT }
        requires room { first_room (file_in self.old.store.files file) ≤ page_room (file_in self.old.store.files file) }
        requires serial { self.old.store.pool.next < COUNTER_LIMIT }
        ensures others { self.new ≡ record self.old { store = self.new.store } }
        ensures some { IfSome result (λ used. (s : Setup) (m : Memory) → StateIs s self.old m → FirstHeld s file index used self.new m) }
        ensures none { IfNone result ((s : Setup) (m : Memory) → StateIs s self.old m → IsFull s.frames m.stored.flat.folios) }
        ensures unchanged { IfNone result (self.new ≡ self.old) }
    {
        match self.store.first_use(file, index) {
            Some(used) => {
                self.store.hold(used.own);
                Some(used)
            }
            None => None,
        }
    }

    /// A hold of a backing ends. It tells the folio that is freed by it.
    pub fn release(&mut self, backing: Backing) -> Option<Folio>
        requires { IsReleasable self.old.store.pool backing }
        ensures others { self.new ≡ record self.old { store = self.new.store } }
        ensures freed { (s : Setup) (m : Memory) → StateIs s self.old m → result ≡ freed_by backing m.stored }
        ensures is { (s : Setup) (m : Memory) → StateIs s self.old m → StateIs s self.new (released backing m) }
    {
        match backing {
            Backing::User(_) => None,
            Backing::Folio(folio) => {
                if self.store.drop_hold(folio) {
                    Some(folio)
                } else {
                    None
                }
            }
        }
    }
}
