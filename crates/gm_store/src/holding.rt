//! Holds of folios by faults.

ghost use Rattle.std.specs.Prelude.{◌≡◌, ℕ, ◌<◌, ◌-◌, ◌^◌};
ghost use Rattle.gm_pool.specs.Pools.{IsLive};
ghost use Rattle.gm_store.specs.Frees.{is_last_hold, hold_dropped};
ghost use Rattle.gm_store.specs.Stored.{StoreStands, Stored, held_more};

use crate::store::Store;
use gm_base::Folio;
use gm_pool::Freed;

impl Store {
    /// One more hold of a live folio.
    pub fn hold(&mut self, folio: Folio)
        requires { IsLive self.old.pool folio (λ usage. usage.holds < 2 ^ 32 - 1) }
        ensures others { self.new ≡ record self.old { pool = self.new.pool } }
        ensures stands { (frames : ℕ) (k : Stored) → StoreStands frames self.old k → StoreStands frames self.new (held_more folio.serial k) }
    {
        self.pool.hold(folio);
    }

    /// One hold less of a live folio that is held. It tells whether the folio is freed, which is so exactly where it was
    /// the last hold and the folio isn't cached.
    pub fn drop_hold(&mut self, folio: Folio) -> bool
        requires { IsLive self.old.pool folio (λ usage. 0 < usage.holds) }
        ensures others { self.new ≡ record self.old { pool = self.new.pool } }
        ensures freed { (frames : ℕ) (k : Stored) → StoreStands frames self.old k → result ≡ is_last_hold folio.serial k }
        ensures stands { (frames : ℕ) (k : Stored) → StoreStands frames self.old k → StoreStands frames self.new (hold_dropped result folio.serial k) }
    {
        match self.pool.drop_hold(folio) {
            Freed::Now => true,
            Freed::Later => false,
        }
    }
}
