//! Folios that leave the cache.

ghost use Rattle.std.specs.Prelude.{◌≡◌, ℕ, ◌≤◌, IsSome, length};
ghost use Rattle.gm_flat.specs.declared.effect.Effect.TheVariants.{Cut, Shut as Shuts};
ghost use Rattle.gm_store.specs.Frees.{FreesDue};
ghost use Rattle.gm_store.specs.Left.{AllLive, left_by, unheld};
ghost use Rattle.gm_store.specs.Stored.{StoreStands, Stored, applied};
ghost use Rattle.gm_store.specs.Views.{file_in, pairs_in};

use crate::store::Store;
use gm_base::PAGE_LIMIT;
use gm_file::Folios;
use gm_pool::{Freed, Pool};

// Lets folios leave their cache, and keeps those in the list that are freed by it.
fn keep_freed(pool: &mut Pool, out: &mut Folios)
    requires { AllLive pool.old out.old.list }
    ensures pool { pool.new ≡ left_by out.old.list pool.old }
    ensures list { out.new.list ≡ unheld out.old.list pool.old }
    ensures room { out.new.room ≡ out.old.room }
{
    let count = out.list().len();
    let mut kept = 0usize;
    'pairs: for at in 0..count {
        let (index, folio) = out.list()[at];
        match pool.detach(folio) {
            Freed::Now => {
                out.put(kept, index, folio);
                kept += 1;
            }
            Freed::Later => {}
        }
    }
    out.truncate(kept);
}

impl Store {
    /// Takes what is cached of a file from `lo` on and below `hi` out of its cache, and frees what no fault holds of it. The
    /// list, which has room for all that is cached of the file, gets what is freed, in order of index. It takes no memory.
    pub fn cut(&mut self, file: u32, lo: u64, hi: u64, out: &mut Folios)
        requires stands { (frames : ℕ) × (k : Stored) × StoreStands frames self.old k }
        requires used { IsSome (file_in self.old.files file) }
        requires room { length (pairs_in (file_in self.old.files file)) ≤ out.old.room }
        ensures due { (frames : ℕ) (k : Stored) → StoreStands frames self.old k → FreesDue frames k (applied (Cut file lo hi) k) out.new.list self.new }
        ensures room { out.new.room ≡ out.old.room }
    {
        out.clear();
        match &mut self.files[file as usize] {
            Some(x) => x.cut(lo, hi, out),
            None => unreachable!(),
        }
        keep_freed(&mut self.pool, out);
    }

    /// Shuts a file: all that is cached of it leaves its cache, what no fault holds of it is freed, and its slots stay without
    /// a file. The list, which has room for all that is cached of the file, gets what is freed, in order of index. It takes no
    /// memory.
    pub fn shut(&mut self, file: u32, out: &mut Folios)
        requires stands { (frames : ℕ) × (k : Stored) × StoreStands frames self.old k }
        requires used { IsSome (file_in self.old.files file) }
        requires room { length (pairs_in (file_in self.old.files file)) ≤ out.old.room }
        ensures due { (frames : ℕ) (k : Stored) → StoreStands frames self.old k → FreesDue frames k (applied (Shuts file) k) out.new.list self.new }
        ensures room { out.new.room ≡ out.old.room }
    {
        out.clear();
        match &mut self.files[file as usize] {
            Some(x) => x.cut(0, PAGE_LIMIT, out),
            None => unreachable!(),
        }
        self.files[file as usize] = None;
        keep_freed(&mut self.pool, out);
    }
}
