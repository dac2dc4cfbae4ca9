//! The store.

ghost use Rattle.std.specs.Prelude.{◌≡◌, ℕ, IfOk};
ghost use Rattle.gm_store.specs.Stored.{StoreStands, nothing_stored};

use gm_base::NoMemory;
use gm_file::File;
use gm_pool::Pool;
use gm_words::Bank;
use std::alloc::Global;
use std::marker::Model;

/// Files by number, of which a shut one is None; the frames, with the folios that use them; and the words of each frame.
#[derive(Drop)]
pub struct Store {
    pub(crate) alloc: Global,
    pub(crate) files: Vec<Option<File>>,
    // `Vec` doesn't promise that a push keeps its capacity, so the room is counted here.
    pub(crate) spare: u64,
    pub(crate) pool: Pool,
    pub(crate) bank: Bank,
}

impl Model for Store {
    ghost use Rattle.std.specs.Prelude.{◌≡◌, ◌+◌, ◌≤◌, length, vec_capacity, vec_len};
    ghost use Rattle.gm_store.specs.Views.{StoreView};

    ghost Value = { StoreView };

    ghost view = { λ s. record { files = s.files.items; spare = s.spare; pool = s.pool; bank = s.bank } };

    ghost invariant = { λ s. (vec_len s.files + s.spare ≤ vec_capacity s.files) × (length s.bank ≡ length s.pool.uses) };
}

impl Store {
    /// No file, no room for one, and so many free frames.
    pub fn new(alloc: Global, frames: u32) -> Result<Store, NoMemory>
        ensures stands { IfOk result (λ store. StoreStands frames store nothing_stored) }
        ensures spare { IfOk result (λ store. store.spare ≡ 0) }
    {
        let pool = Pool::new(alloc, frames)?;
        let bank = Bank::new(alloc, frames)?;
        let _frames = bank.pages();
        Ok(Store {
            alloc,
            files: Vec::new(alloc),
            spare: 0,
            pool,
            bank,
        })
    }
}
