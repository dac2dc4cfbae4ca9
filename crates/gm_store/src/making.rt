//! Files that are made.

ghost use Rattle.std.specs.Prelude.{◌≡◌, ℕ, ◌++◌, ◌∷◌, [], ◌-◌, ◌<◌, ◌≤◌, length, Some};
ghost use Rattle.gm_base.specs.declared.numbers.TheConstants.{PAGE_LIMIT};
ghost use Rattle.gm_flat.specs.declared.effect.Effect.TheVariants.{File as MakesFile};
ghost use Rattle.gm_store.specs.Stored.{StoreStands, Stored, applied};
ghost use Rattle.gm_store.specs.Views.{new_file};

use crate::store::Store;
use gm_file::File;

impl Store {
    /// Makes a file of this many pages, at most 2^52, with the next number. It takes no memory.
    pub fn create(&mut self, pages: u64, block: bool)
        requires limit { pages ≤ PAGE_LIMIT }
        requires room { 1 ≤ self.old.spare }
        ensures view { self.new ≡ record self.old { files = self.old.files ++ Some (new_file pages block) ∷ []; spare = self.old.spare - 1 } }
        ensures stands { (frames : ℕ) (k : Stored) → StoreStands frames self.old k → StoreStands frames self.new (applied (MakesFile (length k.flat.files) pages block) k) }
    {
        match File::new(self.alloc, pages, block) {
            Ok(file) => match self.files.push(Some(file)) {
                Ok(()) => self.spare -= 1,
                Err(_) => unreachable!(),
            },
            Err(_) => unreachable!(),
        }
    }
}
