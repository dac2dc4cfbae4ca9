//! What a store tells.

ghost use Rattle.std.specs.Prelude.{◌≡◌, ℕ, ◌<◌, ◌≤◌, None, Some, length, option_map, slice_index_or, IfNone, IfSome};
ghost use Rattle.gm_base.specs.declared.numbers.TheConstants.{PAGE_WORDS};
ghost use Rattle.gm_flat.specs.FlatState.{added, cached};
ghost use Rattle.gm_flat.specs.RightLives.{frame_of};
ghost use Rattle.gm_pool.specs.Pools.{use_of};
ghost use Rattle.gm_words.specs.Banks.{word_in};
ghost use Rattle.gm_store.specs.Asked.{AllCachedIn, IsFirstFree};
ghost use Rattle.gm_store.specs.Stored.{StoreStands, Stored, with_word};
ghost use Rattle.gm_store.specs.Views.{cached_in, file_in};

use crate::store::Store;
use gm_base::Folio;
use gm_file::File;

impl Store {
    /// The files by number, of which a shut one is None.
    pub fn files(&self) -> &[Option<File>]
        ensures { result.now ≡ self.now.files }
    {
        &self.files
    }

    /// How many files were made, in use or shut.
    pub fn count(&self) -> usize
        ensures { result ≡ length self.now.files }
    {
        self.files.len()
    }

    /// The serial of the next new folio: how many there were so far.
    pub fn next_serial(&self) -> u64
        ensures { result ≡ self.now.pool.next }
    {
        self.pool.next()
    }

    /// The folio cached at an index of the file of this number.
    pub fn cached(&self, file: u32, index: u64) -> Option<Folio>
        ensures folio { result ≡ cached_in index (file_in self.now.files file) }
        ensures stands { (frames : ℕ) (k : Stored) → StoreStands frames self.now k → result ≡ cached file index k.flat.cache }
    {
        match self.files.get(file as usize) {
            Some(Some(x)) => x.cached(index),
            _ => None,
        }
    }

    /// The least index from `lo` on and below `hi` at which nothing of the file is cached.
    pub fn next_free(&self, file: u32, lo: u64, hi: u64) -> Option<u64>
        ensures first { (frames : ℕ) (k : Stored) → StoreStands frames self.now k → IfSome result (IsFirstFree file lo hi k.flat) }
        ensures none { (frames : ℕ) (k : Stored) → StoreStands frames self.now k → IfNone result (AllCachedIn file lo hi k.flat) }
    {
        match self.files.get(file as usize) {
            Some(Some(x)) => x.next_free(lo, hi),
            _ => { if lo < hi { Some(lo) } else { None } }
        }
    }

    /// The serial of the folio that uses a frame. None exactly where the frame is free, or there is no such frame.
    pub fn serial_of(&self, frame: u32) -> Option<u64>
        ensures serial { result ≡ option_map (λ usage. usage.serial) (use_of self.now.pool frame) }
        ensures stands { (frames : ℕ) (k : Stored) (serial : ℕ) → StoreStands frames self.now k → frame_of serial k.flat.folios ≡ Some frame → result ≡ Some serial }
    {
        self.pool.serial(frame)
    }

    /// The word of this number, below 512, of a frame.
    pub fn read(&self, frame: u32, word: u16) -> u64
        requires frame { frame < length self.now.bank }
        requires word { word < PAGE_WORDS }
        ensures word { result ≡ word_in self.now.bank frame word }
        ensures stands { (frames : ℕ) (k : Stored) (serial : ℕ) → StoreStands frames self.now k → frame_of serial k.flat.folios ≡ Some frame → result ≡ k.words serial word }
    {
        self.bank.read(frame, word)
    }

    /// Sets the word of this number, below 512, of a frame.
    pub fn write(&mut self, frame: u32, word: u16, value: u64)
        requires frame { frame < length self.old.bank }
        requires word { word < PAGE_WORDS }
        ensures others { self.new ≡ record self.old { bank = self.new.bank } }
        ensures stands { (frames : ℕ) (k : Stored) (serial : ℕ) → StoreStands frames self.old k → frame_of serial k.flat.folios ≡ Some frame → StoreStands frames self.new (with_word serial word value k) }
    {
        self.bank.write(frame, word, value);
    }
}
