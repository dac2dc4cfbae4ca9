//! Folios that are added.

ghost use Rattle.std.specs.Prelude.{◌≡◌, ℕ, ◌<◌, ◌≤◌, None, Some, length, slice_set, vec_capacity, vec_len, IfNone, IfSome};
ghost use Rattle.gm_base.specs.declared.numbers.TheConstants.{COUNTER_LIMIT};
ghost use Rattle.gm_flat.specs.RightLook.{IsFull};
ghost use Rattle.gm_words.specs.Banks.{page_in, word_in};
ghost use Rattle.gm_store.specs.Added.{AddedOne};
ghost use Rattle.gm_store.specs.Stored.{StoreStands, Stored};
ghost use Rattle.gm_store.specs.Views.{cached_in, file_in, page_room, pages_in, with_page};

use crate::store::Store;
use gm_base::Folio;
use gm_file::File;
use gm_words::Bank;

// Caches the folio at an index of the file that has none.
pub(crate) fn put_page(files: &mut Vec<Option<File>>, file: u32, index: u64, folio: Folio)
    requires free { cached_in index (file_in files.old.items file) ≡ None }
    requires inside { index < pages_in (file_in files.old.items file) }
    requires room { 1 ≤ page_room (file_in files.old.items file) }
    ensures items { files.new.items ≡ slice_set files.old.items file (with_page (file_in files.old.items file) index folio) }
    ensures len { vec_len files.new ≡ vec_len files.old }
    ensures capacity { vec_capacity files.new ≡ vec_capacity files.old }
{
    match &mut files[file as usize] {
        Some(x) => x.put(index, folio),
        None => unreachable!(),
    }
}

impl Store {
    /// Adds a folio at an index of the file that has none, with words that are zero. None exactly where no frame is free;
    /// nothing changes then.
    pub(crate) fn add_zero(&mut self, file: u32, index: u64) -> Option<Folio>
        requires free { cached_in index (file_in self.old.files file) ≡ None }
        requires inside { index < pages_in (file_in self.old.files file) }
        requires room { 1 ≤ page_room (file_in self.old.files file) }
        requires serial { self.old.pool.next < COUNTER_LIMIT }
        ensures some { IfSome result (λ folio. (frames : ℕ) (k : Stored) → StoreStands frames self.old k → AddedOne frames file index folio (λ word. 0) self.new k) }
        ensures none { IfNone result ((frames : ℕ) (k : Stored) → StoreStands frames self.old k → IsFull frames k.flat.folios) }
        ensures unchanged { IfNone result (self.new ≡ self.old) }
    {
        let folio = self.pool.take_one()?;
        put_page(&mut self.files, file, index, folio);
        self.bank.clear(folio.frame);
        Some(folio)
    }

    /// Adds a folio at an index of the file that has none, with the words of a page of user memory. None exactly where no
    /// frame is free; nothing changes then.
    pub fn add_copy(&mut self, file: u32, index: u64, user: &Bank, page: u32) -> Option<Folio>
        requires free { cached_in index (file_in self.old.files file) ≡ None }
        requires inside { index < pages_in (file_in self.old.files file) }
        requires room { 1 ≤ page_room (file_in self.old.files file) }
        requires serial { self.old.pool.next < COUNTER_LIMIT }
        requires user { page < length user.now }
        ensures some { IfSome result (λ folio. (frames : ℕ) (k : Stored) → StoreStands frames self.old k → AddedOne frames file index folio (λ word. word_in user.now page word) self.new k) }
        ensures none { IfNone result ((frames : ℕ) (k : Stored) → StoreStands frames self.old k → IsFull frames k.flat.folios) }
        ensures unchanged { IfNone result (self.new ≡ self.old) }
    {
        let _pages = user.pages();
        let folio = self.pool.take_one()?;
        put_page(&mut self.files, file, index, folio);
        self.bank.copy(folio.frame, user, page);
        Some(folio)
    }
}
