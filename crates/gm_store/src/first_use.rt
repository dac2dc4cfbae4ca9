//! First uses of indexes, which add a folio or a whole block.

ghost use Rattle.std.specs.Prelude.{◌≡◌, ℕ, ◌+◌, ◌-◌, ◌%◌, ◌^◌, ◌<◌, ◌≤◌, None, Some, length, slice_set, vec_capacity, vec_len, IfNone, IfSome, IsTrue, ◌↔◌};
ghost use Rattle.gm_base.specs.declared.numbers.TheConstants.{BLOCK_PAGES, COUNTER_LIMIT, PAGE_LIMIT};
ghost use Rattle.gm_flat.specs.RightLives.{IsFreeBlock, TakesBlock};
ghost use Rattle.gm_flat.specs.RightLook.{IsFull};
ghost use Rattle.gm_pool.specs.Pools.{is_free};
ghost use Rattle.gm_store.specs.Added.{AddedBlock, FirstUsed};
ghost use Rattle.gm_store.specs.Opened.{IsOpenBlock};
ghost use Rattle.gm_store.specs.Stored.{StoreStands, Stored};
ghost use Rattle.gm_store.specs.Views.{cached_in, file_in, first_room, page_room, pages_in, with_pages, with_zeros};

use crate::adding::put_page;
use crate::store::Store;
use gm_base::{BLOCK_PAGES, Folio};
use gm_file::File;
use gm_words::Bank;

/// What a first use added: so many folios at indexes that rise by one, of which the first has this index, and the one of
/// the index that is used.
#[derive(Clone, Copy, Debug, PartialEq, Eq)]
pub struct Used {
    pub first: Folio,
    pub own: Folio,
    pub index: u64,
    pub pages: u16,
}

// Caches so many folios at indexes that rise by one, and makes their words zero.
fn put_run(
    files: &mut Vec<Option<File>>,
    bank: &mut Bank,
    file: u32,
    first: u64,
    count: u64,
    folio: Folio,
)
    requires free { (j : ℕ) → j < count → cached_in (first + j) (file_in files.old.items file) ≡ None }
    requires inside { first + count ≤ pages_in (file_in files.old.items file) }
    requires room { count ≤ page_room (file_in files.old.items file) }
    requires serial { folio.serial < COUNTER_LIMIT }
    requires frames { folio.frame + count ≤ length bank.old }
    requires few { first + count < COUNTER_LIMIT }
    requires block { count ≤ 512 }
    ensures items { files.new.items ≡ slice_set files.old.items file (with_pages count (file_in files.old.items file) first folio) }
    ensures bank { bank.new ≡ with_zeros count folio.frame bank.old }
    ensures len { vec_len files.new ≡ vec_len files.old }
    ensures capacity { vec_capacity files.new ≡ vec_capacity files.old }
    ensures frames { length bank.new ≡ length bank.old }
{
    let _frames = bank.pages();
    'pages: for j in 0..count {
        let frame = folio.frame + j as u32;
        let serial = folio.serial + j;
        put_page(files, file, first + j, Folio { serial, frame });
        bank.clear(frame);
    }
}

// The pages of a block, as a number of which proofs don't see the digits.
pub(crate) fn block_pages() -> u64
    ensures { result ≡ BLOCK_PAGES }
{
    BLOCK_PAGES
}

// Whether the file is a BLOCK file, the block from this index on lies inside it, and nothing of the block is cached.
fn is_open(file: &File, first: u64) -> bool
    requires { first < COUNTER_LIMIT }
    ensures yes { IsTrue result → IsOpenBlock (Some file.now) first }
    ensures no { IsOpenBlock (Some file.now) first → IsTrue result }
{
    let end = first + BLOCK_PAGES;
    if !file.is_block() {
        return false;
    }
    if file.pages() < end {
        return false;
    }
    file.count_in(first, end) == 0
}

fn is_open_block(files: &[Option<File>], file: u32, first: u64) -> bool
    requires { first < COUNTER_LIMIT }
    ensures yes { IsTrue result → IsOpenBlock (file_in files.now file) first }
    ensures no { IsOpenBlock (file_in files.now file) first → IsTrue result }
{
    match files.get(file as usize) {
        Some(Some(x)) => is_open(x, first),
        _ => false,
    }
}

impl Store {
    // Adds the folios of a block at an index of the file, with words that are zero. None exactly where no block of frames is
    // free; nothing changes then.
    fn add_block(&mut self, file: u32, first: u64, count: u64) -> Option<Folio>
        requires open { IsOpenBlock (file_in self.old.files file) first }
        requires count { count ≡ BLOCK_PAGES }
        requires room { count ≤ page_room (file_in self.old.files file) }
        requires serial { self.old.pool.next < COUNTER_LIMIT }
        requires few { first + count < COUNTER_LIMIT }
        ensures some { IfSome result (λ folio. (frames : ℕ) (k : Stored) → StoreStands frames self.old k → AddedBlock frames file first count folio self.new k) }
        ensures none { IfNone result ((frames : ℕ) (k : Stored) → StoreStands frames self.old k → (frame : ℕ) → IsFreeBlock frames frame k.flat.folios → ⊥) }
        ensures unchanged { IfNone result (self.new ≡ self.old) }
        ensures serial { IfSome result (λ folio. folio.serial < COUNTER_LIMIT) }
        ensures frame { IfSome result (λ folio. folio.frame + BLOCK_PAGES < 2 ^ 32) }
    {
        let _frames = self.bank.pages();
        let folio = self.pool.take_block()?;
        put_run(&mut self.files, &mut self.bank, file, first, count, folio);
        Some(folio)
    }

    // Adds one folio at an index of the file, with words that are zero.
    fn use_one(&mut self, file: u32, index: u64) -> Option<Used>
        requires free { cached_in index (file_in self.old.files file) ≡ None }
        requires inside { index < pages_in (file_in self.old.files file) }
        requires room { 1 ≤ page_room (file_in self.old.files file) }
        requires serial { self.old.pool.next < COUNTER_LIMIT }
        ensures some { IfSome result (λ used. (frames : ℕ) (k : Stored) → StoreStands frames self.old k → (TakesBlock frames file index k.flat → ⊥) → FirstUsed frames file index used self.new k) }
        ensures none { IfNone result ((frames : ℕ) (k : Stored) → StoreStands frames self.old k → IsFull frames k.flat.folios) }
        ensures unchanged { IfNone result (self.new ≡ self.old) }
    {
        let own = self.add_zero(file, index)?;
        Some(Used {
            first: own,
            own,
            index,
            pages: 1,
        })
    }

    // Adds the block from `first` on, or one folio where no block of frames is free.
    fn use_block(&mut self, file: u32, index: u64, first: u64) -> Option<Used>
        requires first { first ≡ index - index % BLOCK_PAGES }
        requires open { IsOpenBlock (file_in self.old.files file) first }
        requires free { cached_in index (file_in self.old.files file) ≡ None }
        requires inside { index < pages_in (file_in self.old.files file) }
        requires small { index < PAGE_LIMIT }
        requires room { BLOCK_PAGES ≤ page_room (file_in self.old.files file) }
        requires serial { self.old.pool.next < COUNTER_LIMIT }
        ensures some { IfSome result (λ used. (frames : ℕ) (k : Stored) → StoreStands frames self.old k → FirstUsed frames file index used self.new k) }
        ensures none { IfNone result ((frames : ℕ) (k : Stored) → StoreStands frames self.old k → IsFull frames k.flat.folios) }
        ensures unchanged { IfNone result (self.new ≡ self.old) }
    {
        let count = block_pages();
        match self.add_block(file, first, count) {
            Some(folio) => {
                let own = Folio {
                    serial: folio.serial + (index - first),
                    frame: folio.frame + (index - first) as u32,
                };
                Some(Used {
                    first: folio,
                    own,
                    index: first,
                    pages: count as u16,
                })
            }
            None => self.use_one(file, index),
        }
    }

    /// Adds what the first use of an index adds, which has nothing cached, with words that are zero: the folios of its block
    /// in a BLOCK file that has nothing of the block cached, where 512 aligned frames are free; else one folio. None exactly
    /// where no frame is free; nothing changes then.
    pub fn first_use(&mut self, file: u32, index: u64) -> Option<Used>
        requires free { cached_in index (file_in self.old.files file) ≡ None }
        requires inside { index < pages_in (file_in self.old.files file) }
        requires small { pages_in (file_in self.old.files file) ≤ PAGE_LIMIT }
        requires room { first_room (file_in self.old.files file) ≤ page_room (file_in self.old.files file) }
        requires serial { self.old.pool.next < COUNTER_LIMIT }
        ensures some { IfSome result (λ used. (frames : ℕ) (k : Stored) → StoreStands frames self.old k → FirstUsed frames file index used self.new k) }
        ensures none { IfNone result ((frames : ℕ) (k : Stored) → StoreStands frames self.old k → IsFull frames k.flat.folios) }
        ensures unchanged { IfNone result (self.new ≡ self.old) }
    {
        let first = index - index % BLOCK_PAGES;
        if is_open_block(&self.files, file, first) {
            self.use_block(file, index, first)
        } else {
            self.use_one(file, index)
        }
    }
}
