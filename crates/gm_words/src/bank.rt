//! Banks.

ghost use Rattle.std.specs.Prelude.{◌≡◌, ◌≢◌, ℕ, ◌+◌, ◌*◌, ◌<◌, ◌≤◌, IfOk, None, Some, length, slice_set, slice_index, vec_capacity, vec_len};
ghost use Rattle.gm_words.specs.Banks.{alike, bank_from, place_of, zero_page, page_in, word_in, IsKept};

use gm_base::{NoMemory, PAGE_WORDS};
use std::alloc::Global;
use std::marker::Model;

/// Pages of 512 words.
#[derive(Debug, Drop)]
pub struct Bank {
    // The words of the pages that were written, in the order of their first writes. All other pages are zero, and cost no
    // memory but what is reserved.
    words: Vec<u64>,
    // For each page, as far as one was written, its place among those. The pages after them have none.
    places: Vec<Option<u32>>,
    pages: u32,
}

impl Model for Bank {
    ghost use Rattle.std.specs.Prelude.{ℕ, List, vec_capacity};
    ghost use Rattle.gm_words.specs.Banks.{bank_from, IsKept};

    ghost Value = { List (List ℕ) };

    ghost view = { λ b. bank_from b.pages b.places.items b.words.items };

    ghost invariant = { λ b. IsKept b.pages b.places.items b.words.items (vec_capacity b.places) (vec_capacity b.words) };
}

impl Bank {
    /// So many pages of zeros. It takes the memory of all of them at once and writes none of it.
    pub fn new(alloc: Global, pages: u32) -> Result<Bank, NoMemory>
        ensures pages { IfOk result (λ bank. bank ≡ alike pages zero_page) }
        ensures len { IfOk result (λ bank. length bank ≡ pages) }
        ensures zero { IfOk result (λ bank. (page : ℕ) (word : ℕ) → word_in bank page word ≡ 0) }
    {
        let words = Vec::with_capacity(alloc, pages as usize * PAGE_WORDS as usize)?;
        let places = Vec::with_capacity(alloc, pages as usize)?;
        Ok(Bank {
            words,
            places,
            pages,
        })
    }

    /// The number of pages. Each has 512 words.
    pub fn pages(&self) -> u32
        ensures pages { result ≡ length self.now }
        ensures whole { (page : ℕ) → page < length self.now → length (page_in self.now page) ≡ PAGE_WORDS }
    {
        self.pages
    }

    /// The word of this number, below 512, of a page.
    pub fn read(&self, page: u32, word: u16) -> u64
        requires page { page < length self.now }
        requires word { word < PAGE_WORDS }
        ensures { result ≡ word_in self.now page word }
    {
        match find(&self.places, page) {
            Some(place) => self.words[place as usize * PAGE_WORDS as usize + word as usize],
            None => 0,
        }
    }

    /// Sets the word of this number, below 512, of a page.
    pub fn write(&mut self, page: u32, word: u16, value: u64)
        requires page { page < length self.old }
        requires word { word < PAGE_WORDS }
        ensures page { self.new ≡ slice_set self.old page (slice_set (page_in self.old page) word value) }
        ensures len { length self.new ≡ length self.old }
    {
        let place = keep(&mut self.places, &mut self.words, self.pages, page);
        self.words[place as usize * PAGE_WORDS as usize + word as usize] = value;
    }

    /// Makes every word of a page zero.
    pub fn clear(&mut self, page: u32)
        requires { page < length self.old }
        ensures page { self.new ≡ slice_set self.old page zero_page }
        ensures len { length self.new ≡ length self.old }
    {
        if let Some(place) = find(&self.places, page) {
            let start = place as usize * PAGE_WORDS as usize;
            let words = self.words.as_mut_slice();
            words[start..start + PAGE_WORDS as usize].fill(0);
        }
    }

    /// Makes the words of a page those of a page of another bank.
    pub fn copy(&mut self, page: u32, source: &Bank, from: u32)
        requires page { page < length self.old }
        requires from { from < length source.now }
        ensures page { self.new ≡ slice_set self.old page (page_in source.now from) }
        ensures len { length self.new ≡ length self.old }
    {
        match find(&source.places, from) {
            Some(place) => {
                let start = place as usize * PAGE_WORDS as usize;
                let page_words = &source.words[start..start + PAGE_WORDS as usize];
                self.put(page, page_words);
            }
            None => self.clear(page),
        }
    }

    /// Makes these the words of a page.
    fn put(&mut self, page: u32, page_words: &[u64])
        requires page { page < length self.old }
        requires whole { length page_words.now ≡ PAGE_WORDS }
        ensures page { self.new ≡ slice_set self.old page page_words.now }
        ensures len { length self.new ≡ length self.old }
    {
        let place = keep(&mut self.places, &mut self.words, self.pages, page);
        let start = place as usize * PAGE_WORDS as usize;
        let words = self.words.as_mut_slice();
        words[start..start + PAGE_WORDS as usize].copy_from_slice(page_words);
    }
}

// The place of a page's words, where it has one.
fn find(places: &[Option<u32>], page: u32) -> Option<u32>
    ensures { result ≡ place_of places.now page }
{
    let at = page as usize;
    if at < places.len() { places[at] } else { None }
}

// The place of a page's words. A page that has none gets one with the words that it has already, which are zero.
fn keep(places: &mut Vec<Option<u32>>, words: &mut Vec<u64>, pages: u32, page: u32) -> u32
    requires page { page < pages }
    requires kept { IsKept pages places.old.items words.old.items (vec_capacity places.old) (vec_capacity words.old) }
    ensures kept { IsKept pages places.new.items words.new.items (vec_capacity places.new) (vec_capacity words.new) }
    ensures same { bank_from pages places.new.items words.new.items ≡ bank_from pages places.old.items words.old.items }
    ensures place { place_of places.new.items page ≡ Some result }
{
    if let Some(place) = find(places, page) {
        return place;
    }
    let place = (words.len() / PAGE_WORDS as usize) as u32;
    reach(places, page);
    places[page as usize] = Some(place);
    add_page(words);
    place
}

// Makes the list of places long enough for a page.
fn reach(places: &mut Vec<Option<u32>>, page: u32)
    requires { page < vec_capacity places.old }
    ensures same { (p : ℕ) → place_of places.new.items p ≡ place_of places.old.items p }
    ensures long { page < length places.new.items }
    ensures len { (n : ℕ) → length places.old.items ≤ n → page < n → length places.new.items ≤ n }
    ensures capacity { vec_capacity places.old ≤ vec_capacity places.new }
{
    if places.len() <= page as usize {
        match places.resize(page as usize + 1, None) {
            Ok(()) => {}
            Err(_) => unreachable!(),
        }
    }
}

// Adds the words of one page, which are zero.
fn add_page(words: &mut Vec<u64>)
    requires { length words.old.items + PAGE_WORDS ≤ vec_capacity words.old }
    ensures same { (n : ℕ) → slice_index words.new.items n ≡ slice_index words.old.items n }
    ensures len { length words.new.items ≡ length words.old.items + PAGE_WORDS }
    ensures capacity { vec_capacity words.old ≤ vec_capacity words.new }
{
    match words.resize(words.len() + PAGE_WORDS as usize, 0) {
        Ok(()) => {}
        Err(_) => unreachable!(),
    }
}
