//! Sets of numbers.

ghost use Rattle.std.specs.Prelude.{◌≡◌, ℕ, ◌+◌, ◌*◌, ◌%◌, ◌^◌, ◌<◌, ◌≤◌, ◌↔◌, Bool, true, false, length, nat_eq, nat_lt, slice_index, if◌then◌else◌, IsTrue, IfOk, IfSome, IfNone};
ghost use Rattle.gm_pool.specs.Bits.{bit_in, HasRun};

use crate::bits::{WORD_BITS, add_to, all_below, is_set, lowest_bit, take_from};
use gm_base::NoMemory;
use std::alloc::Global;
use std::marker::Model;

/// A set of numbers below a size.
#[derive(Debug, Drop)]
pub(crate) struct NumberSet {
    // A bit for each number.
    words: Vec<u64>,
    // A bit for each word that isn't 0, so that the least number is found by few words.
    heads: Vec<u64>,
}

impl Model for NumberSet {
    ghost use Rattle.std.specs.Prelude.{ℕ, ◌*◌, ◌^◌, ◌≤◌, List, vec_len};
    ghost use Rattle.gm_pool.specs.Bits.{Heads};

    ghost Value = { List ℕ };

    ghost view = { λ s. s.words.items };

    ghost invariant = { λ s. Heads s.words.items s.heads.items × (vec_len s.words ≤ 64 * vec_len s.heads) × (vec_len s.words ≤ 2 ^ 32) × (vec_len s.heads ≤ 2 ^ 32) };
}

impl NumberSet {
    /// All numbers below a size.
    pub(crate) fn all_below(alloc: Global, size: u32) -> Result<NumberSet, NoMemory>
        ensures numbers { IfOk result (λ set. (number : ℕ) → bit_in set number ≡ nat_lt number size) }
        ensures len { IfOk result (λ set. size ≤ 64 * length set) }
    {
        let words = all_below(alloc, size as usize)?;
        let heads = all_below(alloc, words.len())?;
        Ok(NumberSet { words, heads })
    }

    /// Adds a number below the size.
    pub(crate) fn add(&mut self, number: usize)
        requires { number < 64 * length self.old }
        ensures numbers { (other : ℕ) → bit_in self.new other ≡ (if nat_eq other number then true else bit_in self.old other) }
        ensures len { length self.new ≡ length self.old }
    {
        add_to(&mut self.words, number);
        add_to(&mut self.heads, number / WORD_BITS);
    }

    /// Takes a number of the set out.
    pub(crate) fn take_out(&mut self, number: usize)
        requires { bit_in self.old number ≡ true }
        ensures numbers { (other : ℕ) → bit_in self.new other ≡ (if nat_eq other number then false else bit_in self.old other) }
        ensures len { length self.new ≡ length self.old }
    {
        take_from(&mut self.words, number);
        let word = number / WORD_BITS;
        if self.words[word] == 0 {
            take_from(&mut self.heads, word);
        }
    }

    /// Takes a number out, where it is in the set.
    pub(crate) fn leave_out(&mut self, number: usize)
        ensures numbers { (other : ℕ) → bit_in self.new other ≡ (if nat_eq other number then false else bit_in self.old other) }
        ensures len { length self.new ≡ length self.old }
    {
        if self.has(number) {
            self.take_out(number);
        }
    }

    /// Whether a number is in the set.
    fn has(&self, number: usize) -> bool
        ensures { result ≡ bit_in self.now number }
    {
        is_set(word_at(&self.words, number / WORD_BITS), number % WORD_BITS)
    }

    /// The least number of the set. None exactly where the set is empty.
    pub(crate) fn lowest(&self) -> Option<usize>
        ensures within { IfSome result (λ number. bit_in self.now number ≡ true) }
        ensures lowest { IfSome result (λ number. (other : ℕ) → other < number → bit_in self.now other ≡ false) }
        ensures none { IfNone result ((number : ℕ) → bit_in self.now number ≡ false) }
    {
        let head = first_some(&self.heads)?;
        let head_bit = lowest_bit(word_at(&self.heads, head));
        let word = head * WORD_BITS + head_bit;
        let bit = lowest_bit(word_at(&self.words, word));
        Some(word * WORD_BITS + bit)
    }

    /// Whether the 512 numbers from `first` on, a multiple of 512, are all in the set.
    pub(crate) fn has_block(&self, first: usize) -> bool
        requires { (first % 512 ≡ 0) × (first < 2 ^ 32) }
        ensures { IsTrue result ↔ HasRun self.now first 512 }
    {
        are_full(&self.words, first / WORD_BITS, 8)
    }
}

/// The number of the first word that isn't 0.
fn first_some(words: &[u64]) -> Option<usize>
    ensures some { IfSome result (λ word. (word < length words.now) × (0 < slice_index words.now word)) }
    ensures first { IfSome result (λ word. (other : ℕ) → other < word → slice_index words.now other ≡ 0) }
    ensures none { IfNone result ((word : ℕ) → slice_index words.now word ≡ 0) }
{
    for (number, word) in words.iter().enumerate() {
        if *word != 0 {
            return Some(number);
        }
    }
    None
}

/// The word of a number, 0 past the end.
fn word_at(words: &[u64], at: usize) -> u64
    ensures { result ≡ slice_index words.now at }
{
    if at < words.len() { words[at] } else { 0 }
}

/// Whether the words from number `first` on are full, so many of them.
fn are_full(words: &[u64], first: usize, count: usize) -> bool
    requires { first + count < 2 ^ 64 }
    ensures { IsTrue result ↔ HasRun words.now (64 * first) (64 * count) }
{
    for at in first..first + count {
        if word_at(words, at) != u64::MAX {
            return false;
        }
    }
    true
}
