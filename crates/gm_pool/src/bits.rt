//! Bits of words.

ghost use Rattle.std.specs.Prelude.{◌≡◌, ◌≢◌, ℕ, ◌*◌, ◌/◌, ◌<◌, ◌≤◌, Bool, true, false, length, slice_index, nat_eq, nat_lt, if◌then◌else◌, IfOk, ◌^◌, vec_len};
ghost use Rattle.gm_pool.specs.Bits.{has_bit, bit_in};

use gm_base::NoMemory;
use std::alloc::Global;

/// The bits of a word.
pub(crate) const WORD_BITS: usize = 64;

/// The word with this bit set too.
fn with_bit(word: u64, bit: usize) -> u64
    requires { bit < 64 }
    ensures set { has_bit result bit ≡ true }
    ensures others { (other : ℕ) → other ≢ bit → has_bit result other ≡ has_bit word other }
{
    word | (1 << bit)
}

/// The word without this bit.
fn without_bit(word: u64, bit: usize) -> u64
    requires { bit < 64 }
    ensures clear { has_bit result bit ≡ false }
    ensures others { (other : ℕ) → other < 64 → other ≢ bit → has_bit result other ≡ has_bit word other }
{
    word & !(1 << bit)
}

/// Whether this bit of a word is set.
pub(crate) fn is_set(word: u64, bit: usize) -> bool
    requires { bit < 64 }
    ensures { result ≡ has_bit word bit }
{
    word & (1 << bit) != 0
}

/// The lowest bit of a word that is set. The word isn't 0.
pub(crate) fn lowest_bit(word: u64) -> usize
    requires { 0 < word }
    ensures bound { result < 64 }
    ensures set { has_bit word result ≡ true }
    ensures lowest { (other : ℕ) → other < result → has_bit word other ≡ false }
{
    word.trailing_zeros() as usize
}

/// Adds a number to the set that words hold.
pub(crate) fn add_to(words: &mut Vec<u64>, number: usize)
    requires { number < 64 * length words.old.items }
    ensures numbers { (other : ℕ) → bit_in words.new.items other ≡ (if nat_eq other number then true else bit_in words.old.items other) }
    ensures words { (word : ℕ) → word ≢ number / 64 → slice_index words.new.items word ≡ slice_index words.old.items word }
    ensures len { vec_len words.new ≡ vec_len words.old }
{
    let word = number / WORD_BITS;
    words[word] = with_bit(words[word], number % WORD_BITS);
}

/// Takes a number out of the set that words hold.
pub(crate) fn take_from(words: &mut Vec<u64>, number: usize)
    requires { number < 64 * length words.old.items }
    ensures numbers { (other : ℕ) → bit_in words.new.items other ≡ (if nat_eq other number then false else bit_in words.old.items other) }
    ensures words { (word : ℕ) → word ≢ number / 64 → slice_index words.new.items word ≡ slice_index words.old.items word }
    ensures len { vec_len words.new ≡ vec_len words.old }
{
    let word = number / WORD_BITS;
    words[word] = without_bit(words[word], number % WORD_BITS);
}

/// Words that hold the numbers below a size.
pub(crate) fn all_below(alloc: Global, size: usize) -> Result<Vec<u64>, NoMemory>
    requires { size < 2 ^ 32 }
    ensures numbers { IfOk result (λ words. (number : ℕ) → bit_in words.items number ≡ nat_lt number size) }
    ensures some { IfOk result (λ words. (word : ℕ) → nat_lt 0 (slice_index words.items word) ≡ nat_lt word (vec_len words)) }
    ensures len { IfOk result (λ words. (size ≤ 64 * vec_len words) × (vec_len words ≤ size)) }
{
    let whole = size / WORD_BITS;
    let rest = size % WORD_BITS;
    let mut words = full_words(alloc, whole)?;
    if rest == 0 {
        return Ok(words);
    }
    words.push((1 << rest) - 1)?;
    Ok(words)
}

/// So many words with all their bits set.
fn full_words(alloc: Global, count: usize) -> Result<Vec<u64>, NoMemory>
    ensures full { IfOk result (λ words. (word : ℕ) → word < count → slice_index words.items word ≡ u64.MAX) }
    ensures len { IfOk result (λ words. vec_len words ≡ count) }
{
    let mut words = Vec::new(alloc);
    words.resize(count, u64::MAX)?;
    Ok(words)
}
