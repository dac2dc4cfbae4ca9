//! Aligned blocks of indexes.

ghost use Rattle.std.specs.Prelude.{◌<◌, ◌≤◌, ◌⊎◌};
ghost use Rattle.gm_base.specs.declared.numbers.TheConstants.{PAGE_LIMIT};

use gm_base::PAGE_LIMIT;

/// A block of 2^n indexes that begins at a multiple of 2^n, in two halves: its first index, the first one of the
/// second half, and the one after the last.
#[derive(Clone, Copy)]
pub(crate) struct Block {
    pub first: u64,
    pub pivot: u64,
    pub end: u64,
}

// The least block that has the two indexes in different halves.
fn block_over(low: u64, high: u64) -> Block
    requires order { low < high }
    requires limit { high < PAGE_LIMIT }
    ensures first { result.first ≤ low }
    ensures above { low < result.pivot }
    ensures pivot { result.pivot ≤ high }
    ensures last { high < result.end }
    ensures limit { result.end ≤ PAGE_LIMIT }
{
    let mask = ones_up_to_highest(low ^ high);
    // The minima and maxima change no number. They keep the order of the parts plain, whatever the bits are.
    Block {
        first: (high & !mask).min(low),
        pivot: (high & !(mask >> 1)).max(low + 1).min(high),
        end: (high | mask).max(high).min(PAGE_LIMIT - 1) + 1,
    }
}

/// The block over a node's indexes and one beside them. They are all from `from` on and below `to`.
pub(crate) fn block_beside(first: u64, end: u64, index: u64, from: u64, to: u64) -> Block
    requires order { first < end }
    requires apart { (index < first) ⊎ (end ≤ index) }
    requires low { from ≤ first }
    requires high { end ≤ to }
    requires index_low { from ≤ index }
    requires index_high { index < to }
    requires limit { to ≤ PAGE_LIMIT }
    ensures low { from ≤ result.first }
    ensures high { result.end ≤ to }
    ensures beside { ((result.first ≤ index) × (index < result.pivot) × (result.pivot ≤ first) × (end ≤ result.end)) ⊎ ((result.first ≤ first) × (end ≤ result.pivot) × (result.pivot ≤ index) × (index < result.end)) }
{
    let block = if index < first {
        block_over(index, first)
    } else {
        block_over(end - 1, index)
    };
    // The minima and maxima change no number. They keep the order plain, whatever the bits are.
    Block {
        first: block.first.min(first).max(from),
        pivot: block.pivot,
        end: block.end.max(end).min(to),
    }
}

// All bits up to the highest one of the number.
fn ones_up_to_highest(number: u64) -> u64 {
    u64::MAX.wrapping_shr(number.leading_zeros())
}
