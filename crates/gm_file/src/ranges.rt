//! Bound ranges, in order of index. At most one of a slot is made, so a file has no more of them than there are slots.

ghost use Rattle.std.specs.Prelude.{◌≡◌, ℕ, ◌+◌, ◌<◌, ◌≤◌, length, None, slice_index_or, vec_capacity, vec_len};
ghost use Rattle.gm_base.specs.declared.numbers.TheConstants.{PAGE_LIMIT};
ghost use Rattle.gm_file.specs.Ranges.{LieApart, met, range_at, with_range, without_slot};
ghost use Rattle.gm_file.specs.declared.ranges.BoundRange.{BoundRange};

/// The indexes of a file from `lo` on and below `hi`, which are bound for a slot.
#[derive(Clone, Copy, Debug, PartialEq, Eq)]
pub struct BoundRange {
    pub lo: u64,
    pub hi: u64,
    pub slot: u32,
}

/// A refusal to bind a range: it meets one that is bound for this slot.
#[derive(Clone, Copy, Debug, PartialEq, Eq)]
pub struct Bound {
    pub slot: u32,
}

/// How many ranges end at the index or before it.
pub(crate) fn count_ended(ranges: &[BoundRange], index: u64) -> usize
    requires { LieApart 0 ranges.now }
    ensures bound { result ≤ length ranges.now }
    ensures low { (at : ℕ) (d : BoundRange) → at < result → (slice_index_or ranges.now at d).hi ≤ index }
    ensures high { (at : ℕ) (d : BoundRange) → result ≤ at → at < length ranges.now → index < (slice_index_or ranges.now at d).hi }
{
    ranges.partition_point(|range| range.hi <= index)
}

/// How many ranges begin before the index.
pub(crate) fn count_begun(ranges: &[BoundRange], index: u64) -> usize
    requires { LieApart 0 ranges.now }
    ensures bound { result ≤ length ranges.now }
    ensures low { (at : ℕ) (d : BoundRange) → at < result → (slice_index_or ranges.now at d).lo < index }
    ensures high { (at : ℕ) (d : BoundRange) → result ≤ at → at < length ranges.now → index ≤ (slice_index_or ranges.now at d).lo }
{
    ranges.partition_point(|range| range.lo < index)
}

/// The ranges that have an index from `lo` on and below `hi`. They follow one another, so the first and the one after
/// the last are sought.
pub(crate) fn all_met(ranges: &[BoundRange], lo: u64, hi: u64) -> &[BoundRange]
    requires { LieApart 0 ranges.now }
    ensures { result.now ≡ met lo hi ranges.now }
{
    if hi <= lo {
        return &ranges[..0];
    }
    let first = count_ended(ranges, lo);
    let later = &ranges[first..];
    &later[..count_begun(later, hi)]
}

/// Number `at` of the ranges that have an index from `lo` on and below `hi`. They follow one another, so the first is
/// sought and the number added.
pub(crate) fn find_met(ranges: &[BoundRange], lo: u64, hi: u64, at: u32) -> Option<BoundRange>
    requires { LieApart 0 ranges.now }
    ensures { result ≡ range_at at (met lo hi ranges.now) }
{
    if hi <= lo {
        return None;
    }
    let place = count_ended(ranges, lo) + at as usize;
    if place < ranges.len() && ranges[place].lo < hi {
        Some(ranges[place])
    } else {
        None
    }
}

/// Puts a range that meets none in its place. There is room for it.
pub(crate) fn put_range(ranges: &mut Vec<BoundRange>, range: BoundRange)
    requires apart { LieApart 0 ranges.old.items }
    requires some { range.lo < range.hi }
    requires limit { range.hi ≤ PAGE_LIMIT }
    requires free { range_at 0 (met range.lo range.hi ranges.old.items) ≡ None }
    requires room { vec_len ranges.old < vec_capacity ranges.old }
    ensures items { ranges.new.items ≡ with_range range ranges.old.items }
    ensures apart { LieApart 0 ranges.new.items }
    ensures len { vec_len ranges.new ≡ vec_len ranges.old + 1 }
    ensures capacity { vec_capacity ranges.old ≤ vec_capacity ranges.new }
{
    let place = count_ended(ranges, range.lo);
    match ranges.insert(place, range) {
        Ok(()) => {}
        Err(_) => unreachable!(),
    }
}

/// Takes the ranges of a slot away.
pub(crate) fn drop_slot(ranges: &mut Vec<BoundRange>, slot: u32)
    requires { LieApart 0 ranges.old.items }
    ensures items { ranges.new.items ≡ without_slot slot ranges.old.items }
    ensures apart { LieApart 0 ranges.new.items }
    ensures len { vec_len ranges.new ≤ vec_len ranges.old }
    ensures capacity { vec_capacity ranges.new ≡ vec_capacity ranges.old }
{
    ranges.retain(|range| range.slot != slot);
}
