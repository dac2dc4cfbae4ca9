//! The sets of tracked and of mixed blocks.

ghost use Rattle.std.specs.Prelude.{◌≡◌, ◌≢◌, ℕ, ◌+◌, ◌-◌, ◌*◌, ◌<◌, ◌≤◌, ◌&&◌, ◌||◌, nat_le, nat_lt, is_some, IsSome};
ghost use Rattle.gm_base.specs.declared.numbers.TheConstants.{BLOCK_PAGES, PAGE_LIMIT};
ghost use Rattle.gm_radix.specs.Entries.{lookup};
ghost use Rattle.gm_attr.specs.Flags.{FlagIs, FlagsAre};

use crate::blocks::block_span;
use gm_radix::Radix;
use gm_ranges::RunMap;

/// Puts the block among the mixed ones if its pages differ, and else takes it away.
pub(crate) fn renew(runs: &RunMap, mixed: &mut Radix<()>, block: u64)
    requires limit { BLOCK_PAGES * block < PAGE_LIMIT }
    requires room { 0 < mixed.old.spare }
    ensures flag { FlagIs runs.now.edges block (lookup block mixed.new.entries) }
    ensures others { (k : ℕ) → k ≢ block → lookup k mixed.new.entries ≡ lookup k mixed.old.entries }
    ensures spare { mixed.old.spare ≤ mixed.new.spare + 1 }
{
    match runs.all_same(block_span(block)) {
        Some(_) => {
            mixed.discard(block, block + 1);
        }
        None => mixed.insert(block, ()),
    }
}

/// The same, if the block is tracked.
pub(crate) fn renew_tracked(runs: &RunMap, tracked: &Radix<()>, mixed: &mut Radix<()>, block: u64)
    requires limit { BLOCK_PAGES * block < PAGE_LIMIT }
    requires room { 0 < mixed.old.spare }
    ensures flag { IsSome (lookup block tracked.now.entries) → FlagIs runs.now.edges block (lookup block mixed.new.entries) }
    ensures others { (k : ℕ) → k ≢ block → lookup k mixed.new.entries ≡ lookup k mixed.old.entries }
    ensures spare { mixed.old.spare ≤ mixed.new.spare + 1 }
{
    if tracked.get(block).is_some() {
        renew(runs, mixed, block);
    }
}

/// Puts the blocks from `first` on and before `end` among the tracked ones, with their flags.
pub(crate) fn add_blocks(
    runs: &RunMap,
    tracked: &mut Radix<()>,
    mixed: &mut Radix<()>,
    first: u64,
    end: u64,
)
    requires order { first ≤ end }
    requires limit { BLOCK_PAGES * end ≤ PAGE_LIMIT }
    requires room { end - first ≤ tracked.old.spare }
    requires mixed_room { end - first ≤ mixed.old.spare }
    requires flags { FlagsAre runs.now.edges tracked.old.entries mixed.old.entries }
    ensures tracked { (k : ℕ) → is_some (lookup k tracked.new.entries) ≡ ((nat_le first k && nat_lt k end) || is_some (lookup k tracked.old.entries)) }
    ensures flags { FlagsAre runs.now.edges tracked.new.entries mixed.new.entries }
    ensures spare { tracked.old.spare ≤ tracked.new.spare + (end - first) }
    ensures mixed_spare { mixed.old.spare ≤ mixed.new.spare + (end - first) }
{
    for block in first..end {
        renew(runs, mixed, block);
        tracked.insert(block, ());
    }
}
