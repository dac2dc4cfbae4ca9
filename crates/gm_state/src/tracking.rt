//! The blocks of slots, each with a flag that tells whether its attributes differ.

ghost use Rattle.std.specs.Prelude.{◌≡◌, ℕ, ◌+◌, ◌<◌, ◌≤◌, ◌&&◌, ◌||◌, not, true, IfSome, OnOk};
ghost use Rattle.gm_attr.specs.Kinds.{blocks_in, is_tracked, lies_in};
ghost use Rattle.gm_base.specs.declared.numbers.TheConstants.{PAGE_LIMIT};
ghost use Rattle.gm_flat.specs.Calls.{page_of};
ghost use Rattle.gm_flat.specs.Slots.{slot_span};
ghost use Rattle.gm_state.specs.Tracking.{lies_in_slot, region_span};
ghost use Rattle.gm_state.specs.declared.tracking.TheConstants.{SLOT_BLOCKS};

use gm_attr::Attrs;
use gm_base::{NoMemory, PAGE_BYTES, Region, Span};
use gm_flat::SlotView;

/// The most blocks that lie wholly in a slot, since a slot has at most all the 65,536 pages of user memory.
pub(crate) const SLOT_BLOCKS: u32 = 128;

/// Keeps memory for the blocks of one slot, where blocks are allowed.
pub(crate) fn reserve_blocks(huge: bool, attrs: &mut Attrs) -> Result<(), NoMemory>
    ensures same { attrs.new ≡ record attrs.old { block_spare = attrs.new.block_spare } }
    ensures room { OnOk result (huge ≡ true → SLOT_BLOCKS ≤ attrs.new.block_spare) }
    ensures not_less { attrs.old.block_spare ≤ attrs.new.block_spare }
{
    if huge {
        attrs.reserve_blocks(SLOT_BLOCKS)
    } else {
        Ok(())
    }
}

/// The guest pages of a region, of which there is one.
pub(crate) fn pages_of(region: &Region) -> Span
    requires some { 0 < page_of region.now.size }
    requires limit { page_of region.now.gpa + page_of region.now.size ≤ PAGE_LIMIT }
    ensures { result ≡ region_span region.now }
{
    let lo = region.gpa / PAGE_BYTES;
    match Span::new(lo, lo + region.size / PAGE_BYTES) {
        Some(span) => span,
        None => unreachable!(),
    }
}

/// The guest pages of a slot, of which there is one.
fn pages_under(slot: SlotView) -> Span
    requires some { 0 < slot.pages }
    requires limit { slot.base + slot.pages ≤ PAGE_LIMIT }
    ensures { result ≡ slot_span slot }
{
    match Span::new(slot.base, slot.base + slot.pages) {
        Some(span) => span,
        None => unreachable!(),
    }
}

/// Tracks the blocks that lie wholly in the span, where blocks are allowed.
pub(crate) fn track(huge: bool, attrs: &mut Attrs, span: Span)
    requires { huge ≡ true → blocks_in span ≤ attrs.old.block_spare }
    ensures edges { attrs.new.edges ≡ attrs.old.edges }
    ensures tracked { (block : ℕ) → is_tracked attrs.new block ≡ ((huge && lies_in span block) || is_tracked attrs.old block) }
{
    if huge {
        attrs.track(span);
    }
}

/// Tracks the blocks of a slot no more, if there is one.
pub(crate) fn untrack(huge: bool, attrs: &mut Attrs, slot: Option<SlotView>)
    requires { IfSome slot (λ s. (0 < s.pages) × (s.base + s.pages ≤ PAGE_LIMIT)) }
    ensures edges { attrs.new.edges ≡ attrs.old.edges }
    ensures tracked { (block : ℕ) → is_tracked attrs.new block ≡ (not (huge && lies_in_slot slot block) && is_tracked attrs.old block) }
    ensures block_spare { attrs.new.block_spare ≡ attrs.old.block_spare }
{
    match slot {
        Some(slot) if huge => attrs.untrack(pages_under(slot)),
        _ => {}
    }
}
