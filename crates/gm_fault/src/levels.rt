//! How large a leaf a fault may install.

ghost use Rattle.std.specs.Prelude.{◌≡◌, ◌+◌, ◌*◌, ◌/◌, nat_le, ◌&&◌};
ghost use Rattle.gm_fault.specs.Levels.{level_of, block_of, contains, hull_meets};
ghost use Rattle.gm_flat.specs.Slots.{slot_span};

use gm_base::{BLOCK_PAGES, Level, Page, Span};
use gm_flat::SlotView;

/// The level of a leaf for the page: a block exactly where the machine allows blocks (`huge`), the slot covers the
/// page's whole block, the attributes of the block aren't mixed, its backing is 512 consecutive places from a multiple
/// of 512 on (`whole`), and the range of the invalidations in progress doesn't meet it.
pub fn level(
    huge: bool,
    slot: &SlotView,
    page: Page,
    mixed: bool,
    whole: bool,
    hull: Option<Span>,
) -> Level
    ensures { result ≡ level_of huge slot.now page mixed whole hull }
{
    let block = BLOCK_PAGES * (page.number() / BLOCK_PAGES);
    let is_met = match hull {
        None => false,
        Some(range) => range.lo() < block + BLOCK_PAGES && block < range.hi(),
    };
    if huge && covers_block(slot, block) && !mixed && whole && !is_met {
        Level::Block
    } else {
        Level::Small
    }
}

// Whether the slot covers the block that begins at this page.
fn covers_block(slot: &SlotView, block: u64) -> bool
    ensures { result ≡ contains (slot_span slot.now) (record { lo = block; hi = block + BLOCK_PAGES }) }
{
    slot.base <= block
        && block - slot.base <= slot.pages
        && BLOCK_PAGES <= slot.pages - (block - slot.base)
}
