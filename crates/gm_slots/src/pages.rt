//! The pages and the file of a slot.

ghost use Rattle.std.specs.Prelude.{◌≡◌, ◌+◌, ◌<◌, true, false};
ghost use Rattle.gm_base.specs.Extent.{meets};
ghost use Rattle.gm_flat.specs.Slots.{lies_over};
ghost use Rattle.gm_flat.specs.Effects.{shut_slot};

use gm_flat::SlotView;

/// Whether the slot lies over a page.
pub(crate) fn is_over(slot: &SlotView, page: u64) -> bool
    ensures { result ≡ lies_over slot.now page }
{
    page >= slot.base && page - slot.base < slot.pages
}

/// Whether so many pages from one base on meet so many from another.
pub(crate) fn ranges_meet(base: u64, pages: u64, other_base: u64, other_pages: u64) -> bool
    requires pages { 0 < pages }
    requires other { 0 < other_pages }
    ensures { result ≡ meets (record { lo = base; hi = base + pages }) (record { lo = other_base; hi = other_base + other_pages }) }
{
    if base <= other_base {
        other_base - base < pages
    } else {
        base - other_base < other_pages
    }
}

/// The slot, marked.
pub(crate) fn with_mark(slot: SlotView) -> SlotView
    ensures { result ≡ record slot { invalid = true } }
{
    SlotView {
        invalid: true,
        ..slot
    }
}

/// The slot at another base, not marked.
pub(crate) fn at_base(slot: SlotView, base: u64) -> SlotView
    ensures { result ≡ record slot { base = base; invalid = false } }
{
    SlotView {
        base,
        invalid: false,
        ..slot
    }
}

/// The slot, without its file if it is that one.
pub(crate) fn shut(slot: SlotView, file: u32) -> SlotView
    ensures { result ≡ shut_slot file slot }
{
    match slot.file {
        Some(number) if number == file => SlotView { file: None, ..slot },
        _ => slot,
    }
}
