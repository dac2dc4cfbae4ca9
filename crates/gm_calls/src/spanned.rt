//! The spans of a bracket.

ghost use Rattle.std.specs.Prelude.{◌≡◌, ◌+◌, ◌-◌, ◌<◌, ◌≤◌, ◌++◌, ◌∷◌, [], length};
ghost use Rattle.gm_base.specs.declared.numbers.TheConstants.{PAGE_LIMIT, SLOT_IDS};
ghost use Rattle.gm_flat.specs.Calls.{part_span, part_spans, slots_of_file};
ghost use Rattle.gm_flat.specs.Slots.{slot_span};
ghost use Rattle.gm_calls.specs.Lent.{AllKnown, ranges_of};

use gm_base::Span;
use gm_file::File;
use gm_flat::{SlotView, Spans};
use gm_slots::Slots;

/// Appends a span, for which there is room.
pub(crate) fn put(spans: &mut Spans, span: Span)
    requires { 0 < spans.old.spare }
    ensures list { spans.new.list ≡ spans.old.list ++ span ∷ [] }
    ensures spare { spans.new.spare + 1 ≡ spans.old.spare }
{
    match spans.push(span) {
        Ok(()) => {}
        Err(_) => unreachable!(),
    }
}

/// Appends the guest pages of the slots of a file at the indexes from `lo` on and below `hi`, in order of index.
pub(crate) fn put_parts(slots: &Slots, fd: u32, file: &File, lo: u64, hi: u64, spans: &mut Spans)
    requires known { AllKnown slots.now.slots slots.now.slots }
    requires bound { file.now.bound ≡ ranges_of (slots_of_file fd slots.now.slots) }
    requires order { lo < hi }
    requires count { length slots.now.slots ≤ SLOT_IDS }
    requires room { SLOT_IDS ≤ spans.old.spare }
    ensures { spans.new.list ≡ spans.old.list ++ part_spans lo hi (slots_of_file fd slots.now.slots) }
{
    let _file = fd;
    for range in file.bound_within(lo, hi) {
        match slots.by_id(range.slot) {
            Some(slot) => put(spans, part_of(&slot, lo, hi)),
            None => unreachable!(),
        }
    }
}

/// The guest pages of the slot at the indexes from `lo` on and below `hi`.
fn part_of(slot: &SlotView, lo: u64, hi: u64) -> Span
    requires order { lo < hi }
    requires some { 0 < slot.now.pages }
    requires limit { slot.now.base + slot.now.pages ≤ PAGE_LIMIT }
    requires indexes { slot.now.index + slot.now.pages ≤ PAGE_LIMIT }
    requires above { lo < slot.now.index + slot.now.pages }
    requires below { slot.now.index < hi }
    ensures { result ≡ part_span lo hi slot.now }
{
    let first = slot.base + (lo.max(slot.index) - slot.index);
    let end = slot.base + (hi.min(slot.index + slot.pages) - slot.index);
    match Span::new(first, end) {
        Some(span) => span,
        None => unreachable!(),
    }
}

/// The guest pages of the slot.
pub(crate) fn whole(slot: &SlotView) -> Span
    requires some { 0 < slot.now.pages }
    requires limit { slot.now.base + slot.now.pages ≤ PAGE_LIMIT }
    ensures { result ≡ slot_span slot.now }
{
    match Span::new(slot.base, slot.base + slot.pages) {
        Some(span) => span,
        None => unreachable!(),
    }
}
