//! Changes of slots.

ghost use Rattle.std.specs.Prelude.{◌≡◌, ◌%◌, ◌<◌, ◌++◌, ◌∷◌, [], IsSome};
ghost use Rattle.gm_flat.specs.Calls.{meets_bound, page_of, slot_plan};
ghost use Rattle.gm_flat.specs.FlatState.{Flat};
ghost use Rattle.gm_flat.specs.Slots.{slot_by_id, slot_span};
ghost use Rattle.gm_flat.specs.declared.views.SlotView.{SlotView};
ghost use Rattle.gm_flat.specs.declared.effect.Effect.TheVariants.{Slot};
ghost use Rattle.gm_ioctl.specs.InRange.{RegionInRange};
ghost use Rattle.gm_slots.specs.Changes.{change_of};
ghost use Rattle.gm_calls.specs.Judgements.{Tells};
ghost use Rattle.gm_calls.specs.Lent.{AllKnown, FileStands, LentStand};
ghost use Rattle.gm_calls.specs.Rows.{binding_rows};

use crate::flags::is_file_backed;
use crate::judged::Judged;
use crate::parts::Parts;
use crate::spanned::{put, whole};
use gm_base::{Errno, PAGE_BYTES, Region};
use gm_file::File;
use gm_flat::{Effect, Spans};
use gm_slots::{Change, Slots};

/// A slot is made, goes, moves or stays: first the rows on slots, then those on the file of a new slot.
pub(crate) fn judge_region(parts: &Parts<'_>, region: &Region, spans: &mut Spans) -> Judged
    requires state { (f : Flat) × LentStand parts.now f }
    requires range { RegionInRange parts.now.setup.user region.now }
    requires room { 0 < spans.old.spare }
    requires empty { spans.old.list ≡ [] }
    ensures { (f : Flat) → LentStand parts.now f → Tells parts.now.user.now (slot_plan region.now f (slot_by_id f.slots region.now.slot)) result spans.new.list }
{
    match parts.slots.judge(region) {
        Err(errno) => Judged::Refused(errno),
        Ok(change) => judge_change(parts, region, change, spans),
    }
}

/// What a call comes to by what it does to the slots.
fn judge_change(parts: &Parts<'_>, region: &Region, change: Change, spans: &mut Spans) -> Judged
    requires state { (f : Flat) × LentStand parts.now f }
    requires range { RegionInRange parts.now.setup.user region.now }
    requires judged { change_of region.now parts.now.slots.now.slots ≡ Ok change }
    requires room { 0 < spans.old.spare }
    requires empty { spans.old.list ≡ [] }
    ensures { (f : Flat) → LentStand parts.now f → Tells parts.now.user.now (slot_plan region.now f (slot_by_id f.slots region.now.slot)) result spans.new.list }
{
    match change {
        Change::Nothing => Judged::Same(0),
        Change::Make => judge_binding(parts, region),
        Change::Delete => {
            put_whole(parts.slots, region.slot, spans);
            Judged::Bracket(Effect::NoSlot { slot: region.slot })
        }
        Change::Move => {
            put_whole(parts.slots, region.slot, spans);
            Judged::Bracket(Effect::Move {
                slot: region.slot,
                base: region.gpa / PAGE_BYTES,
            })
        }
    }
}

/// Appends the guest pages of a slot that exists.
fn put_whole(slots: &Slots, id: u32, spans: &mut Spans)
    requires known { AllKnown slots.now.slots slots.now.slots }
    requires exists { IsSome (slot_by_id slots.now.slots id) }
    requires room { 0 < spans.old.spare }
    ensures { (s : SlotView) → slot_by_id slots.now.slots id ≡ Some s → spans.new.list ≡ spans.old.list ++ slot_span s ∷ [] }
{
    match slots.by_id(id) {
        Some(slot) => put(spans, whole(&slot)),
        None => unreachable!(),
    }
}

/// The rows on the file of a new slot.
pub(crate) fn judge_binding(parts: &Parts<'_>, region: &Region) -> Judged
    requires range { RegionInRange parts.now.setup.user region.now }
    requires some { 0 < region.now.size }
    ensures { (f : Flat) → LentStand parts.now f → Tells parts.now.user.now (binding_rows region.now f) result [] }
{
    if !is_file_backed(region.flags) {
        return Judged::Short(made_slot(region, None, 0), 0);
    }
    match parts.file(region.fd) {
        None => Judged::Refused(Errno::BadF),
        Some(file) => {
            let end = (region.offset + region.size) / PAGE_BYTES;
            let pages = file.pages();
            if pages < end {
                Judged::Refused(Errno::Inval)
            } else if is_bound(file, region) {
                Judged::Refused(Errno::Inval)
            } else {
                let index = region.offset / PAGE_BYTES;
                Judged::Short(made_slot(region, Some(region.fd), index), 0)
            }
        }
    }
}

/// Whether one of the pages that the region takes of its file is bound.
fn is_bound(file: &File, region: &Region) -> bool
    requires paged_offset { region.now.offset % PAGE_BYTES ≡ 0 }
    requires paged_size { region.now.size % PAGE_BYTES ≡ 0 }
    requires some { 0 < region.now.size }
    ensures { (f : Flat) → FileStands file.now region.now.fd f → result ≡ meets_bound region.now.fd (page_of region.now.offset) (page_of region.now.size) f.slots }
{
    let lo = region.offset / PAGE_BYTES;
    let hi = lo + region.size / PAGE_BYTES;
    file.bound_in(lo, hi, 0).is_some()
}

/// The slot that the region makes.
fn made_slot(region: &Region, file: Option<u32>, index: u64) -> Effect
    ensures { result ≡ Slot region.now.slot (page_of region.now.gpa) (page_of region.now.size) (page_of region.now.user) region.now.flags file index }
{
    Effect::Slot {
        slot: region.slot,
        base: region.gpa / PAGE_BYTES,
        pages: region.size / PAGE_BYTES,
        user: region.user / PAGE_BYTES,
        flags: region.flags,
        file,
        index,
    }
}
