//! Calls that add pages one after another: allocations and populations.

ghost use Rattle.std.specs.Prelude.{◌≡◌, ◌+◌, ◌%◌, ◌≤◌, [], true};
ghost use Rattle.gm_base.specs.declared.numbers.TheConstants.{PAGE_BYTES, PAGE_LIMIT};
ghost use Rattle.gm_flat.specs.Calls.{file_populate, page_of, slot_populate};
ghost use Rattle.gm_flat.specs.FlatState.{Flat};
ghost use Rattle.gm_flat.specs.Slots.{lies_over, slot_over};
ghost use Rattle.gm_ioctl.specs.InRange.{OffsetsInRange, PopulationInRange};
ghost use Rattle.gm_ioctl.specs.Remaining.{add_range};
ghost use Rattle.gm_calls.specs.Judgements.{Tells};
ghost use Rattle.gm_calls.specs.Lent.{LentStand};

use crate::flags::is_file_backed;
use crate::judged::{Judged, PagePlan};
use crate::parts::Parts;
use gm_base::{Errno, PAGE_BYTES, Page};
use gm_flat::SlotView;

/// An allocation adds pages of a file in use that has them.
pub(crate) fn judge_allocate(parts: &Parts<'_>, fd: u32, offset: u64, length: u64) -> Judged
    requires { OffsetsInRange offset length }
    ensures { (f : Flat) → LentStand parts.now f → Tells parts.now.user.now (add_range fd offset length f) result [] }
{
    match parts.file(fd) {
        None => Judged::Refused(Errno::BadF),
        Some(file) => {
            let end = (offset + length) / PAGE_BYTES;
            let pages = file.pages();
            if pages < end {
                Judged::Refused(Errno::Inval)
            } else {
                Judged::Pages(PagePlan {
                    file: fd,
                    index: offset / PAGE_BYTES,
                    pages: length / PAGE_BYTES,
                    base: None,
                    copy: None,
                })
            }
        }
    }
}

/// A population adds pages of the file of the slot over its address.
pub(crate) fn judge_populate(parts: &Parts<'_>, gpa: u64, pages: u64, user: u64) -> Judged
    requires state { (f : Flat) × LentStand parts.now f }
    requires range { PopulationInRange gpa pages user }
    ensures { (f : Flat) → LentStand parts.now f → Tells parts.now.user.now (slot_populate parts.now.setup (page_of gpa) pages user (slot_over f.slots (page_of gpa))) result [] }
{
    match Page::new(gpa / PAGE_BYTES) {
        None => unreachable!(),
        Some(page) => match parts.slots.find(page) {
            None => Judged::Refused(Errno::Inval),
            Some(slot) => judge_slot(parts, page.number(), pages, user, &slot),
        },
    }
}

/// The rows on the slot over the address: it has the flag, and its file wasn't closed.
fn judge_slot(parts: &Parts<'_>, page: u64, pages: u64, user: u64, slot: &SlotView) -> Judged
    requires paged { user % PAGE_BYTES ≡ 0 }
    requires over { lies_over slot.now page ≡ true }
    requires limit { slot.now.base + slot.now.pages ≤ PAGE_LIMIT }
    requires indexes { slot.now.index + slot.now.pages ≤ PAGE_LIMIT }
    ensures { Tells parts.now.user.now (slot_populate parts.now.setup page pages user (Some slot.now)) result [] }
{
    if !is_file_backed(slot.flags) {
        return Judged::Refused(Errno::Inval);
    }
    match slot.file {
        None => Judged::Refused(Errno::Fault),
        Some(file) => judge_pages(parts, page, pages, user, slot, file),
    }
}

/// The pages from a page of the slot on, as far as the slot reaches, where user memory has as many.
fn judge_pages(
    parts: &Parts<'_>,
    page: u64,
    pages: u64,
    user: u64,
    slot: &SlotView,
    file: u32,
) -> Judged
    requires paged { user % PAGE_BYTES ≡ 0 }
    requires over { lies_over slot.now page ≡ true }
    requires limit { slot.now.base + slot.now.pages ≤ PAGE_LIMIT }
    requires indexes { slot.now.index + slot.now.pages ≤ PAGE_LIMIT }
    ensures { Tells parts.now.user.now (file_populate parts.now.setup page pages user slot.now (Some file)) result [] }
{
    let count = pages.min(slot.base + slot.pages - page);
    let copy = user / PAGE_BYTES;
    let most = u64::from(parts.setup.user);
    if most < copy + count {
        Judged::Refused(Errno::Inval)
    } else {
        Judged::Pages(PagePlan {
            file,
            index: slot.index + page - slot.base,
            pages: count,
            base: Some(page),
            copy: Some(copy),
        })
    }
}
