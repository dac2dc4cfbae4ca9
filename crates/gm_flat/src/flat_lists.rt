//! Plain lists, the item added last first.

ghost use Rattle.std.specs.Prelude.{◌≡◌, ℕ, ◌<◌, ◌≤◌, IfSome, IfNone, Some, true, false, length, slice_set, slice_index_or};
ghost use Rattle.std.specs.List.{remove};
ghost use Rattle.gm_flat.specs.declared.views.SlotView.{SlotView};
ghost use Rattle.gm_flat.specs.Attribute.{attr_of};
ghost use Rattle.gm_flat.specs.Replay.{index_in};
ghost use Rattle.gm_flat.specs.Slots.{slot_by_id, slot_over, index_of};
ghost use Rattle.gm_flat.specs.FlatState.{FileState as File, cached, was_made};
ghost use Rattle.gm_flat.specs.NamedPage.{unmarked};
ghost use Rattle.gm_flat.specs.Replayed.{within};
ghost use Rattle.gm_flat.specs.Effects.{dropped, marked, moved, shut_slot, shut_slots, shut_files, slot_fits, without, without_file};

use crate::flat_items::{AttrCall, CachedPage, FileState};
use crate::views::SlotView;
use gm_base::{Folio, Kind};

/// The attribute of a page: that of the last call whose span holds it, and shared where none does.
pub(crate) fn attr_at(calls: &[AttrCall], page: u64) -> Kind
    ensures { result ≡ attr_of page calls.now }
{
    for call in calls {
        if call.holds(page) {
            return call.kind();
        }
    }
    Kind::Shared
}

/// The folio cached at an index of a file.
pub(crate) fn cached_at(cache: &[CachedPage], file: u32, index: u64) -> Option<Folio>
    ensures { result ≡ cached file index cache.now }
{
    for page in cache {
        if page.is_at(file, index) {
            return Some(page.folio());
        }
    }
    None
}

/// Whether a file of this number was made.
pub(crate) fn has_file(files: &[FileState], number: u32) -> bool
    ensures { result ≡ was_made number files.now }
{
    for file in files {
        if file.is(number) {
            return true;
        }
    }
    false
}

/// The place of the file of this number; of several that of the last one made.
pub(crate) fn place_of_file(files: &[FileState], number: u32) -> Option<usize>
    ensures bound { IfSome result (λ at. at < length files.now) }
    ensures made { IfSome result (λ _. was_made number files.now ≡ true) }
    ensures shuts { IfSome result (λ at. (file : File) → file ≡ slice_index_or files.now at file → slice_set files.now at (record file { used = false }) ≡ shut_files number files.now) }
    ensures none { IfNone result (was_made number files.now ≡ false) }
{
    for (at, file) in files.iter().enumerate() {
        if file.is(number) {
            return Some(at);
        }
    }
    None
}

/// The slot over a page.
pub(crate) fn find_over(slots: &[SlotView], page: u64) -> Option<SlotView>
    ensures found { result ≡ slot_over slots.now page }
    ensures low { IfSome result (λ slot. slot.base ≤ page) }
{
    for slot in slots {
        if page >= slot.base && page - slot.base < slot.pages {
            return Some(*slot);
        }
    }
    None
}

/// The slot over a page, where it isn't marked.
pub(crate) fn find_unmarked(slots: &[SlotView], page: u64) -> Option<SlotView>
    ensures found { result ≡ unmarked (slot_over slots.now page) }
    ensures low { IfSome result (λ slot. slot.base ≤ page) }
{
    let slot = find_over(slots, page)?;
    if slot.invalid { None } else { Some(slot) }
}

/// The slot with an id.
pub(crate) fn find_id(slots: &[SlotView], id: u32) -> Option<SlotView>
    ensures { result ≡ slot_by_id slots.now id }
{
    for slot in slots {
        if slot.id == id {
            return Some(*slot);
        }
    }
    None
}

/// The place of the slot with an id.
fn place_of(slots: &[SlotView], id: u32) -> Option<usize>
    ensures bound { IfSome result (λ at. at < length slots.now) }
    ensures drops { IfSome result (λ at. remove slots.now at ≡ dropped id slots.now) }
    ensures moves { IfSome result (λ at. (base : ℕ) (slot : SlotView) → slot ≡ slice_index_or slots.now at slot → slice_set slots.now at (record slot { base = base; invalid = false }) ≡ moved id base slots.now) }
    ensures marks { IfSome result (λ at. (slot : SlotView) → slot ≡ slice_index_or slots.now at slot → slice_set slots.now at (record slot { invalid = true }) ≡ marked id slots.now) }
    ensures drops_none { IfNone result (dropped id slots.now ≡ slots.now) }
    ensures moves_none { IfNone result ((base : ℕ) → moved id base slots.now ≡ slots.now) }
    ensures marks_none { IfNone result (marked id slots.now ≡ slots.now) }
{
    for (at, slot) in slots.iter().enumerate() {
        if slot.id == id {
            return Some(at);
        }
    }
    None
}

/// Takes the slot with an id away, where there is one.
pub(crate) fn drop_id(slots: &mut Vec<SlotView>, id: u32)
    ensures { slots.new.items ≡ dropped id slots.old.items }
{
    if let Some(at) = place_of(slots, id) {
        slots.remove(at);
    }
}

/// Marks the slot with an id, where there is one.
pub(crate) fn mark_id(slots: &mut Vec<SlotView>, id: u32)
    ensures { slots.new.items ≡ marked id slots.old.items }
{
    if let Some(at) = place_of(slots, id) {
        slots[at].invalid = true;
    }
}

/// Moves the slot with an id to another base, where there is one. It is marked no more.
pub(crate) fn move_id(slots: &mut Vec<SlotView>, id: u32, base: u64)
    ensures { slots.new.items ≡ moved id base slots.old.items }
{
    if let Some(at) = place_of(slots, id) {
        slots[at] = SlotView {
            base,
            invalid: false,
            ..slots[at]
        };
    }
}

/// Leaves each slot of a file without one.
pub(crate) fn leave_file(slots: &mut Vec<SlotView>, file: u32)
    ensures { slots.new.items ≡ shut_slots file slots.old.items }
{
    for slot in slots.iter_mut() {
        *slot = without_its_file(*slot, file);
    }
}

/// The slot, without its file if it is that one.
fn without_its_file(slot: SlotView, file: u32) -> SlotView
    ensures { result ≡ shut_slot file slot }
{
    match slot.file {
        Some(number) if number == file => SlotView { file: None, ..slot },
        _ => slot,
    }
}

/// Takes the cached pages of a file from index `lo` on and below `hi` away.
pub(crate) fn cut(cache: &mut Vec<CachedPage>, file: u32, lo: u64, hi: u64)
    ensures { cache.new.items ≡ without file lo hi cache.old.items }
{
    cache.retain(|page| !page.is_within(file, lo, hi));
}

/// Takes the cached pages of a file away.
pub(crate) fn cut_file(cache: &mut Vec<CachedPage>, file: u32)
    ensures { cache.new.items ≡ without_file file cache.old.items }
{
    cache.retain(|page| !page.is_of(file));
}

/// Whether the user page and the index of each page of the slot are within their types.
pub(crate) fn fits(slot: &SlotView) -> bool
    ensures { result ≡ slot_fits slot.now }
{
    let steps = slot.pages.saturating_sub(1);
    steps <= u64::MAX - slot.user && steps <= u64::MAX - slot.index
}

/// The index of the slot's file that one of the slot's pages stands for. None exactly where it is above the range of its type.
pub(crate) fn index_over(slot: &SlotView, page: u64) -> Option<u64>
    requires { slot.now.base ≤ page }
    ensures { result ≡ within (Some (index_of slot.now page)) }
{
    slot.index.checked_add(page - slot.base)
}

/// The index of the slot's file that a guest page stands for. None exactly where it is below 0 or above the range of its type.
pub(crate) fn index_at(slot: &SlotView, page: u64) -> Option<u64>
    ensures { result ≡ within (index_in page (Some slot.now)) }
{
    if slot.base <= page {
        index_over(slot, page)
    } else {
        slot.index.checked_sub(slot.base - page)
    }
}
