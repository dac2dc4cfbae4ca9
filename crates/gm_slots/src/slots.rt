//! The slots.

ghost use Rattle.std.specs.Prelude.{◌≡◌, ◌+◌, ◌<◌, [], Ok, None, IfOk, IsSome};
ghost use Rattle.gm_base.specs.declared.numbers.TheConstants.{PAGE_LIMIT};
ghost use Rattle.gm_flat.specs.Slots.{slot_by_id, slot_over};
ghost use Rattle.gm_flat.specs.RightLook.{is_marked};
ghost use Rattle.gm_flat.specs.FlatState.{has_flag};
ghost use Rattle.gm_flat.specs.Calls.{page_of, differs, meets_slot, same_truth};
ghost use Rattle.gm_flat.specs.Effects.{dropped, marked, shut_slots};
ghost use Rattle.gm_slots.specs.Changes.{SlotList, Passed, change_of, new_change, old_change, made_slot, slots_after, rise_by};

use crate::change::Change;
use crate::kept::KeptSlots;
use gm_base::{
    COUNTER_LIMIT, Errno, KVM_MEM_GUEST_MEMFD, KVM_MEM_READONLY, NoMemory, PAGE_BYTES, Page, Region,
};
use gm_flat::SlotView;
use std::alloc::Global;
use std::marker::Model;

/// The slots, and how often they changed. No two have one id or one page.
#[derive(Debug, Drop)]
pub struct Slots {
    kept: KeptSlots,
    changes: u64,
}

impl Model for Slots {
    ghost use Rattle.gm_slots.specs.Changes.{SlotList};

    ghost Value = { SlotList };

    ghost view = { λ s. record { slots = s.kept; generation = s.changes } };
}

impl Slots {
    /// No slot, with room for all of them, and generation 0.
    pub fn new(alloc: Global) -> Result<Slots, NoMemory>
        ensures { IfOk result (λ slots. slots ≡ record { slots = []; generation = 0 }) }
    {
        let kept = KeptSlots::new(alloc)?;
        Ok(Slots { kept, changes: 0 })
    }

    /// What a call that passes the rows that look at no state does to the slots, or its refusal: Inval for a slot that
    /// doesn't exist or can't be changed so, Exist for pages that another slot has.
    pub fn judge(&self, region: &Region) -> Result<Change, Errno>
        requires { Passed region.now }
        ensures { result ≡ change_of region.now self.now.slots }
    {
        match self.kept.by_id(region.slot) {
            None => self.judge_new(region),
            Some(slot) => self.judge_old(region, &slot),
        }
    }

    /// The rows for a slot that doesn't exist.
    fn judge_new(&self, region: &Region) -> Result<Change, Errno>
        requires passed { Passed region.now }
        requires absent { slot_by_id self.now.slots region.now.slot ≡ None }
        ensures { result ≡ new_change region.now self.now.slots }
    {
        if region.size == 0 {
            Err(Errno::Inval)
        } else if self.meets_another(region) {
            Err(Errno::Exist)
        } else {
            Ok(Change::Make)
        }
    }

    /// The rows for a slot that exists.
    fn judge_old(&self, region: &Region, slot: &SlotView) -> Result<Change, Errno>
        requires { Passed region.now }
        ensures { result ≡ old_change region.now self.now.slots slot.now }
    {
        if region.size == 0 {
            Ok(Change::Delete)
        } else if is_file_backed(slot.flags) || is_file_backed(region.flags) {
            Err(Errno::Inval)
        } else if differ(region, slot) {
            Err(Errno::Inval)
        } else if slot.base == region.gpa / PAGE_BYTES {
            Ok(Change::Nothing)
        } else if self.meets_another(region) {
            Err(Errno::Exist)
        } else {
            Ok(Change::Move)
        }
    }

    /// Whether the pages of a call meet a slot with another id.
    fn meets_another(&self, region: &Region) -> bool
        requires passed { Passed region.now }
        requires some { 0 < region.now.size }
        ensures { result ≡ meets_slot (page_of region.now.gpa) (page_of region.now.size) (dropped region.now.slot self.now.slots) }
    {
        self.kept
            .meets_other(pages_of(region.gpa), pages_of(region.size), region.slot)
    }

    /// Marks a slot, since it is to go or to move. It takes no memory. The generation rises by one.
    pub fn mark(&mut self, slot: u32)
        requires exists { IsSome (slot_by_id self.old.slots slot) }
        requires generation { self.old.generation < COUNTER_LIMIT }
        ensures slots { self.new.slots ≡ marked slot self.old.slots }
        ensures generation { self.new.generation ≡ self.old.generation + 1 }
    {
        self.kept.mark_id(slot);
        self.changes += 1;
    }

    /// Makes the change that `judge` answers for a call. A slot that moves isn't marked then. It takes no memory. The
    /// generation rises by one, but for `Nothing`.
    pub fn apply(&mut self, region: &Region, change: Change)
        requires passed { Passed region.now }
        requires judged { change_of region.now self.old.slots ≡ Ok change }
        requires generation { self.old.generation < COUNTER_LIMIT }
        ensures slots { self.new.slots ≡ slots_after change region.now self.old.slots }
        ensures generation { self.new.generation ≡ self.old.generation + rise_by change }
    {
        change_kept(&mut self.kept, region, change);
        self.changes += change.rise();
    }

    /// Leaves the slots of a file without one.
    pub fn shut(&mut self, file: u32)
        ensures slots { self.new.slots ≡ shut_slots file self.old.slots }
        ensures generation { self.new.generation ≡ self.old.generation }
    {
        self.kept.shut(file);
    }

    /// The slot over a page, with its mark. None exactly where no slot lies over it.
    pub fn find(&self, page: Page) -> Option<SlotView>
        ensures { result ≡ slot_over self.now.slots page }
    {
        self.kept.over(page.number())
    }

    /// The slot with an id, with its mark. None exactly where it doesn't exist.
    pub fn by_id(&self, id: u32) -> Option<SlotView>
        ensures { result ≡ slot_by_id self.now.slots id }
    {
        self.kept.by_id(id)
    }

    /// How often the slots changed.
    pub fn generation(&self) -> u64
        ensures { result ≡ self.now.generation }
    {
        self.changes
    }
}

/// Makes the change that was judged for a call.
fn change_kept(slots: &mut KeptSlots, region: &Region, change: Change)
    requires passed { Passed region.now }
    requires judged { change_of region.now slots.old ≡ Ok change }
    ensures { slots.new ≡ slots_after change region.now slots.old }
{
    match change {
        Change::Nothing => {}
        Change::Make => slots.put(slot_of(region)),
        Change::Delete => slots.drop_id(region.slot),
        Change::Move => slots.move_id(region.slot, region.gpa / PAGE_BYTES),
    }
}

/// So many bytes in pages.
fn pages_of(bytes: u64) -> u64
    ensures pages { result ≡ page_of bytes }
    ensures limit { result < PAGE_LIMIT }
{
    bytes / PAGE_BYTES
}

/// Whether the flags ask for a guest_memfd.
fn is_file_backed(flags: u32) -> bool
    ensures { result ≡ has_flag KVM_MEM_GUEST_MEMFD flags }
{
    flags & KVM_MEM_GUEST_MEMFD != 0
}

/// Whether the flags say that guests can't write.
fn is_read_only(flags: u32) -> bool
    ensures { result ≡ has_flag KVM_MEM_READONLY flags }
{
    flags & KVM_MEM_READONLY != 0
}

/// Whether both are true, or both false.
fn agree(one: bool, other: bool) -> bool
    ensures { result ≡ same_truth one other }
{
    one == other
}

/// Whether user page, count of pages or READONLY of a call differ from a slot's.
fn differ(region: &Region, slot: &SlotView) -> bool
    ensures { result ≡ differs region.now slot.now }
{
    slot.user != region.user / PAGE_BYTES
        || slot.pages != region.size / PAGE_BYTES
        || !agree(is_read_only(slot.flags), is_read_only(region.flags))
}

/// The slot that a call makes.
fn slot_of(region: &Region) -> SlotView
    ensures { result ≡ made_slot region.now }
{
    let plain = SlotView {
        id: region.slot,
        base: region.gpa / PAGE_BYTES,
        pages: region.size / PAGE_BYTES,
        user: region.user / PAGE_BYTES,
        flags: region.flags,
        file: None,
        index: 0,
        invalid: false,
    };
    if is_file_backed(region.flags) {
        SlotView {
            file: Some(region.fd),
            index: region.offset / PAGE_BYTES,
            ..plain
        }
    } else {
        plain
    }
}
