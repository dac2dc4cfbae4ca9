//! How slots are kept: found by their ids and by their pages.

ghost use Rattle.std.specs.Prelude.{◌≡◌, ℕ, ◌+◌, ◌^◌, ◌<◌, ◌≤◌, ◌∷◌, [], None, Some, IfOk, IsSome, false, length, slice_index_or, vec_len, vec_capacity};
ghost use Rattle.gm_base.specs.declared.numbers.TheConstants.{SLOT_IDS};
ghost use Rattle.gm_flat.specs.declared.views.SlotView.{SlotView};
ghost use Rattle.gm_flat.specs.Slots.{slot_by_id, slot_over};
ghost use Rattle.gm_flat.specs.Calls.{meets_slot};
ghost use Rattle.gm_flat.specs.Effects.{dropped, marked, moved, shut_slots};
ghost use Rattle.gm_slots.specs.Good.{Good};
ghost use Rattle.gm_slots.specs.Kept.{IsShut};
ghost use Rattle.gm_slots.specs.declared.order.Begin.{Begin};

use crate::ages::{place_of, put_last};
use crate::order::{Begin, count_begun, last_other, put_begin, take_begin};
use crate::pages::{at_base, is_over, ranges_meet, shut, with_mark};
use gm_base::{NoMemory, SLOT_IDS};
use gm_flat::SlotView;
use std::alloc::Global;
use std::marker::Model;

/// Slots, the one added last first. No two have one id or one page.
#[derive(Debug, Drop)]
pub struct KeptSlots {
    // At the place of each id the slot that has it.
    table: Vec<Option<SlotView>>,
    // The ids of the slots, the one added last last.
    ages: Vec<u32>,
    // Where they begin, by rising base.
    order: Vec<Begin>,
}

impl Model for KeptSlots {
    ghost use Rattle.std.specs.Prelude.{◌≤◌, List, reverse, vec_capacity};
    ghost use Rattle.gm_base.specs.declared.numbers.TheConstants.{SLOT_IDS};
    ghost use Rattle.gm_flat.specs.declared.views.SlotView.{SlotView};
    ghost use Rattle.gm_slots.specs.Kept.{IsKept, listed};

    ghost Value = { List SlotView };

    ghost view = { λ k. listed k.table.items (reverse k.ages.items) };

    ghost invariant = { λ k. IsKept (listed k.table.items (reverse k.ages.items)) k.table.items k.ages.items k.order.items × (SLOT_IDS ≤ vec_capacity k.ages) × (SLOT_IDS ≤ vec_capacity k.order) };
}

impl KeptSlots {
    /// No slot, with room for all of them.
    pub fn new(alloc: Global) -> Result<KeptSlots, NoMemory>
        ensures { IfOk result (λ slots. slots ≡ []) }
    {
        let table = vec![in alloc; None; SLOT_IDS as usize]?;
        let ages = Vec::with_capacity(alloc, SLOT_IDS as usize)?;
        let order = Vec::with_capacity(alloc, SLOT_IDS as usize)?;
        Ok(KeptSlots { table, ages, order })
    }

    /// The slot with an id, from its place.
    pub fn by_id(&self, id: u32) -> Option<SlotView>
        ensures { result ≡ slot_by_id self.now id }
    {
        if id < SLOT_IDS {
            self.table[id as usize]
        } else {
            None
        }
    }

    /// The slot over a page, by a search for the last that begins at the page or before it.
    pub fn over(&self, page: u64) -> Option<SlotView>
        ensures { result ≡ slot_over self.now page }
    {
        let count = count_begun(&self.order, page);
        if count == 0 {
            return None;
        }
        let slot = self.by_id(self.order[count - 1].id)?;
        is_over(&slot, page).then_some(slot)
    }

    /// Whether so many pages from a base on meet a slot with another id. Of those that begin before the end the last one
    /// decides.
    pub fn meets_other(&self, base: u64, pages: u64, id: u32) -> bool
        requires some { 0 < pages }
        requires limit { base + pages ≤ 2 ^ 64 }
        ensures { result ≡ meets_slot base pages (dropped id self.now) }
    {
        let count = count_begun(&self.order, base + (pages - 1));
        match last_other(&self.order, count, id) {
            None => false,
            Some(begin) => match self.by_id(begin.id) {
                None => false,
                Some(slot) => ranges_meet(base, pages, slot.base, slot.pages),
            },
        }
    }

    /// Puts a slot with a new id before the others, whose pages no other has. It takes no memory.
    pub fn put(&mut self, slot: SlotView)
        requires absent { slot_by_id self.old slot.id ≡ None }
        requires id { slot.id < SLOT_IDS }
        requires pages { 0 < slot.pages }
        requires apart { meets_slot slot.base slot.pages self.old ≡ false }
        ensures { self.new ≡ slot ∷ self.old }
    {
        let begin = Begin {
            base: slot.base,
            id: slot.id,
        };
        put_last(&mut self.ages, slot.id);
        put_begin(&mut self.order, begin);
        self.table[slot.id as usize] = Some(slot);
    }

    /// Takes the slot with an id away, if there is one.
    pub fn drop_id(&mut self, id: u32)
        ensures { self.new ≡ dropped id self.old }
    {
        if let Some(slot) = self.by_id(id) {
            let place = place_of(&self.ages, id);
            self.ages.remove(place);
            let begin = Begin {
                base: slot.base,
                id,
            };
            take_begin(&mut self.order, begin);
            self.table[id as usize] = None;
        }
    }

    /// Marks the slot with an id, if there is one.
    pub fn mark_id(&mut self, id: u32)
        ensures { self.new ≡ marked id self.old }
    {
        if let Some(slot) = self.by_id(id) {
            self.table[id as usize] = Some(with_mark(slot));
        }
    }

    /// Moves the slot with an id to a base where its pages meet no other slot. It isn't marked there.
    pub fn move_id(&mut self, id: u32, base: u64)
        requires { (slot : SlotView) × (slot_by_id self.old id ≡ Some slot) × (meets_slot base slot.pages (dropped id self.old) ≡ false) }
        ensures { self.new ≡ moved id base self.old }
    {
        if let Some(slot) = self.by_id(id) {
            let begin = Begin {
                base: slot.base,
                id,
            };
            take_begin(&mut self.order, begin);
            put_begin(&mut self.order, Begin { base, id });
            self.table[id as usize] = Some(at_base(slot, base));
        }
    }

    /// Leaves the slots of a file without one.
    pub fn shut(&mut self, file: u32)
        ensures { self.new ≡ shut_slots file self.old }
    {
        shut_each(&mut self.table, &self.order, file);
    }
}

/// Leaves the slots of a file, of those that begin somewhere, without one.
fn shut_each(table: &mut Vec<Option<SlotView>>, order: &[Begin], file: u32)
    requires { (at : ℕ) (d : Begin) → at < length order.now → (slice_index_or order.now at d).id < vec_len table.old }
    ensures { IsShut file order.now table.old.items table.new.items }
{
    for begin in order {
        let place = begin.id as usize;
        if let Some(slot) = table[place] {
            table[place] = Some(shut(slot, file));
        }
    }
}
