//! The slots of a view.

ghost use Rattle.std.specs.Prelude.{◌≡◌, [], IfOk};
ghost use Rattle.gm_flat.specs.Slots.{slot_over};
ghost use Rattle.gm_views.specs.Follows.{slot_added, slot_moved, slots_after};
ghost use Rattle.gm_views.specs.Standing.{fits_at, is_new, may_move, may_stand};

use gm_base::{NoMemory, Page, SLOT_IDS};
use gm_flat::{Effect, SlotView};
use gm_slots::KeptSlots;
use std::alloc::Global;
use std::marker::Model;

/// Slots, the one added last first, with room for as many as there are ids. No two have one id or one page.
#[derive(Debug, Drop)]
pub(crate) struct ShownSlots {
    kept: KeptSlots,
}

impl Model for ShownSlots {
    ghost use Rattle.std.specs.Prelude.{List};
    ghost use Rattle.gm_flat.specs.declared.views.SlotView.{SlotView};

    ghost Value = { List SlotView };

    ghost view = { λ s. s.kept };
}

impl ShownSlots {
    /// No slot, with room for all of them.
    pub(crate) fn new(alloc: Global) -> Result<ShownSlots, NoMemory>
        ensures { IfOk result (λ slots. slots ≡ []) }
    {
        let kept = KeptSlots::new(alloc)?;
        Ok(ShownSlots { kept })
    }

    /// The slot over a page.
    pub(crate) fn find(&self, page: Page) -> Option<SlotView>
        ensures { result ≡ slot_over self.now page }
    {
        self.kept.over(page.number())
    }

    /// Follows an effect. It takes no memory. A slot that may not stand, or not move, changes nothing.
    pub(crate) fn follow(&mut self, effect: &Effect)
        ensures { self.new ≡ slots_after effect.now self.old }
    {
        match *effect {
            Effect::Slot {
                slot,
                base,
                pages,
                user,
                flags,
                file,
                index,
            } => self.add(SlotView {
                id: slot,
                base,
                pages,
                user,
                flags,
                file,
                index,
                invalid: false,
            }),
            Effect::Mark { slot } => self.kept.mark_id(slot),
            Effect::NoSlot { slot } => self.kept.drop_id(slot),
            Effect::Move { slot, base } => self.shift(slot, base),
            Effect::Shut { file } => self.kept.shut(file),
            Effect::File { .. } | Effect::Attr { .. } | Effect::Cut { .. } | Effect::Word { .. } =>
                {}
        }
    }

    // Puts a slot in front, where it may stand.
    fn add(&mut self, slot: SlotView)
        ensures { self.new ≡ slot_added slot self.old }
    {
        if self.can_add(&slot) {
            self.kept.put(slot);
        }
    }

    // Moves a slot, where it may.
    fn shift(&mut self, id: u32, base: u64)
        ensures { self.new ≡ slot_moved id base self.old }
    {
        if self.can_move(id, base) {
            self.kept.move_id(id, base);
        }
    }

    // Whether a slot may stand with the others.
    fn can_add(&self, slot: &SlotView) -> bool
        ensures { result ≡ may_stand slot.now self.now }
    {
        if self.has_new_id(slot.id) && pages_fit(slot.base, slot.pages) {
            !self.kept.meets_other(slot.base, slot.pages, slot.id)
        } else {
            false
        }
    }

    // Whether the slot with an id may move to a base.
    fn can_move(&self, id: u32, base: u64) -> bool
        ensures { result ≡ may_move id base self.now }
    {
        match self.kept.by_id(id) {
            None => false,
            Some(slot) => {
                if pages_fit(base, slot.pages) {
                    !self.kept.meets_other(base, slot.pages, id)
                } else {
                    false
                }
            }
        }
    }

    // Whether the id may be, and no slot has it.
    fn has_new_id(&self, id: u32) -> bool
        ensures { result ≡ is_new id self.now }
    {
        id < SLOT_IDS && self.kept.by_id(id).is_none()
    }
}

/// Whether so many pages from a base on are one at least, and none is past the last u64.
fn pages_fit(base: u64, pages: u64) -> bool
    ensures { result ≡ fits_at base pages }
{
    pages > 0 && base.checked_add(pages - 1).is_some()
}
