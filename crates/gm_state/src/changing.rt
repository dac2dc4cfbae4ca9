//! Changes of the state by calls.

ghost use Rattle.std.specs.Prelude.{◌≡◌, ◌+◌, ◌<◌, ◌≤◌, []};
ghost use Rattle.gm_base.specs.declared.calls.Ioctl.TheVariants.{Region2};
ghost use Rattle.gm_base.specs.declared.numbers.TheConstants.{COUNTER_LIMIT};
ghost use Rattle.gm_base.specs.declared.values.Setup.{Setup};
ghost use Rattle.gm_flat.specs.Calls.{new_slot, page_of, wants_file};
ghost use Rattle.gm_flat.specs.RightLook.{file_of};
ghost use Rattle.gm_flat.specs.declared.effect.Effect.TheVariants.{Attr, Cut, Move as MoveSlot, NoSlot, Shut, Word};
ghost use Rattle.gm_state.specs.Applying.{CanApply, HasBlockRoom, HasRoomFor};
ghost use Rattle.gm_state.specs.Stand.{Applied, Memory};

use crate::flags::is_file_backed;
use crate::state::State;
use crate::tracking::{pages_of, track, untrack};
use gm_base::{Ioctl, PAGE_BYTES, Region};
use gm_flat::{Effect, SlotView};
use gm_slots::Change;

impl State {
    /// Makes the effect of a call. What is to be freed by it is in the list of freed folios afterwards. It takes no memory.
    pub fn apply(&mut self, ioctl: &Ioctl, effect: &Effect)
        requires can { (s : Setup) × (m : Memory) × CanApply s self.old m ioctl.now effect.now }
        requires generation { self.old.slots.generation < COUNTER_LIMIT }
        requires room { HasRoomFor self.old effect.now }
        ensures applied { (s : Setup) (m : Memory) → CanApply s self.old m ioctl.now effect.now → Applied s m effect.now self.new }
        ensures generation { self.new.slots.generation ≤ self.old.slots.generation + 1 }
    {
        self.freed.clear();
        match *effect {
            Effect::File { pages, block, .. } => self.store.create(pages, block),
            Effect::Attr { span, kind } => self.attrs.set(span, kind),
            Effect::Cut { file, lo, hi } => self.store.cut(file, lo, hi, &mut self.freed),
            Effect::Shut { file } => {
                self.slots.shut(file);
                self.store.shut(file, &mut self.freed);
            }
            Effect::Word { page, word, value } => self.user.write(page as u32, word, value),
            _ => match ioctl {
                Ioctl::Region2(region) => self.set_region(region, effect),
                _ => unreachable!(),
            },
        }
    }

    // Makes, deletes or moves the slot of a region.
    fn set_region(&mut self, region: &Region, effect: &Effect)
        requires can { (s : Setup) × (m : Memory) × CanApply s self.old m (Region2 region.now) effect.now }
        requires generation { self.old.slots.generation < COUNTER_LIMIT }
        requires room { HasRoomFor self.old effect.now }
        requires cleared { self.old.freed.list ≡ [] }
        ensures applied { (s : Setup) (m : Memory) → CanApply s self.old m (Region2 region.now) effect.now → Applied s m effect.now self.new }
        ensures generation { self.new.slots.generation ≤ self.old.slots.generation + 1 }
    {
        match effect {
            Effect::Slot { .. } => self.make_slot(region),
            Effect::NoSlot { .. } => self.drop_slot(region),
            Effect::Move { .. } => self.move_slot(region),
            _ => unreachable!(),
        }
    }

    // Makes the slot of a region, tracks its blocks, and binds its file.
    fn make_slot(&mut self, region: &Region)
        requires can { (s : Setup) × (m : Memory) × CanApply s self.old m (Region2 region.now) (new_slot region.now (wants_file region.now)) }
        requires generation { self.old.slots.generation < COUNTER_LIMIT }
        requires room { HasRoomFor self.old (new_slot region.now (wants_file region.now)) }
        requires cleared { self.old.freed.list ≡ [] }
        ensures applied { (s : Setup) (m : Memory) → CanApply s self.old m (Region2 region.now) (new_slot region.now (wants_file region.now)) → Applied s m (new_slot region.now (wants_file region.now)) self.new }
        ensures generation { self.new.slots.generation ≤ self.old.slots.generation + 1 }
    {
        let made = pages_of(region);
        self.slots.apply(region, Change::Make);
        track(self.huge, &mut self.attrs, made);
        if is_file_backed(region.flags) {
            let lo = region.offset / PAGE_BYTES;
            self.store
                .bind(region.fd, lo, lo + region.size / PAGE_BYTES, region.slot);
        }
    }

    // Deletes the slot of a region, tracks its blocks no more, and ends its binding.
    fn drop_slot(&mut self, region: &Region)
        requires can { (s : Setup) × (m : Memory) × CanApply s self.old m (Region2 region.now) (NoSlot region.now.slot) }
        requires generation { self.old.slots.generation < COUNTER_LIMIT }
        requires cleared { self.old.freed.list ≡ [] }
        ensures applied { (s : Setup) (m : Memory) → CanApply s self.old m (Region2 region.now) (NoSlot region.now.slot) → Applied s m (NoSlot region.now.slot) self.new }
        ensures generation { self.new.slots.generation ≤ self.old.slots.generation + 1 }
    {
        let slot = self.slots.by_id(region.slot);
        let file = file_of(slot);
        self.slots.apply(region, Change::Delete);
        untrack(self.huge, &mut self.attrs, slot);
        if let Some(file) = file {
            self.store.unbind(file, region.slot);
        }
    }

    // Moves the slot of a region. Its blocks are other ones from then on, with flags made anew.
    fn move_slot(&mut self, region: &Region)
        requires can { (s : Setup) × (m : Memory) × CanApply s self.old m (Region2 region.now) (MoveSlot region.now.slot (page_of region.now.gpa)) }
        requires generation { self.old.slots.generation < COUNTER_LIMIT }
        requires room { HasBlockRoom self.old }
        requires cleared { self.old.freed.list ≡ [] }
        ensures applied { (s : Setup) (m : Memory) → CanApply s self.old m (Region2 region.now) (MoveSlot region.now.slot (page_of region.now.gpa)) → Applied s m (MoveSlot region.now.slot (page_of region.now.gpa)) self.new }
        ensures generation { self.new.slots.generation ≤ self.old.slots.generation + 1 }
    {
        let before = self.slots.by_id(region.slot);
        let moved = pages_of(region);
        self.slots.apply(region, Change::Move);
        untrack(self.huge, &mut self.attrs, before);
        track(self.huge, &mut self.attrs, moved);
    }
}

fn file_of(slot: Option<SlotView>) -> Option<u32>
    ensures { result ≡ file_of slot }
{
    match slot {
        Some(slot) => slot.file,
        None => None,
    }
}
