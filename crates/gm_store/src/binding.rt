//! Ranges of files that are bound for slots.

ghost use Rattle.std.specs.Prelude.{◌≡◌, ℕ, ◌<◌, ◌≤◌, [], Some, IsSome, slice_set, vec_capacity, vec_len};
ghost use Rattle.gm_base.specs.declared.numbers.TheConstants.{PAGE_LIMIT};
ghost use Rattle.gm_file.specs.Ranges.{met};
ghost use Rattle.gm_flat.specs.Slots.{slot_by_id};
ghost use Rattle.gm_flat.specs.declared.effect.Effect.TheVariants.{NoSlot};
ghost use Rattle.gm_flat.specs.declared.views.SlotView.{SlotView};
ghost use Rattle.gm_store.specs.Bindings.{HasIdAlone, IsSlotAt, makes, with_bound, without_bound};
ghost use Rattle.gm_store.specs.Stored.{StoreStands, Stored, applied};
ghost use Rattle.gm_store.specs.Views.{bind_room, bound_in, file_in};

use crate::store::Store;
use gm_file::File;

// Binds a range of a file that is in use.
fn put_bound(files: &mut Vec<Option<File>>, file: u32, lo: u64, hi: u64, slot: u32)
    requires used { IsSome (file_in files.old.items file) }
    requires order { lo < hi }
    requires limit { hi ≤ PAGE_LIMIT }
    requires room { 1 ≤ bind_room (file_in files.old.items file) }
    requires free { met lo hi (bound_in (file_in files.old.items file)) ≡ [] }
    ensures items { files.new.items ≡ slice_set files.old.items file (with_bound (file_in files.old.items file) lo hi slot) }
    ensures len { vec_len files.new ≡ vec_len files.old }
    ensures capacity { vec_capacity files.new ≡ vec_capacity files.old }
{
    match &mut files[file as usize] {
        Some(x) => match x.bind(lo, hi, slot) {
            Ok(()) => {}
            Err(_) => unreachable!(),
        },
        None => unreachable!(),
    }
}

// Unbinds what is bound of a file for a slot. Nothing is where no file in use has the number.
fn drop_bound(files: &mut Vec<Option<File>>, file: u32, slot: u32)
    ensures items { files.new.items ≡ slice_set files.old.items file (without_bound (file_in files.old.items file) slot) }
    ensures len { vec_len files.new ≡ vec_len files.old }
    ensures capacity { vec_capacity files.new ≡ vec_capacity files.old }
{
    if file as usize >= files.len() {
        return;
    }
    match &mut files[file as usize] {
        Some(x) => x.unbind(slot),
        None => {}
    }
}

impl Store {
    /// Binds the indexes from `lo` on and below `hi` of a file in use for a slot, where none of them is bound. It takes no
    /// memory but what is kept. The slot is then made in the flat state.
    pub fn bind(&mut self, file: u32, lo: u64, hi: u64, slot: u32)
        requires used { IsSome (file_in self.old.files file) }
        requires order { lo < hi }
        requires limit { hi ≤ PAGE_LIMIT }
        requires room { 1 ≤ bind_room (file_in self.old.files file) }
        requires free { met lo hi (bound_in (file_in self.old.files file)) ≡ [] }
        ensures view { self.new ≡ record self.old { files = slice_set self.old.files file (with_bound (file_in self.old.files file) lo hi slot) } }
        ensures stands { (frames : ℕ) (k : Stored) (s : SlotView) → StoreStands frames self.old k → IsSlotAt file lo hi slot s → StoreStands frames self.new (applied (makes s) k) }
    {
        put_bound(&mut self.files, file, lo, hi, slot);
    }

    /// Ends the binding of a slot's range of a file. It takes no memory. The slot is then dropped from the flat state.
    pub fn unbind(&mut self, file: u32, slot: u32)
        ensures view { self.new ≡ record self.old { files = slice_set self.old.files file (without_bound (file_in self.old.files file) slot) } }
        ensures stands { (frames : ℕ) (k : Stored) (s : SlotView) → StoreStands frames self.old k → slot_by_id k.flat.slots slot ≡ Some s → s.file ≡ Some file → HasIdAlone slot k.flat.slots → StoreStands frames self.new (applied (NoSlot slot) k) }
    {
        drop_bound(&mut self.files, file, slot);
    }
}
