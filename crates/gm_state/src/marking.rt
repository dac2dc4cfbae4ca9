//! A slot is marked.

ghost use Rattle.std.specs.Prelude.{◌≡◌, ◌+◌, ◌<◌, IsSome};
ghost use Rattle.gm_base.specs.declared.numbers.TheConstants.{COUNTER_LIMIT};
ghost use Rattle.gm_flat.specs.Slots.{slot_by_id};
ghost use Rattle.gm_state.specs.Marked.{with_mark};

use crate::state::State;

impl State {
    /// Marks a slot, since it is to go or to move. It takes no memory.
    pub fn mark(&mut self, slot: u32)
        requires exists { IsSome (slot_by_id self.old.slots.slots slot) }
        requires generation { self.old.slots.generation < COUNTER_LIMIT }
        ensures { self.new ≡ with_mark slot self.old }
    {
        self.slots.mark(slot);
    }
}
