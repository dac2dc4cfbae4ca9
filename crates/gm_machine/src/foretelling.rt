//! What an actor's next turn would change of what is shown to threads that don't hold the machine.

ghost use Rattle.std.specs.Prelude.{◌≡◌, ◌+◌, ◌-◌, ◌^◌, ◌<◌, true};
ghost use Rattle.gm_base.specs.Scripts.{IsOf};
ghost use Rattle.gm_machine.specs.Flags.{flag_of};
ghost use Rattle.gm_machine.specs.Steps.{IsVcpu, Seen, StepsTo};
ghost use Rattle.gm_turns.specs.Ahead.{ahead_in};
ghost use Rattle.gm_turns.specs.declared.outcome.Outcome.{Outcome};

use crate::machine::Machine;
use gm_base::Actor;
use gm_turns::{Ahead, How, ahead};

impl Machine {
    /// What the turn that `step` would take now would change of what is shown: the slots, the attributes, and the sequence,
    /// the count and the kept range of invalidations. None exactly where it would write no begin, no change and no end. It
    /// takes no memory.
    pub fn ahead(&self, actor: Actor, how: How) -> Option<Ahead>
        requires actor { IsOf self.now.orders.setup actor }
        requires room { flag_of self.now.room actor ≡ true }
        requires turns { self.now.turns < 2 ^ 64 - 1 }
        requires kick { how ≡ How.Kick → IsVcpu actor }
        ensures { (new : Seen) (outcome : Outcome) → StepsTo self.now new actor how outcome → result ≡ ahead_in (self.now.turns + 1) new.past }
    {
        match how {
            How::Next => ahead(&self.core, actor),
            How::Kick => None,
        }
    }
}
