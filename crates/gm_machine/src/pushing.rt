//! Commands that are given to an actor of a machine that runs.

ghost use Rattle.std.specs.Prelude.{◌≡◌, ◌++◌, ◌∷◌, [], OnErr, OnOk, false};
ghost use Rattle.gm_base.specs.Scripts.{IsOf, commands_of};
ghost use Rattle.gm_flat.specs.Histories.{gone};
ghost use Rattle.gm_turns.specs.Pushing.{IsFor, with_command};

use crate::machine::Machine;
use gm_base::{Actor, Command, NoMemory};
use gm_turns::push;

impl Machine {
    /// Gives an actor a command more, after all that it has. The actor must be one of the setup's that hasn't written
    /// `gone`, and the command of its kind. The history, the turns and the room stay. After `NoMemory` contracts see the
    /// machine as before.
    pub fn push(&mut self, actor: Actor, command: Command) -> Result<(), NoMemory>
        requires actor { IsOf self.old.orders.setup actor }
        requires present { gone actor self.old.past ≡ false }
        requires kind { IsFor actor command }
        ensures ok { OnOk result (self.new ≡ record self.old { orders = with_command self.old.orders actor command }) }
        ensures last { OnOk result (commands_of self.new.orders actor ≡ commands_of self.old.orders actor ++ command ∷ []) }
        ensures err { OnErr result (self.new ≡ self.old) }
    {
        push(&mut self.core, actor, command)
    }
}
