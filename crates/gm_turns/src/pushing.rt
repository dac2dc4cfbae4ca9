//! Commands that are given to an actor of a machine that runs.

ghost use Rattle.std.specs.Prelude.{◌≡◌, false, OnErr, OnOk};
ghost use Rattle.gm_base.specs.Scripts.{IsOf};
ghost use Rattle.gm_flat.specs.Histories.{gone};
ghost use Rattle.gm_turns.specs.HasMoreRoom.{CoreHasMoreRoom};
ghost use Rattle.gm_turns.specs.Pushing.{HasRoomToBind, IsFor, IsLonger, with_command};
ghost use Rattle.gm_turns.specs.Ready.{Commanded, Settled};
ghost use Rattle.gm_turns.specs.Room.{orders_of};
ghost use Rattle.gm_turns.specs.Turning.{IsRoomier};

use crate::needs::region_file;
use crate::parts::Core;
use gm_base::{Actor, Command, NoMemory};

// Makes room for a range more in the file that the command's region names: an actor with room for a turn may have the
// command next.
fn reserve_for_region(core: &mut Core, command: &Command) -> Result<(), NoMemory>
    ensures more { CoreHasMoreRoom core.old core.new }
    ensures ok { OnOk result (HasRoomToBind core.new.state command.now) }
{
    match region_file(Some(*command)) {
        Some(file) => core.state.reserve_binding(file),
        None => Ok(()),
    }
}

// Appends the command to the actor's list.
fn append(core: &mut Core, actor: Actor, command: &Command) -> Result<(), NoMemory>
    requires commanded { Commanded (orders_of core.old) }
    requires actor { IsOf core.old.setup actor }
    ensures others { core.new ≡ record core.old { vcpu_commands = core.new.vcpu_commands; caller_commands = core.new.caller_commands } }
    ensures ok { OnOk result (orders_of core.new ≡ with_command (orders_of core.old) actor command.now) }
    ensures err { OnErr result (orders_of core.new ≡ orders_of core.old) }
{
    match actor {
        Actor::Vcpu(v) => core.vcpu_commands[v as usize].push(*command),
        Actor::Caller(c) => core.caller_commands[c as usize].push(*command),
    }
}

/// Gives the actor a command more, after all that it has. Who had room for a turn has it still. After `NoMemory` there
/// may be more room in some groups, and nothing else changed.
pub fn push(core: &mut Core, actor: Actor, command: Command) -> Result<(), NoMemory>
    requires settled { Settled core.old }
    requires actor { IsOf core.old.setup actor }
    requires present { gone actor core.old.log.past ≡ false }
    requires kind { IsFor actor command }
    ensures ok { OnOk result (IsLonger core.old core.new actor command) }
    ensures err { OnErr result (IsRoomier core.old core.new) }
{
    reserve_for_region(core, &command)?;
    append(core, actor, &command)
}
