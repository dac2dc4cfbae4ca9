//! Room for a turn, so that a turn takes no memory.

ghost use Rattle.std.specs.Prelude.{◌≡◌, ℕ, ◌<◌, OnOk, Some};
ghost use Rattle.gm_base.specs.Scripts.{IsOf};
ghost use Rattle.gm_base.specs.declared.values.Actor.TheVariants.{Caller, Vcpu};
ghost use Rattle.gm_base.specs.declared.values.Setup.{Setup};
ghost use Rattle.gm_state.specs.Stand.{Memory, StateIs};
ghost use Rattle.gm_turns.specs.HasMoreRoom.{CoreHasMoreRoom, HasCommonRoom};
ghost use Rattle.gm_turns.specs.Ready.{Settled};
ghost use Rattle.gm_turns.specs.Room.{CanBind, HasFreeRoom, HasOwnRoom, HasPageRoom, IsRoomyFor};
ghost use Rattle.gm_turns.specs.Turning.{IsRoomier};

use crate::needs::{Need, file_of_fault, need_of, region_file};
use crate::parts::Core;
use gm_base::{Actor, NoMemory};

// A history has fewer entries than this, 2^61.
const ENTRY_LIMIT: u64 = 2_305_843_009_213_693_952;

// Makes the room that every turn may need.
fn reserve_common(core: &mut Core) -> Result<(), NoMemory>
    ensures more { CoreHasMoreRoom core.old core.new }
    ensures ok { OnOk result (HasCommonRoom core.new) }
{
    core.log.reserve(3)?;
    core.mmu.reserve()?;
    core.state.reserve_call()?;
    if core.log.position() >= ENTRY_LIMIT {
        return Err(NoMemory);
    }
    Ok(())
}

// Makes room for a block of pages in a file, if it is in use.
fn reserve_pages(core: &mut Core, file: u32) -> Result<(), NoMemory>
    ensures more { CoreHasMoreRoom core.old core.new }
    ensures ok { OnOk result (HasPageRoom core.new.state (Some file)) }
{
    core.state.reserve_pages(file)
}

// Makes room for all that is cached of a file to be freed, with an entry for each folio and one for the change.
fn reserve_frees(core: &mut Core, file: u32) -> Result<(), NoMemory>
    requires state { (s : Setup) × (m : Memory) × StateIs s core.old.state m }
    ensures more { CoreHasMoreRoom core.old core.new }
    ensures ok { OnOk result (HasFreeRoom core.new file) }
{
    let count = core.state.reserve_freed(file)?;
    core.log.reserve(count + 1)
}

// Makes room for a range more in the file that the caller's next command names.
fn reserve_for_command(core: &mut Core, c: u32) -> Result<(), NoMemory>
    requires settled { Settled core.old }
    requires actor { c < core.old.setup.callers }
    ensures more { CoreHasMoreRoom core.old core.new }
    ensures ok { OnOk result (CanBind core.new c) }
{
    let ended = core.callers.ended(c);
    let commands = &core.caller_commands[c as usize];
    match region_file(commands.get(ended as usize)) {
        Some(file) => core.state.reserve_binding(file),
        None => Ok(()),
    }
}

// Makes room for what a caller's turn needs beside that of every turn.
fn reserve_for_caller(core: &mut Core, c: u32) -> Result<(), NoMemory>
    requires settled { Settled core.old }
    requires actor { c < core.old.setup.callers }
    ensures more { CoreHasMoreRoom core.old core.new }
    ensures ok { OnOk result (HasOwnRoom core.new (Caller c)) }
{
    let alloc = core.state.allocator();
    core.callers.reserve(alloc, c)?;
    match need_of(core.callers.call(c)) {
        Need::Command => reserve_for_command(core, c),
        Need::PagesIn(file) => reserve_pages(core, file),
        Need::FreesOf(file) => reserve_frees(core, file),
        Need::Nothing => Ok(()),
    }
}

// Makes room for what a vCPU's turn needs beside that of every turn.
fn reserve_for_vcpu(core: &mut Core, v: u32) -> Result<(), NoMemory>
    requires settled { Settled core.old }
    requires actor { v < core.old.setup.vcpus }
    ensures more { CoreHasMoreRoom core.old core.new }
    ensures ok { OnOk result (HasOwnRoom core.new (Vcpu v)) }
{
    match file_of_fault(core.vcpus.fault(v)) {
        Some(file) => reserve_pages(core, file),
        None => Ok(()),
    }
}

/// Makes room for one turn of the actor. There may be more room in some groups after `NoMemory`, and nothing else changed.
pub fn make_room(core: &mut Core, actor: Actor) -> Result<(), NoMemory>
    requires settled { Settled core.old }
    requires actor { IsOf core.old.setup actor }
    ensures roomier { IsRoomier core.old core.new }
    ensures ok { OnOk result (IsRoomyFor core.new actor) }
{
    reserve_common(core)?;
    match actor {
        Actor::Vcpu(v) => reserve_for_vcpu(core, v),
        Actor::Caller(c) => reserve_for_caller(core, c),
    }
}
