//! Runs a script's turns in their order.

ghost use Rattle.std.specs.Prelude.{◌≡◌, ◌+◌, ◌<◌, ◌≤◌, ◌-◌, ◌^◌, [], length, reverse, IfOk, IfSome, OnOk, All, None, List, ℕ, ◌⊎◌};
ghost use Rattle.gm_base.specs.Scripts.{IsOf, IsTurnOf};
ghost use Rattle.gm_base.specs.declared.script.Turn.TheVariants.{Next, Kick};
ghost use Rattle.gm_io.specs.Causes.{Rose};
ghost use Rattle.gm_machine.specs.Played.{PlaysTurns, PlaysTurn};
ghost use Rattle.gm_script.specs.Grammar.{script_of};
ghost use Rattle.gmemrun.specs.Reading.{TookTooMuch};
ghost use Rattle.gmemrun.specs.Coming.{CameTo, Put, PutAll};
ghost use Rattle.gmemrun.specs.Running.{EndsAs, EndsBy, StepsDue};

use crate::read::{Unread, read_all};
use crate::refusal::write_refusal;
use crate::status::Status;
use gm_base::{Actor, MOST_SCRIPT_BYTES, NoMemory, Turn};
use gm_io::{Sink, Source};
use gm_machine::{How, Machine, Outcome};
use gm_script::{Script, ScriptError, read_script};
use gm_text::write_history;
use std::alloc::Global;

/// Reads a script, takes its turns in order and writes the history. It always returns.
pub fn run_steps<S: Source, K: Sink>(alloc: Global, source: &mut S, sink: &mut K) -> Status
    ensures came_to { CameTo MOST_SCRIPT_BYTES StepsDue result (S.left source.old) (S.left source.new) (K.held sink.old) (K.held sink.new) }
    ensures read_fault { result ≡ Status.ReadFault → Rose (S.faults source.old) (S.faults source.new) }
    ensures write_fault { result ≡ Status.WriteFault → Rose (K.faults sink.old) (K.faults sink.new) }
    ensures long_only { IfSome (S.left source.old) (λ _. TookTooMuch MOST_SCRIPT_BYTES (S.left source.old) (S.left source.new) → (result ≡ Status.TooLong) ⊎ (result ≡ Status.NoMemory)) }
    ensures bad_only { IfSome (S.left source.old) (λ bytes. IfSome (K.held sink.new) (λ _. PutAll StepsDue bytes Status.BadScript (K.held sink.old) (K.held sink.new) → result ≡ Status.BadScript)) }
    ensures usage { result ≡ Status.Usage → ⊥ }
    ensures complete { (Rose (S.faults source.old) (S.faults source.new) → ⊥) → (Rose (K.faults sink.old) (K.faults sink.new) → ⊥) → IfSome (S.left source.old) (λ bytes. EndsBy bytes result) }
{
    match read_all(alloc, MOST_SCRIPT_BYTES, source) {
        Ok(bytes) => run_bytes(alloc, &bytes, sink),
        Err(Unread::Failed) => Status::ReadFault,
        Err(Unread::TooLong) => Status::TooLong,
        Err(Unread::NoMemory) => Status::NoMemory,
    }
}

fn run_bytes<K: Sink>(alloc: Global, bytes: &[u8], sink: &mut K) -> Status
    ensures put { Put StepsDue bytes.now result (K.held sink.old) (K.held sink.new) }
    ensures write_fault { result ≡ Status.WriteFault → Rose (K.faults sink.old) (K.faults sink.new) }
    ensures usage { result ≡ Status.Usage → ⊥ }
    ensures no_read { result ≡ Status.ReadFault → ⊥ }
    ensures not_long { result ≡ Status.TooLong → ⊥ }
    ensures bad_only { IfSome (K.held sink.new) (λ _. PutAll StepsDue bytes.now Status.BadScript (K.held sink.old) (K.held sink.new) → result ≡ Status.BadScript) }
    ensures complete { (Rose (K.faults sink.old) (K.faults sink.new) → ⊥) → EndsAs (script_of bytes.now) result }
{
    match read_script(alloc, bytes) {
        Ok(script) => match play(alloc, &script) {
            Ok(machine) => {
                match write_history(sink, machine.setup(), machine.history(), machine.turns()) {
                    Ok(()) => Status::Ok,
                    Err(_) => Status::WriteFault,
                }
            }
            Err(_) => Status::NoMemory,
        },
        Err(ScriptError::BadLine { line, cause }) => match write_refusal(sink, line, cause) {
            Ok(()) => Status::BadScript,
            Err(_) => Status::WriteFault,
        },
        Err(ScriptError::NoMemory) => Status::NoMemory,
    }
}

/// A machine that has taken the script's turns.
pub(crate) fn play(alloc: Global, script: &Script) -> Result<Machine, NoMemory>
    ensures orders { IfOk result (λ m. m.orders ≡ script.now.orders) }
    ensures plays { IfOk result (λ m. PlaysTurns script.now.orders (reverse script.now.turns) m.past) }
    ensures turns { IfOk result (λ m. m.turns ≡ length script.now.turns) }
{
    let mut machine = Machine::new(alloc, script)?;
    take_turns(&mut machine, script.turns())?;
    Ok(machine)
}

fn take_turns(machine: &mut Machine, turns: &[Turn]) -> Result<(), NoMemory>
    requires empty { machine.old.past ≡ [] }
    requires none { machine.old.turns ≡ 0 }
    requires of { All (IsTurnOf machine.old.orders.setup) turns.now }
    ensures orders { OnOk result (machine.new.orders ≡ machine.old.orders) }
    ensures plays { OnOk result (PlaysTurns machine.old.orders (reverse turns.now) machine.new.past) }
    ensures turns { OnOk result (machine.new.turns ≡ length turns.now) }
{
    for turn in turns {
        match take_one(machine, *turn) {
            Ok(()) => {}
            Err(refused) => return Err(refused),
        }
    }
    Ok(())
}

fn take_one(machine: &mut Machine, turn: Turn) -> Result<(), NoMemory>
    requires of { IsTurnOf machine.old.orders.setup turn }
    requires turns { machine.old.turns < 2 ^ 64 - 1 }
    ensures orders { OnOk result (machine.new.orders ≡ machine.old.orders) }
    ensures step { OnOk result (PlaysTurn machine.old.orders turn (machine.old.turns + 1) machine.old.past machine.new.past) }
    ensures turns { OnOk result (machine.new.turns ≡ machine.old.turns + 1) }
{
    match turn {
        Turn::Next(actor) => take_next(machine, actor),
        Turn::Kick(v) => take_kick(machine, v),
    }
}

fn take_next(machine: &mut Machine, actor: Actor) -> Result<(), NoMemory>
    requires of { IsOf machine.old.orders.setup actor }
    requires turns { machine.old.turns < 2 ^ 64 - 1 }
    ensures orders { OnOk result (machine.new.orders ≡ machine.old.orders) }
    ensures step { OnOk result (PlaysTurn machine.old.orders (Next actor) (machine.old.turns + 1) machine.old.past machine.new.past) }
    ensures turns { OnOk result (machine.new.turns ≡ machine.old.turns + 1) }
{
    match machine.make_room(actor) {
        Ok(()) => {}
        Err(refused) => return Err(refused),
    }
    match machine.step(actor, How::Next) {
        Outcome::Moved => {}
        _ => machine.blank(),
    }
    Ok(())
}

fn take_kick(machine: &mut Machine, v: u32) -> Result<(), NoMemory>
    requires of { v < machine.old.orders.setup.vcpus }
    requires turns { machine.old.turns < 2 ^ 64 - 1 }
    ensures orders { OnOk result (machine.new.orders ≡ machine.old.orders) }
    ensures step { OnOk result (PlaysTurn machine.old.orders (Kick v) (machine.old.turns + 1) machine.old.past machine.new.past) }
    ensures turns { OnOk result (machine.new.turns ≡ machine.old.turns + 1) }
{
    let actor = Actor::Vcpu(v);
    match machine.make_room(actor) {
        Ok(()) => {}
        Err(refused) => return Err(refused),
    }
    match machine.step(actor, How::Kick) {
        Outcome::Moved => Ok(()),
        _ => {
            machine.blank();
            Ok(())
        }
    }
}
