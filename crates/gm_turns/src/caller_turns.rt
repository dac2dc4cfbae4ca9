//! The turns of callers.

ghost use Rattle.std.specs.Prelude.{◌≡◌, ◌<◌, MatchOption, None, Some, false};
ghost use Rattle.gm_base.specs.declared.script.Command.TheVariants.{Call as CallCommand};
ghost use Rattle.gm_base.specs.declared.values.Actor.TheVariants.{Caller};
ghost use Rattle.gm_callers.specs.Callers.{caller_at};
ghost use Rattle.gm_flat.specs.RightOrder.{next_command};
ghost use Rattle.gm_turns.specs.Ready.{IsReady, Settled};
ghost use Rattle.gm_turns.specs.Room.{orders_of};
ghost use Rattle.gm_turns.specs.Stepping.{IsStepOf};
ghost use Rattle.gm_turns.specs.Turning.{TurnsTo};

use crate::brackets::{acknowledge, begin, change, end};
use crate::calls::{judge_or_wait, leave};
use crate::outcome::{Blocker, Outcome};
use crate::pages::page_turn;
use crate::parts::Core;
use gm_base::{Command, Ioctl};
use gm_calls::Step;

/// Takes the caller's next turn.
pub fn caller_turn(core: &mut Core, c: u32) -> Outcome
    requires ready { IsReady core.old (Caller c) }
    ensures { TurnsTo core.old core.new (Caller c) result }
{
    if core.callers.is_gone(c) {
        return Outcome::Done;
    }
    match next_step(core, c) {
        Some(step) => step_turn(core, c, step),
        None => idle_turn(core, c),
    }
}

/// The step that follows of the caller's call in progress.
pub fn next_step(core: &Core, c: u32) -> Option<Step>
    requires settled { Settled core.now }
    requires actor { c < core.now.setup.callers }
    ensures { MatchOption result ((caller_at core.now.callers c).call ≡ None) (IsStepOf (caller_at core.now.callers c).call) }
{
    match core.callers.call(c) {
        Some(x) => x.call.after(),
        None => None,
    }
}

/// The caller's first call that isn't ended.
pub fn next_ioctl(core: &Core, c: u32) -> Option<Ioctl>
    requires settled { Settled core.now }
    requires actor { c < core.now.setup.callers }
    ensures { MatchOption result (next_command (orders_of core.now) (Caller c) core.now.log.past ≡ None) (λ ioctl. next_command (orders_of core.now) (Caller c) core.now.log.past ≡ Some (CallCommand ioctl)) }
{
    let commands = &core.caller_commands[c as usize];
    match commands.get(core.callers.ended(c) as usize) {
        Some(command) => match command {
            Command::Call(ioctl) => Some(ioctl),
            Command::Touch(_) => unreachable!(),
        },
        None => None,
    }
}

// The turn of a caller without a call in progress.
fn idle_turn(core: &mut Core, c: u32) -> Outcome
    requires ready { IsReady core.old (Caller c) }
    requires present { (caller_at core.old.callers c).gone ≡ false }
    requires idle { (caller_at core.old.callers c).call ≡ None }
    ensures { TurnsTo core.old core.new (Caller c) result }
{
    match next_ioctl(core, c) {
        Some(ioctl) => match judge_or_wait(core, c, &ioctl) {
            Some(holder) => Outcome::Waits(Blocker::Lock(holder)),
            None => Outcome::Moved,
        },
        None => {
            leave(core, c);
            Outcome::Moved
        }
    }
}

// The turn of a caller whose call in progress has this step next.
fn step_turn(core: &mut Core, c: u32, step: Step) -> Outcome
    requires ready { IsReady core.old (Caller c) }
    requires present { (caller_at core.old.callers c).gone ≡ false }
    requires step { IsStepOf (caller_at core.old.callers c).call step }
    ensures { TurnsTo core.old core.new (Caller c) result }
{
    match step {
        Step::Begin => begin(core, c),
        Step::Acked => {
            if let Some(v) = acknowledge(core, c) {
                return Outcome::Waits(Blocker::Inside(v));
            }
        }
        Step::Change => change(core, c),
        Step::End => end(core, c),
        Step::PageStep => page_turn(core, c),
    }
    Outcome::Moved
}
