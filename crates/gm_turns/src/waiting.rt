//! What is told of an actor's next turn before it is taken.

ghost use Rattle.std.specs.Prelude.{◌≡◌, ◌<◌, None, false, is_some};
ghost use Rattle.gm_base.specs.Scripts.{IsOf};
ghost use Rattle.gm_base.specs.declared.values.Actor.TheVariants.{Caller};
ghost use Rattle.gm_callers.specs.Callers.{caller_at};
ghost use Rattle.gm_flat.specs.RightOrder.{next_command};
ghost use Rattle.gm_turns.specs.Ready.{Settled};
ghost use Rattle.gm_turns.specs.Room.{orders_of};
ghost use Rattle.gm_turns.specs.Stepping.{IsStepOf};
ghost use Rattle.gm_turns.specs.Waiting.{IsBlocker};

use crate::caller_turns::{next_ioctl, next_step};
use crate::outcome::Blocker;
use crate::parts::Core;
use crate::vcpu_turns::next_access;
use gm_base::Actor;
use gm_calls::{Step, locks};

/// Whether a command of the actor isn't ended.
pub fn has_command(core: &Core, actor: Actor) -> bool
    requires settled { Settled core.now }
    requires actor { IsOf core.now.setup actor }
    ensures { result ≡ is_some (next_command (orders_of core.now) actor core.now.log.past) }
{
    match actor {
        Actor::Vcpu(v) => next_access(core, v).is_some(),
        Actor::Caller(c) => next_ioctl(core, c).is_some(),
    }
}

/// What the actor's next turn would wait for, if it were taken now.
pub fn blocker(core: &Core, actor: Actor) -> Option<Blocker>
    requires settled { Settled core.now }
    requires actor { IsOf core.now.setup actor }
    ensures { IsBlocker (orders_of core.now) actor core.now.log.past result }
{
    match actor {
        Actor::Vcpu(_) => None,
        Actor::Caller(c) => blocker_of_caller(core, c),
    }
}

fn blocker_of_caller(core: &Core, c: u32) -> Option<Blocker>
    requires settled { Settled core.now }
    requires actor { c < core.now.setup.callers }
    ensures { IsBlocker (orders_of core.now) (Caller c) core.now.log.past result }
{
    if core.callers.is_gone(c) {
        return None;
    }
    match next_step(core, c) {
        Some(step) => blocker_of_step(core, c, step),
        None => blocker_of_next(core, c),
    }
}

// The blocker of a call in progress, whose next step this is: an acknowledgement waits for the vCPUs inside.
fn blocker_of_step(core: &Core, c: u32, step: Step) -> Option<Blocker>
    requires settled { Settled core.now }
    requires actor { c < core.now.setup.callers }
    requires present { (caller_at core.now.callers c).gone ≡ false }
    requires step { IsStepOf (caller_at core.now.callers c).call step }
    ensures { IsBlocker (orders_of core.now) (Caller c) core.now.log.past result }
{
    match step {
        Step::Acked => match core.mmu.all_in(core.callers.request(c)) {
            Some(v) => Some(Blocker::Inside(v)),
            None => None,
        },
        Step::Begin => None,
        Step::Change => None,
        Step::End => None,
        Step::PageStep => None,
    }
}

// The blocker of a caller without a call in progress: its next call waits for its locks.
fn blocker_of_next(core: &Core, c: u32) -> Option<Blocker>
    requires settled { Settled core.now }
    requires actor { c < core.now.setup.callers }
    requires present { (caller_at core.now.callers c).gone ≡ false }
    requires idle { (caller_at core.now.callers c).call ≡ None }
    ensures { IsBlocker (orders_of core.now) (Caller c) core.now.log.past result }
{
    match next_ioctl(core, c) {
        Some(ioctl) => {
            let needed = locks(&core.state.parts(core.setup), &ioctl);
            match core.callers.holder(c, &needed) {
                Some(holder) => Some(Blocker::Lock(holder)),
                None => None,
            }
        }
        None => None,
    }
}
