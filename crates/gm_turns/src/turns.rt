//! Turns by their actor.

ghost use Rattle.std.specs.Prelude.{◌<◌};
ghost use Rattle.gm_base.specs.declared.values.Actor.TheVariants.{Vcpu};
ghost use Rattle.gm_turns.specs.Ready.{IsReady};
ghost use Rattle.gm_turns.specs.Turning.{KicksTo, TurnsTo};

use crate::caller_turns::caller_turn;
use crate::guest::flush;
use crate::outcome::Outcome;
use crate::parts::Core;
use crate::vcpu_turns::vcpu_turn;
use gm_base::Actor;

/// Takes the actor's next turn, and answers what it came to. It takes no memory.
pub fn take_turn(core: &mut Core, actor: Actor) -> Outcome
    requires ready { IsReady core.old actor }
    ensures { TurnsTo core.old core.new actor result }
{
    match actor {
        Actor::Vcpu(v) => vcpu_turn(core, v),
        Actor::Caller(c) => caller_turn(core, c),
    }
}

/// Flushes a vCPU in a turn of its own where a flush is pending, and answers whether one was.
pub fn kick(core: &mut Core, v: u32) -> bool
    requires ready { IsReady core.old (Vcpu v) }
    ensures { KicksTo core.old core.new v result }
{
    if core.mmu.pending(v) {
        flush(core, v);
        true
    } else {
        false
    }
}
