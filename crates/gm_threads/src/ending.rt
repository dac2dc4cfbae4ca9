//! What is done when the threads have ended.

ghost use Rattle.std.specs.Prelude.{◌≡◌, ◌<◌, true, IfOk, OnOk};
ghost use Rattle.gm_base.specs.Scripts.{IsOf};
ghost use Rattle.gm_base.specs.declared.values.Actor.{Actor};
ghost use Rattle.gm_flat.specs.Histories.{gone};
ghost use Rattle.gm_flat.specs.Plays.{Full};
ghost use Rattle.gm_flat.specs.RightHistory.{Right};
ghost use Rattle.gm_publish.specs.Counts.{CountedTo};

use crate::held::{Held, Naming};
use gm_base::{Actor, NoMemory, Setup};
use gm_machine::{How, Machine};
use std::sync::Wait;

/// The machine, when each actor is gone.
pub fn finish<J: Naming, R: Wait>(
    rt: &R,
    mut held: Held<J>,
    setup: Setup,
) -> Result<Machine, NoMemory>
    requires { setup ≡ J.orders.setup }
    ensures orders { IfOk result (λ m. m.orders ≡ J.orders) }
    ensures right { IfOk result (λ m. Right J.orders m.past) }
    ensures full { IfOk result (λ m. Full J.orders m.past) }
    ensures counted { IfOk result (λ m. CountedTo m.turns m.past) }
{
    let ended = end_all(rt, &mut held, setup);
    let machine = held.into_machine(rt);
    match ended {
        Ok(()) => Ok(machine),
        Err(NoMemory) => Err(NoMemory),
    }
}

// Takes kicks and turns until each actor is gone.
fn end_all<J: Naming, R: Wait>(rt: &R, held: &mut Held<J>, setup: Setup) -> Result<(), NoMemory>
    requires { setup ≡ J.orders.setup }
    ensures { OnOk result ((a : Actor) → IsOf J.orders.setup a → gone a held.new.past ≡ true) }
{
    for _ in rt.forever() {
        if held.is_stopped() {
            return Err(NoMemory);
        }
        if held.is_finished() {
            return Ok(());
        }
        kick_and_turn(rt, held, setup.vcpus)?;
        turn_callers(rt, held, setup.callers)?;
    }
    unreachable!()
}

// A kick and a turn for each vCPU.
fn kick_and_turn<J: Naming, R: Wait>(rt: &R, held: &mut Held<J>, vcpus: u32) -> Result<(), NoMemory>
    requires { vcpus ≡ J.orders.setup.vcpus }
{
    for v in 0..vcpus {
        held.step(rt, Actor::Vcpu(v), How::Kick)?;
        held.step(rt, Actor::Vcpu(v), How::Next)?;
    }
    Ok(())
}

// A turn for each caller.
fn turn_callers<J: Naming, R: Wait>(
    rt: &R,
    held: &mut Held<J>,
    callers: u32,
) -> Result<(), NoMemory>
    requires { callers ≡ J.orders.setup.callers }
{
    for c in 0..callers {
        held.step(rt, Actor::Caller(c), How::Next)?;
    }
    Ok(())
}
