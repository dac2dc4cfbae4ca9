//! One actor's turns, in a thread of its own.

ghost use Rattle.std.specs.Prelude.{◌≡◌};
ghost use Rattle.gm_base.specs.Scripts.{IsOf};

use crate::held::{Held, Naming};
use crate::seats::{Pause, Seat, step_aside};
use gm_base::{Actor, NoMemory};
use gm_io::Gate;
use gm_machine::Outcome;
use std::sync::{Condvar, Mutex, MutexGuard, Wait};

/// The machine under its lock, and what waiting actors wait on.
pub struct Shared<J: Naming> {
    pub held: Mutex<Held<J>>,
    pub changed: Condvar,
}

// A turn wrote, and the actor does this before its next one; or it has none left, or some actor found no memory.
#[derive(Clone, Copy, Debug, PartialEq, Eq)]
enum Turned {
    Wrote(Pause),
    Over,
}

/// Takes the actor's turns until it has none left or some actor found no memory.
pub fn take_turns<J: Naming, R: Wait, G: Gate>(
    rt: &R,
    shared: &Shared<J>,
    gate: &G,
    actor: Actor,
    seat: &mut Seat,
)
    requires { IsOf J.orders.setup actor }
{
    for _ in rt.forever() {
        if let Actor::Caller(_) = actor {
            gate.pass(actor, 4);
        }
        match take_turn(rt, shared, gate, actor, seat) {
            Turned::Wrote(then) => step_aside(gate, actor, seat, then),
            Turned::Over => return,
        }
    }
}

// One hold of the lock, but for waiting.
fn take_turn<J: Naming, R: Wait, G: Gate>(
    rt: &R,
    shared: &Shared<J>,
    gate: &G,
    actor: Actor,
    seat: &mut Seat,
) -> Turned
    requires { IsOf J.orders.setup actor }
{
    let mut held = shared.held.lock(rt);
    for _ in rt.forever() {
        if held.is_stopped() {
            break;
        }
        match held.take_turn(rt, actor, &mut seat.sighting) {
            Ok(Outcome::Moved) => return give_back(shared, gate, held, actor, seat),
            Ok(Outcome::Waits(_)) => {
                held.note_waiting();
                held = shared.changed.wait(rt, held);
            }
            Ok(_) => break,
            Err(NoMemory) => {
                held.stop();
                shared.changed.notify_all();
                break;
            }
        }
    }
    MutexGuard::unlock(held);
    Turned::Over
}

// What is done in a hold after a turn that wrote: a vCPU whose fault missed has its reader told, and actors that wait are
// told when the lock is free.
fn give_back<J: Naming, G: Gate>(
    shared: &Shared<J>,
    gate: &G,
    mut held: MutexGuard<Held<J>>,
    actor: Actor,
    seat: &mut Seat,
) -> Turned {
    let then = held.pause_after();
    if let (Pause::Asks(_), Some(spy)) = (then, &mut seat.spy) {
        held.tell(spy);
    }
    let awaited = held.is_awaited();
    if let Actor::Caller(_) = actor {
        gate.pass(actor, 5);
    }
    MutexGuard::unlock(held);
    if awaited {
        shared.changed.notify_all();
    }
    Turned::Wrote(then)
}
