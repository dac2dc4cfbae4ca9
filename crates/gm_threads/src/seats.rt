//! What each actor's thread has for itself.

ghost use Rattle.std.specs.Prelude.{◌≡◌, ◌+◌, ◌<◌, ◌≤◌, ◌^◌, IfOk, OnOk, length};
ghost use Rattle.gm_base.specs.Scripts.{IsOf};

use gm_base::{Actor, NoMemory, Page, Setup};
use gm_flat::Sighting;
use gm_io::Gate;
use gm_views::{Spies, Spy};
use std::alloc::Global;

/// The actor's reader of the views, if it has one, and a sighting that it hasn't handed in yet.
#[derive(Drop)]
pub struct Seat {
    pub spy: Option<Spy>,
    pub sighting: Option<Sighting>,
}

/// What an actor does between a turn that wrote and its next one.
#[derive(Clone, Copy, Debug, PartialEq, Eq)]
pub enum Pause {
    /// Its fault missed: it samples, and looks this page up.
    Asks(Page),
    /// It passes this point.
    Passes(u8),
    /// Nothing.
    GoesOn,
}

/// A seat for each actor, vCPUs first. Those have their readers.
pub fn seats_of(alloc: Global, setup: Setup, mut spies: Spies) -> Result<Vec<Seat>, NoMemory>
    requires { spies.vcpus ≡ setup.vcpus }
    ensures { IfOk result (λ seats. length seats.items ≡ setup.vcpus + setup.callers) }
{
    let mut seats = Vec::new(alloc);
    for v in 0..setup.vcpus {
        let spy = spies.take(v);
        seats.push(Seat {
            spy,
            sighting: None,
        })?;
    }
    seat_callers(&mut seats, setup.callers)?;
    Ok(seats)
}

fn seat_callers(seats: &mut Vec<Seat>, callers: u32) -> Result<(), NoMemory>
    ensures { OnOk result (length seats.new.items ≡ length seats.old.items + callers) }
{
    for _ in 0..callers {
        seats.push(Seat {
            spy: None,
            sighting: None,
        })?;
    }
    Ok(())
}

/// The actor of a seat.
pub fn actor_at(setup: Setup, at: usize) -> Actor
    requires { at < setup.vcpus + setup.callers }
    ensures { IsOf setup result }
{
    let vcpus = setup.vcpus as usize;
    if at < vcpus {
        Actor::Vcpu(at as u32)
    } else {
        Actor::Caller((at - vcpus) as u32)
    }
}

/// What an actor does without the lock before its next turn. A vCPU whose fault missed samples and looks by its reader.
pub fn step_aside<G: Gate>(gate: &G, actor: Actor, seat: &mut Seat, then: Pause) {
    match actor {
        Actor::Caller(_) => gate.pass(actor, 6),
        Actor::Vcpu(_) => match then {
            Pause::Asks(page) => {
                gate.pass(actor, 0);
                seat.sighting = match &mut seat.spy {
                    Some(spy) => look_on(gate, actor, spy, page),
                    None => None,
                };
            }
            Pause::Passes(point) => gate.pass(actor, point),
            Pause::GoesOn => {}
        },
    }
}

// None where the reader was refused a look.
fn look_on<G: Gate>(gate: &G, actor: Actor, spy: &mut Spy, page: Page) -> Option<Sighting> {
    let sampled = spy.sample(spy.told_at())?;
    gate.pass(actor, 1);
    let looked = spy.look(spy.told_at(), page)?;
    gate.pass(actor, 7);
    Some(Sighting { sampled, looked })
}
