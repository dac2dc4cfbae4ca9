//! The threads.

ghost use Rattle.std.specs.Prelude.{◌≡◌, ◌+◌, ◌<◌, IfOk, length};
ghost use Rattle.gm_flat.specs.Plays.{Full};
ghost use Rattle.gm_flat.specs.RightHistory.{Right};
ghost use Rattle.gm_publish.specs.Counts.{CountedTo};

use crate::ending::finish;
use crate::held::{Held, Naming};
use crate::seats::{Seat, actor_at, seats_of};
use crate::turning::{Shared, take_turns};
use gm_base::{NoMemory, Setup};
use gm_io::Gate;
use gm_machine::Machine;
use gm_publish::Published;
use gm_script::Script;
use std::alloc::Global;
use std::marker::Brand;
use std::sync::{Condvar, Mutex, Wait};
use std::thread::{Threads, for_each_mut};

/// Runs each actor of the script in a thread of its own. At `Ok` each is gone.
pub fn run_actors<R: Threads + Wait + Sync, G: Gate + Sync>(
    rt: &R,
    alloc: Global,
    script: &Script,
    gate: &G,
) -> Result<Machine, NoMemory>
    ensures orders { IfOk result (λ m. m.orders ≡ script.now.orders) }
    ensures right { IfOk result (λ m. Right script.now.orders m.past) }
    ensures full { IfOk result (λ m. Full script.now.orders m.past) }
    ensures counted { IfOk result (λ m. CountedTo m.turns m.past) }
{
    let setup = script.setup();
    let (published, spies) = Published::new(alloc, script)?;
    match seats_of(alloc, setup, spies) {
        Ok(seats) => run_named::<Brand, R, G>(rt, published, seats, setup, gate),
        Err(NoMemory) => {
            let _machine = published.into_machine(rt);
            Err(NoMemory)
        }
    }
}

fn run_named<J: Naming + Send + Sync, R: Threads + Wait + Sync, G: Gate + Sync>(
    rt: &R,
    published: Published,
    mut seats: Vec<Seat>,
    setup: Setup,
    gate: &G,
) -> Result<Machine, NoMemory>
    requires orders { published.orders ≡ J.orders }
    requires setup { setup ≡ J.orders.setup }
    requires seats { length seats.items ≡ setup.vcpus + setup.callers }
    ensures orders { IfOk result (λ m. m.orders ≡ J.orders) }
    ensures right { IfOk result (λ m. Right J.orders m.past) }
    ensures full { IfOk result (λ m. Full J.orders m.past) }
    ensures counted { IfOk result (λ m. CountedTo m.turns m.past) }
{
    let shared = Shared {
        held: Mutex::new(Held::<J>::new(published)),
        changed: Condvar::new(),
    };
    run_threads(rt, &shared, gate, setup, &mut seats);
    let Shared { held, changed: _ } = shared;
    finish(rt, held.into_inner(), setup)
}

// A thread for each seat, all at once where so many can be had.
fn run_threads<J: Naming + Send + Sync, R: Threads + Wait + Sync, G: Gate + Sync>(
    rt: &R,
    shared: &Shared<J>,
    gate: &G,
    setup: Setup,
    seats: &mut Vec<Seat>,
)
    requires setup { setup ≡ J.orders.setup }
    requires seats { length seats.old.items ≡ setup.vcpus + setup.callers }
{
    let threads = seats.len().max(1);
    for_each_mut(
        rt,
        seats.as_mut_slice(),
        threads,
        &move |at: usize, seat: &mut Seat|
            requires { (setup ≡ J.orders.setup) × (at < setup.vcpus + setup.callers) }
        { take_turns(rt, shared, gate, actor_at(setup, at), seat) },
    );
}
