use crate::acting::{NO_COMMAND, machine_of};
use crate::memory::{ONE_FILE, try_file};
use crate::pushing::try_pushed;
use crate::rooming::try_room;
use crate::waiting::{CONVERSION, TWO_CALLERS, try_bracket, try_kick, try_lock};
use gm_machine::{Blocker, How, Machine, Outcome};
use std::alloc::Global;
use std::panic::Expect;
use std::process::Abort;

// What is tried on a machine.
#[derive(Clone, Copy)]
enum Trial {
    Room,
    Pushed,
    Lock,
    Bracket,
    Kick,
    File,
}

fn script_of(trial: Trial) -> &'static [u8] {
    match trial {
        Trial::Room => NO_COMMAND,
        Trial::Pushed => NO_COMMAND,
        Trial::Lock => TWO_CALLERS,
        Trial::Bracket => TWO_CALLERS,
        Trial::Kick => CONVERSION,
        Trial::File => ONE_FILE,
    }
}

fn try_on(rt: &impl Abort, alloc: Global, machine: &mut Machine, trial: Trial) {
    match trial {
        Trial::Room => try_room(rt, machine),
        Trial::Pushed => try_pushed(rt, alloc, machine),
        Trial::Lock => try_lock(rt, machine),
        Trial::Bracket => try_bracket(rt, machine),
        Trial::Kick => try_kick(rt, machine),
        Trial::File => try_file(rt, machine),
    }
}

// The one function that owns a machine, with one way out. The proof of each way out of such a function goes through all
// that a machine has.
fn tried(rt: &impl Abort, alloc: Global, trial: Trial) {
    let mut machine = machine_of(alloc, script_of(trial)).expect(rt, "a machine");
    try_on(rt, alloc, &mut machine, trial);
}

#[test]
fn room_serves_one_turn(rt: HostRuntime) {
    tried(&rt, rt.alloc(), Trial::Room);
}

#[test]
fn pushed_commands(rt: HostRuntime) {
    tried(&rt, rt.alloc(), Trial::Pushed);
}

#[test]
fn waits_for_the_lock(rt: HostRuntime) {
    tried(&rt, rt.alloc(), Trial::Lock);
}

#[test]
fn an_attribute_in_its_bracket(rt: HostRuntime) {
    tried(&rt, rt.alloc(), Trial::Bracket);
}

#[test]
fn waits_for_a_vcpu(rt: HostRuntime) {
    tried(&rt, rt.alloc(), Trial::Kick);
}

#[test]
fn slots_and_files(rt: HostRuntime) {
    tried(&rt, rt.alloc(), Trial::File);
}

fn crosses_threads<T: Send + Sync>() {}

#[test]
fn answers_cross_threads() {
    crosses_threads::<Outcome>();
    crosses_threads::<How>();
    crosses_threads::<Blocker>();
}
