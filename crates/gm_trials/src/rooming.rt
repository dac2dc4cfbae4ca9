use crate::acting::{is_known, turn};
use gm_base::Actor;
use gm_machine::{Machine, Outcome};
use std::panic::Expect;
use std::process::Abort;

// Whether the actor has room for a turn, and whether it has written `gone`.
fn has(rt: &impl Abort, machine: &Machine, actor: Actor, room: bool, gone: bool) {
    assert!(rt; is_known(machine, actor));
    assert_eq!(rt; machine.has_room(actor), room);
    assert_eq!(rt; machine.finished(actor), gone);
}

fn make_room(rt: &impl Abort, machine: &mut Machine, actor: Actor) {
    assert!(rt; is_known(machine, actor));
    machine.make_room(actor).expect(rt, "memory");
}

// Counts a turn that writes nothing; there are so many then.
fn blank(rt: &impl Abort, machine: &mut Machine, turns: u64) {
    assert!(rt; machine.turns() < 100);
    machine.blank();
    assert_eq!(rt; machine.turns(), turns);
}

// A turn of the actor comes to this; there are so many turns then.
fn takes(rt: &impl Abort, machine: &mut Machine, actor: Actor, outcome: Outcome, turns: u64) {
    assert_eq!(rt; turn(rt, machine, actor), outcome);
    assert_eq!(rt; machine.turns(), turns);
}

/// A turn that writes uses up the room of all; one that doesn't leaves it. The actors of `NO_COMMAND` write `gone`
/// alone.
pub fn try_room(rt: &impl Abort, machine: &mut Machine) {
    let caller = Actor::Caller(0);
    let vcpu = Actor::Vcpu(0);
    has(rt, machine, caller, false, false);
    make_room(rt, machine, caller);
    make_room(rt, machine, vcpu);
    blank(rt, machine, 1);
    has(rt, machine, caller, true, false);
    has(rt, machine, vcpu, true, false);
    takes(rt, machine, caller, Outcome::Moved, 2);
    has(rt, machine, caller, false, true);
    has(rt, machine, vcpu, false, false);
    takes(rt, machine, caller, Outcome::Done, 2);
    has(rt, machine, caller, true, true);
}
