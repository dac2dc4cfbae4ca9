use crate::acting::{is_known, kick, turn, turns};
use gm_base::{Actor, Kind, Page};
use gm_machine::{Blocker, Machine, Outcome};
use std::panic::Expect;
use std::process::Abort;

// What a machine tells of a caller: what its next turn would wait for, whether a call of it is in progress, and whether
// all its calls are ended and it hasn't written `gone`.
#[derive(Clone, Copy)]
struct Told {
    waits: Option<Blocker>,
    in_progress: bool,
    idle: bool,
}

const IN_CALL: Told = Told {
    waits: None,
    in_progress: true,
    idle: false,
};

const ON_LOCK: Told = Told {
    waits: Some(Blocker::Lock(0)),
    in_progress: false,
    idle: false,
};

const ON_VCPU: Told = Told {
    waits: Some(Blocker::Inside(0)),
    in_progress: true,
    idle: false,
};

const FREE: Told = Told {
    waits: None,
    in_progress: false,
    idle: false,
};

const IDLE: Told = Told {
    waits: None,
    in_progress: false,
    idle: true,
};

fn tells(rt: &impl Abort, machine: &Machine, caller: u32, told: Told) {
    let actor = Actor::Caller(caller);
    assert!(rt; is_known(machine, actor));
    assert_eq!(rt; machine.waits(actor), told.waits);
    assert_eq!(rt; machine.in_progress(caller), told.in_progress);
    assert_eq!(rt; machine.idle(actor), told.idle);
}

// How many brackets are in progress, and the attribute of the first page; that of the second is shared.
fn shows(rt: &impl Abort, machine: &Machine, count: u32, kind: Kind) {
    let first = Page::new(0).expect(rt, "a page");
    let second = Page::new(1).expect(rt, "a page");
    assert_eq!(rt; machine.count(), count);
    assert_eq!(rt; machine.attribute(first), kind);
    assert_eq!(rt; machine.attribute(second), Kind::Shared);
}

fn moves(rt: &impl Abort, machine: &mut Machine, caller: u32, outcome: Outcome, entries: usize) {
    assert_eq!(rt; turn(rt, machine, Actor::Caller(caller)), outcome);
    assert_eq!(rt; machine.history().len(), entries);
}

/// Two callers, each with a call that changes attributes.
pub const TWO_CALLERS: &[u8] =
    b"machine frames=8 user=16 vcpus=1 callers=2 huge=off\nc0 attrs 0 4096 8 0\nc1 attrs 0 0 0 0\n";

/// The second caller of `TWO_CALLERS` waits for the lock that the call of the first one holds. Of each turn: whose it
/// is, what it comes to, how many entries there are then, and what is told of both callers.
pub fn try_lock(rt: &impl Abort, machine: &mut Machine) {
    let waits = Outcome::Waits(Blocker::Lock(0));
    tells(rt, machine, 0, FREE);
    tells(rt, machine, 1, FREE);
    for (caller, outcome, entries, first, second) in [
        (0, Outcome::Moved, 1, IN_CALL, ON_LOCK),
        (1, waits, 1, IN_CALL, ON_LOCK),
        (0, Outcome::Moved, 2, IN_CALL, ON_LOCK),
        (0, Outcome::Moved, 3, IN_CALL, ON_LOCK),
        (0, Outcome::Moved, 4, IN_CALL, ON_LOCK),
        (0, Outcome::Moved, 6, IDLE, FREE),
        (1, Outcome::Moved, 8, IDLE, IDLE),
        (1, Outcome::Moved, 9, IDLE, FREE),
        (1, Outcome::Done, 9, IDLE, FREE),
    ] {
        moves(rt, machine, caller, outcome, entries);
        tells(rt, machine, 0, first);
        tells(rt, machine, 1, second);
    }
}

/// The attribute changes while the bracket of the first caller of `TWO_CALLERS` is in progress. Of each turn: how many
/// brackets are in progress then, and the attribute of the first page.
pub fn try_bracket(rt: &impl Abort, machine: &mut Machine) {
    shows(rt, machine, 0, Kind::Shared);
    for (count, kind) in [
        (0, Kind::Shared),
        (1, Kind::Shared),
        (1, Kind::Shared),
        (1, Kind::Private),
        (0, Kind::Private),
    ] {
        turns(rt, machine, Actor::Caller(0), 1);
        shows(rt, machine, count, kind);
    }
}

/// A read of a slot, and a call that changes the attribute of its page.
pub const CONVERSION: &[u8] =
    b"machine frames=8 user=16 vcpus=1 callers=1 huge=off\nc0 region 0 0 0 16384 0 0 0\nc0 attrs 0 4096 8 0\nv0 read shared 0\n";

// A kick of the first vCPU, which comes to this, and whether its flush was pending before.
fn kicks(rt: &impl Abort, machine: &mut Machine, pending: bool, outcome: Outcome) {
    assert!(rt; machine.setup().vcpus > 0);
    assert_eq!(rt; machine.flush_pending(0), pending);
    assert_eq!(rt; kick(rt, machine), outcome);
    assert!(rt; machine.setup().vcpus > 0);
    assert!(rt; !machine.flush_pending(0));
}

/// The bracket of `CONVERSION` waits for the vCPU, which is inside, until that is kicked.
pub fn try_kick(rt: &impl Abort, machine: &mut Machine) {
    turns(rt, machine, Actor::Caller(0), 1);
    turns(rt, machine, Actor::Vcpu(0), 8);
    kicks(rt, machine, false, Outcome::Nothing);
    moves(rt, machine, 0, Outcome::Moved, 12);
    tells(rt, machine, 0, IN_CALL);
    moves(rt, machine, 0, Outcome::Moved, 13);
    tells(rt, machine, 0, ON_VCPU);
    moves(rt, machine, 0, Outcome::Waits(Blocker::Inside(0)), 13);
    kicks(rt, machine, true, Outcome::Moved);
    tells(rt, machine, 0, IN_CALL);
    moves(rt, machine, 0, Outcome::Moved, 15);
}
