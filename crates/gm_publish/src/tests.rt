// What is kept of sightings.

ghost use Rattle.std.specs.Prelude.{◌≡◌, ◌<◌, IsSome, IsTrue};
ghost use Rattle.gm_base.specs.Scripts.{IsOf};
ghost use Rattle.gm_flat.specs.Histories.{fault};
ghost use Rattle.gm_vcpus.specs.Asks.{asked_in};

use crate::Published;
use gm_base::{Actor, Kind, Page};
use gm_flat::{Looked, Sampled, Sighting, SlotView, What};
use gm_machine::{How, Machine, Outcome};
use gm_script::read_script;
use gm_views::{Spies, Spy};
use std::alloc::Global;
use std::panic::Expect;
use std::process::Abort;
use std::sync::Wait;

const ONE_READ: &[u8] = b"machine frames=4 user=4 vcpus=1 callers=1 huge=off
c0 region 0 0 0 16384 0 0 0
v0 read shared 0
";

const CONVERSION: &[u8] = b"machine frames=8 user=16 vcpus=1 callers=1 huge=off
c0 region 0 0 0 16384 0 0 0
c0 attrs 0 4096 8 0
v0 read shared 0
";

const ELSEWHERE: &[u8] = b"machine frames=8 user=16 vcpus=1 callers=1 huge=off
c0 region 0 0 0 16384 0 0 0
c0 attrs 8192 4096 8 0
v0 read shared 0
";

const DELETION: &[u8] = b"machine frames=8 user=16 vcpus=1 callers=1 huge=off
c0 region 0 0 0 16384 0 0 0
c0 region 0 0 0 0 0 0 0
v0 read shared 0
";

const VCPU: Actor = Actor::Vcpu(0);

const CALLER: Actor = Actor::Caller(0);

// The slot of the scripts.
const SLOT: SlotView = SlotView {
    id: 0,
    base: 0,
    pages: 4,
    user: 0,
    flags: 0,
    file: None,
    index: 0,
    invalid: false,
};

// What is tried.
#[derive(Clone, Copy)]
enum Trial {
    /// What is seen now is deposited, and the read goes on to its end.
    OneRead,
    /// What a spy saw is deposited after the conversion was judged.
    Spied,
    /// Likewise after it has made its change.
    Late,
    /// Likewise, where the conversion is of another page.
    Elsewhere,
    /// Likewise, where the slot was deleted in place of the conversion.
    Deleted,
    /// What is deposited isn't true.
    Untrue,
    /// What is deposited is the attribute of now with an earlier position.
    Converted,
}

// What a trial leaves: the place of its sample, the position that was seen with the attribute there, and how many
// entries and turns there are.
#[derive(Clone, Copy)]
struct Left {
    sample: usize,
    at: u64,
    attr: Kind,
    entries: usize,
    turns: u64,
}

fn left_by(trial: Trial) -> Left {
    let (sample, entries, turns) = match trial {
        Trial::OneRead => (5, 11, 8),
        Trial::Spied => (6, 8, 5),
        Trial::Late | Trial::Elsewhere | Trial::Converted => (9, 11, 8),
        Trial::Deleted => (10, 12, 8),
        Trial::Untrue => (5, 7, 4),
    };
    let (at, attr) = match trial {
        Trial::Converted => (9, Kind::Private),
        _ => (5, Kind::Shared),
    };
    Left {
        sample,
        at,
        attr,
        entries,
        turns,
    }
}

fn script_of(trial: Trial) -> &'static [u8] {
    match trial {
        Trial::OneRead => ONE_READ,
        Trial::Elsewhere => ELSEWHERE,
        Trial::Deleted => DELETION,
        Trial::Spied | Trial::Late | Trial::Untrue | Trial::Converted => CONVERSION,
    }
}

// Whether the actor is one of the setup's.
fn is_known(published: &Published, actor: Actor) -> bool
    ensures { IsTrue result → IsOf published.now.orders.setup actor }
{
    let setup = published.machine().setup();
    match actor {
        Actor::Vcpu(v) => v < setup.vcpus,
        Actor::Caller(c) => c < setup.callers,
    }
}

// Takes so many turns of the actor, each of which writes.
fn turns<R: Abort + Wait>(rt: &R, published: &mut Published, actor: Actor, count: usize) {
    for _ in 0..count {
        assert!(rt; is_known(published, actor));
        let outcome = published.step(rt, actor, How::Next).expect(rt, "memory");
        assert_eq!(rt; outcome, Outcome::Moved);
    }
}

// Whether the first vCPU's fault has only missed.
fn has_asked(published: &Published) -> bool
    ensures { IsTrue result → (0 < published.now.orders.setup.vcpus) × IsSome (asked_in (fault 0 published.now.past)) }
{
    let machine = published.machine();
    0 < machine.setup().vcpus && machine.asked(0).is_some()
}

// Deposits a sighting of the first vCPU's fault.
fn deposit(rt: &impl Abort, published: &mut Published, sight: Sighting) {
    assert!(rt; has_asked(published));
    let outcome = published.deposit(0, sight).expect(rt, "memory");
    assert_eq!(rt; outcome, Outcome::Moved);
}

// The sequence 0 at a position, and the slot and an attribute at another.
fn sighting(sampled_at: u64, looked_at: u64, attr: Kind) -> Sighting {
    Sighting {
        sampled: Sampled {
            at: sampled_at,
            seq: 0,
        },
        looked: Looked {
            at: looked_at,
            slot: Some(SLOT),
            attr,
        },
    }
}

// What the spy sees once it was told.
fn spied(rt: &impl Abort, published: &mut Published, spy: &mut Spy) -> Sighting {
    let page = Page::new(0).expect(rt, "a page");
    published.tell(spy);
    let asked_at = spy.told_at();
    let sampled = spy.sample(asked_at).expect(rt, "a sample");
    let asked_at = spy.told_at();
    let looked = spy.look(asked_at, page).expect(rt, "a look");
    Sighting { sampled, looked }
}

fn try_on<R: Abort + Wait>(rt: &R, published: &mut Published, spy: &mut Spy, trial: Trial) {
    turns(rt, published, CALLER, 1);
    turns(rt, published, VCPU, 2);
    match trial {
        Trial::OneRead => {
            deposit(rt, published, sighting(5, 5, Kind::Shared));
            turns(rt, published, VCPU, 4);
        }
        Trial::Spied => {
            let sight = spied(rt, published, spy);
            turns(rt, published, CALLER, 1);
            deposit(rt, published, sight);
        }
        Trial::Late | Trial::Elsewhere | Trial::Deleted => {
            let sight = spied(rt, published, spy);
            turns(rt, published, CALLER, 4);
            deposit(rt, published, sight);
        }
        Trial::Untrue => deposit(rt, published, sighting(4, 5, Kind::Private)),
        Trial::Converted => {
            turns(rt, published, CALLER, 4);
            deposit(rt, published, sighting(5, 5, Kind::Private));
        }
    }
}

// The first vCPU's spy.
fn first_spy(spies: &mut Spies, vcpus: u32) -> Option<Spy>
    requires { vcpus ≡ spies.old.vcpus }
{
    if vcpus == 0 {
        return None;
    }
    spies.take(0)
}

// A look of a history.
#[derive(Clone, Copy, Debug, PartialEq, Eq)]
struct Seen {
    at: u64,
    slot: Option<u32>,
    attr: Kind,
    file: Option<u32>,
}

fn sample_in(machine: &Machine, position: usize) -> Option<u64> {
    match machine.history().get(position)?.what {
        What::Sample { at } => Some(at),
        _ => None,
    }
}

fn look_in(machine: &Machine, position: usize) -> Option<Seen> {
    match machine.history().get(position)?.what {
        What::Look {
            at,
            slot,
            attr,
            file,
        } => Some(Seen {
            at,
            slot,
            attr,
            file,
        }),
        _ => None,
    }
}

// Each trial leaves a sample and a look of one position, where the slot lies over the page.
fn check(rt: &impl Abort, machine: &Machine, left: Left) {
    let seen = Seen {
        at: left.at,
        slot: Some(0),
        attr: left.attr,
        file: None,
    };
    assert_eq!(rt; machine.history().len(), left.entries);
    assert_eq!(rt; machine.turns(), left.turns);
    assert_eq!(rt; sample_in(machine, left.sample), Some(left.at));
    assert_eq!(rt; look_in(machine, left.sample.saturating_add(1)), Some(seen));
}

// The one function that owns what is tried, with one way out. The proof of each way out of such a function goes through
// all that a machine has.
fn tried<R: Abort + Wait>(rt: &R, alloc: Global, trial: Trial) {
    let script = read_script(alloc, script_of(trial))
        .ok()
        .expect(rt, "a script");
    let vcpus = script.setup().vcpus;
    let (mut published, mut spies) = Published::new(alloc, &script).expect(rt, "memory");
    let mut spy = first_spy(&mut spies, vcpus).expect(rt, "a spy");
    try_on(rt, &mut published, &mut spy, trial);
    let machine = published.into_machine(rt);
    check(rt, &machine, left_by(trial));
}

#[test]
fn one_read_with_a_deposit(rt: HostRuntime) {
    tried(&rt, rt.alloc(), Trial::OneRead);
}

#[test]
fn a_spy_sees_before_a_conversion(rt: HostRuntime) {
    tried(&rt, rt.alloc(), Trial::Spied);
}

#[test]
fn a_true_sighting_is_kept_after_a_change(rt: HostRuntime) {
    tried(&rt, rt.alloc(), Trial::Late);
}

#[test]
fn a_true_sighting_is_kept_after_a_change_elsewhere(rt: HostRuntime) {
    tried(&rt, rt.alloc(), Trial::Elsewhere);
}

#[test]
fn a_true_sighting_is_kept_after_its_slot_is_gone(rt: HostRuntime) {
    tried(&rt, rt.alloc(), Trial::Deleted);
}

#[test]
fn an_attribute_of_now_is_untrue_before_its_change(rt: HostRuntime) {
    tried(&rt, rt.alloc(), Trial::Converted);
}

#[test]
fn an_untrue_sighting_is_not_kept(rt: HostRuntime) {
    tried(&rt, rt.alloc(), Trial::Untrue);
}
