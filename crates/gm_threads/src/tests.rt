use super::*;
use gm_base::{Actor, Kind};
use gm_flat::{Entry, Exit, What};
use gm_io::{Gate, OpenGate};
use gm_machine::Machine;
use gm_script::read_script;
use std::alloc::Global;
use std::sync::Wait;
use std::sync::atomic::{AtomicU64, Ordering};
use std::test::Fail;
use std::thread::{Threads, yield_now};

const CONVERSION: &[u8] =
    b"machine frames=8 user=16 vcpus=1 callers=1 huge=off\nc0 region 0 0 0 16384 0 0 0\nc0 attrs 0 4096 8 0\nv0 read shared 0\n";

const PRIVATE_READ: &[u8] =
    b"machine frames=8 user=16 vcpus=1 callers=1 huge=off\nv0 read private 4104\n";

const CROWD: &[u8] =
    b"machine frames=64 user=64 vcpus=8 callers=12 huge=off\nc0 region 0 0 0 65536 0 0 0\nc0 attrs 0 4096 8 0\nc0 attrs 0 4096 0 0\nc1 attrs 4096 4096 8 0\nc1 attrs 4096 4096 0 0\nc2 attrs 8192 4096 8 0\nc2 attrs 8192 4096 0 0\nc3 attrs 12288 4096 8 0\nc3 attrs 12288 4096 0 0\nc4 attrs 16384 4096 8 0\nc4 attrs 16384 4096 0 0\nc5 attrs 20480 4096 8 0\nc5 attrs 20480 4096 0 0\nc6 attrs 24576 4096 8 0\nc6 attrs 24576 4096 0 0\nc7 attrs 28672 4096 8 0\nc7 attrs 28672 4096 0 0\nc8 attrs 32768 4096 8 0\nc8 attrs 32768 4096 0 0\nc9 attrs 36864 4096 8 0\nc9 attrs 36864 4096 0 0\nc10 attrs 40960 4096 8 0\nc10 attrs 40960 4096 0 0\nc11 attrs 45056 4096 8 0\nc11 attrs 45056 4096 0 0\nv0 read shared 0\nv0 read shared 20480\nv0 read shared 40960\nv1 read shared 4096\nv1 read shared 24576\nv1 read shared 45056\nv2 read shared 8192\nv2 read shared 28672\nv2 read shared 49152\nv3 read shared 12288\nv3 read shared 32768\nv3 read shared 53248\nv4 read shared 16384\nv4 read shared 36864\nv4 read shared 57344\nv5 read shared 20480\nv5 read shared 40960\nv5 read shared 61440\nv6 read shared 24576\nv6 read shared 45056\nv6 read shared 0\nv7 read shared 28672\nv7 read shared 49152\nv7 read shared 4096\n";

// After so many turns a hold gives up.
const MOST_TURNS: u32 = 2_000_000;

// How often the first vCPU and the first caller came to a point, and how many holds gave up.
#[derive(Drop)]
struct Comings {
    samples: AtomicU64,
    looked: AtomicU64,
    installs: AtomicU64,
    starts: AtomicU64,
    holds: AtomicU64,
    leaves: AtomicU64,
    gave_up: AtomicU64,
}

impl Comings {
    fn new() -> Comings {
        Comings {
            samples: AtomicU64::new(0),
            looked: AtomicU64::new(0),
            installs: AtomicU64::new(0),
            starts: AtomicU64::new(0),
            holds: AtomicU64::new(0),
            leaves: AtomicU64::new(0),
            gave_up: AtomicU64::new(0),
        }
    }

    // Waits until so many came.
    fn wait_for(&self, count: &AtomicU64, wanted: u64) {
        for _ in 0..MOST_TURNS {
            if count.load(Ordering::SeqCst) >= wanted {
                return;
            }
            yield_now();
        }
        self.gave_up.fetch_add(1, Ordering::SeqCst);
    }

    fn no_hold_gave_up(&self) -> bool {
        self.gave_up.load(Ordering::SeqCst) == 0
    }
}

// How many came before this one.
fn come(count: &AtomicU64) -> u64 {
    count.fetch_add(1, Ordering::SeqCst)
}

// The vCPU is held before its first sample until a turn of the caller is over, and after its first look until all are. The
// caller is held before its second turn until the vCPU has looked.
#[derive(Drop)]
struct Overlap {
    came: Comings,
}

impl Gate for Overlap {
    fn pass(&self, actor: Actor, point: u8) {
        let came = &self.came;
        match (actor, point) {
            (Actor::Vcpu(0), 0) => {
                if come(&came.samples) == 0 {
                    came.wait_for(&came.leaves, 1);
                }
            }
            (Actor::Caller(0), 4) => {
                if come(&came.starts) == 1 {
                    came.wait_for(&came.installs, 1);
                }
            }
            (Actor::Vcpu(0), 2) => {
                if come(&came.installs) == 0 {
                    came.wait_for(&came.leaves, 6);
                }
            }
            (Actor::Caller(0), 6) => {
                come(&came.leaves);
            }
            _ => {}
        }
    }
}

// The vCPU samples and looks between its first two holds while the caller has the lock, and hands that in when the caller
// is done.
#[derive(Drop)]
struct Locked {
    came: Comings,
}

impl Gate for Locked {
    fn pass(&self, actor: Actor, point: u8) {
        let came = &self.came;
        match (actor, point) {
            (Actor::Caller(0), 4) => {
                if come(&came.starts) == 0 {
                    came.wait_for(&came.samples, 1);
                }
            }
            (Actor::Vcpu(0), 0) => {
                if come(&came.samples) == 0 {
                    came.wait_for(&came.holds, 1);
                }
            }
            (Actor::Caller(0), 5) => {
                if come(&came.holds) == 0 {
                    came.wait_for(&came.looked, 1);
                }
            }
            (Actor::Vcpu(0), 7) => {
                if come(&came.looked) == 0 {
                    came.wait_for(&came.leaves, 6);
                }
            }
            (Actor::Caller(0), 6) => {
                come(&came.leaves);
            }
            _ => {}
        }
    }
}

// None where it is no script, or memory ran out.
fn machine_of<R: Threads + Wait + Sync, G: Gate + Sync>(
    rt: &R,
    alloc: Global,
    text: &[u8],
    gate: &G,
) -> Option<Machine> {
    let script = read_script(alloc, text).ok()?;
    run_actors(rt, alloc, &script, gate).ok()
}

// What became of the vCPU's read.
#[derive(Clone, Copy, Debug, PartialEq, Eq)]
struct Story {
    // The first sample and the first look, and the answers that stand before the sample.
    sampled: Option<u64>,
    looked: Option<u64>,
    answers: u32,
    // The retries, those before the exit, and the exits with a memory fault of page 0.
    retries: u32,
    retries_before: u32,
    exits: u32,
}

fn tell(story: &mut Story, entry: &Entry) {
    match entry.what {
        What::Sample { at } => {
            if story.sampled.is_none() {
                story.sampled = Some(at);
            }
        }
        What::Look { at, .. } => {
            if story.looked.is_none() {
                story.looked = Some(at);
            }
        }
        What::Answer { .. } => {
            if story.sampled.is_none() {
                story.answers = story.answers.saturating_add(1);
            }
        }
        What::Retry => story.retries = story.retries.saturating_add(1),
        What::Left { why } => {
            story.retries_before = story.retries;
            if why
                == (Exit::Fault {
                    flags: 0,
                    gpa: 0,
                    size: 4096,
                })
            {
                story.exits = story.exits.saturating_add(1);
            }
        }
        _ => {}
    }
}

fn story_of(entries: &[Entry]) -> Story {
    let mut story = Story {
        sampled: None,
        looked: None,
        answers: 0,
        retries: 0,
        retries_before: 0,
        exits: 0,
    };
    for entry in entries {
        tell(&mut story, entry);
    }
    story
}

#[test]
fn threads_overlap(rt: HostRuntime) -> Result<(), Fail> {
    let gate = Overlap {
        came: Comings::new(),
    };
    let machine = machine_of(&rt, rt.alloc(), CONVERSION, &gate).ok_or("no machine")?;
    let story = story_of(machine.history());
    assert!(rt; gate.came.no_hold_gave_up());
    assert_eq!(rt;
        (story.retries, story.retries_before, story.exits),
        (1, 1, 1)
    );
    Ok(())
}

#[test]
fn a_vcpu_samples_while_the_lock_is_held(rt: HostRuntime) -> Result<(), Fail> {
    let gate = Locked {
        came: Comings::new(),
    };
    let machine = machine_of(&rt, rt.alloc(), CONVERSION, &gate).ok_or("no machine")?;
    let story = story_of(machine.history());
    assert!(rt; gate.came.no_hold_gave_up());
    assert_eq!(rt;
        (story.sampled, story.looked, story.answers),
        (Some(4), Some(4), 2)
    );
    Ok(())
}

// Whether this is the entry of that number of the vCPU's private read of page 1.
fn is_entry(number: usize, what: &What) -> bool {
    match what {
        What::Enter => number == 0,
        What::Miss { access } => number == 1 && access.kind() == Kind::Private,
        What::Sample { .. } => number == 2,
        What::Look {
            slot,
            attr,
            file,
            ..
        } => number == 3 && slot.is_none() && *attr == Kind::Shared && file.is_none(),
        What::Left { why } => {
            number == 4
                && *why
                    == (Exit::Fault {
                        flags: 8,
                        gpa: 4096,
                        size: 4096,
                    })
        }
        What::Gone => number == 5,
        _ => false,
    }
}

// How many entries the vCPU has, where they are those of its private read; else none. And whether the caller is gone.
fn read_of(entries: &[Entry]) -> (usize, bool) {
    let mut number = 0usize;
    let mut caller_gone = false;
    for entry in entries {
        match entry.actor {
            Actor::Vcpu(_) => {
                if !is_entry(number, &entry.what) {
                    return (0, false);
                }
                number = number.saturating_add(1);
            }
            Actor::Caller(_) => caller_gone = matches!(entry.what, What::Gone),
        }
    }
    (number, caller_gone)
}

#[test]
fn each_actor_ends(rt: HostRuntime) -> Result<(), Fail> {
    let machine = machine_of(&rt, rt.alloc(), PRIVATE_READ, &OpenGate).ok_or("no machine")?;
    assert_eq!(rt; read_of(machine.history()), (6, true));
    Ok(())
}

fn gone_of(entries: &[Entry]) -> usize {
    entries
        .iter()
        .filter(|entry| matches!(entry.what, What::Gone))
        .count()
}

// Callers wait for one another's locks and for vCPUs that have to flush.
#[test]
fn a_crowd_ends(rt: HostRuntime) -> Result<(), Fail> {
    for _ in 0..5u32 {
        let machine = machine_of(&rt, rt.alloc(), CROWD, &OpenGate).ok_or("no machine")?;
        assert_eq!(rt; gone_of(machine.history()), 20);
    }
    Ok(())
}
