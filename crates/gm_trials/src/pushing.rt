use crate::acting::{is_known, turns};
use gm_base::{Access, Actor, Command, Ioctl, Kind, Op, Page, Region};
use gm_io::SureSink;
use gm_machine::Machine;
use gm_text::write_history;
use std::alloc::Global;
use std::panic::Expect;
use std::process::Abort;

const ONE_READ_TEXT: &[u8] = b"gmem-history 2
machine frames=4 user=4 vcpus=1 callers=1 huge=off
1 c0 judge region 0 0 0 16384 0 0 0
1 c0 change slot 0 base=0 pages=4 user=0 flags=0 file=- index=0
1 c0 answer ok=0
2 v0 enter
3 v0 miss read shared 0
4 v0 sample at=5
5 v0 look at=6 slot=0 attr=shared file=-
6 v0 get user=0
7 v0 install page=0 level=4k
8 v0 enter
9 v0 touch read shared 0 user=0 level=4k value=0 fill=10
end turns=9 entries=11
";

const REGION: Region = Region {
    slot: 0,
    flags: 0,
    gpa: 0,
    size: 16384,
    user: 0,
    fd: 0,
    offset: 0,
};

// Gives the first caller a call.
fn push_call(rt: &impl Abort, machine: &mut Machine, ioctl: Ioctl) {
    let actor = Actor::Caller(0);
    assert!(rt; is_known(machine, actor));
    assert!(rt; !machine.finished(actor));
    machine
        .push(actor, Command::Call(ioctl))
        .expect(rt, "memory");
}

// Gives the first vCPU an access.
fn push_access(rt: &impl Abort, machine: &mut Machine, access: Access) {
    let actor = Actor::Vcpu(0);
    assert!(rt; is_known(machine, actor));
    assert!(rt; !machine.finished(actor));
    machine
        .push(actor, Command::Touch(access))
        .expect(rt, "memory");
}

// A read of the first word.
fn first_word(rt: &impl Abort) -> Access {
    let page = Page::new(0).expect(rt, "a page");
    Access::new(page, 0, Op::Read, Kind::Shared)
}

// The actor has one command, and it is this one.
fn has_command(rt: &impl Abort, machine: &Machine, actor: Actor, command: Command) {
    assert!(rt; is_known(machine, actor));
    assert_eq!(rt; machine.commands(actor), [command].as_slice());
}

// The machine's history as text.
fn text_of(alloc: Global, machine: &Machine) -> Option<Vec<u8>> {
    let mut sink = SureSink::new(alloc, 4096).ok()?;
    write_history(
        &mut sink,
        machine.setup(),
        machine.history(),
        machine.turns(),
    )
    .ok()?;
    Vec::from_slice(alloc, sink.held()).ok()
}

fn push_both(rt: &impl Abort, machine: &mut Machine) {
    let ioctl = Ioctl::Region2(REGION);
    let access = first_word(rt);
    push_access(rt, machine, access);
    push_call(rt, machine, ioctl);
    has_command(rt, machine, Actor::Caller(0), Command::Call(ioctl));
    has_command(rt, machine, Actor::Vcpu(0), Command::Touch(access));
}

/// The machine of `NO_COMMAND`, which is given a call and a read, writes what that of a script with both does.
pub fn try_pushed(rt: &impl Abort, alloc: Global, machine: &mut Machine) {
    push_both(rt, machine);
    turns(rt, machine, Actor::Caller(0), 1);
    turns(rt, machine, Actor::Vcpu(0), 8);
    let text = text_of(alloc, machine).expect(rt, "memory");
    assert_eq!(rt; text.as_slice(), ONE_READ_TEXT);
}
