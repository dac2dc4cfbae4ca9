// What is done with a machine that is lent.

ghost use Rattle.gm_base.specs.Scripts.{IsOf};
ghost use Rattle.std.specs.Prelude.{IsTrue};

use gm_base::Actor;
use gm_machine::{How, Machine, Outcome};
use gm_script::read_script;
use std::alloc::Global;
use std::panic::Expect;
use std::process::Abort;

/// A script without a command.
pub const NO_COMMAND: &[u8] = b"machine frames=4 user=4 vcpus=1 callers=1 huge=off\n";

/// The machine of a script. None where it is no script, or memory ran out.
pub fn machine_of(alloc: Global, text: &[u8]) -> Option<Machine> {
    let script = read_script(alloc, text).ok()?;
    Machine::new(alloc, &script).ok()
}

/// Whether the actor is one of the setup's.
pub fn is_known(machine: &Machine, actor: Actor) -> bool
    ensures { IsTrue result → IsOf machine.now.orders.setup actor }
{
    let setup = machine.setup();
    match actor {
        Actor::Vcpu(v) => v < setup.vcpus,
        Actor::Caller(c) => c < setup.callers,
    }
}

/// Takes the actor's next turn, in room made for it.
pub fn turn(rt: &impl Abort, machine: &mut Machine, actor: Actor) -> Outcome {
    assert!(rt; is_known(machine, actor));
    assert!(rt; machine.turns() < 100);
    machine.make_room(actor).expect(rt, "memory");
    machine.step(actor, How::Next)
}

/// Takes so many turns of the actor, each of which writes.
pub fn turns(rt: &impl Abort, machine: &mut Machine, actor: Actor, count: usize) {
    for _ in 0..count {
        assert_eq!(rt; turn(rt, machine, actor), Outcome::Moved);
    }
}

/// Kicks the first vCPU, in room made for it.
pub fn kick(rt: &impl Abort, machine: &mut Machine) -> Outcome {
    let actor = Actor::Vcpu(0);
    assert!(rt; is_known(machine, actor));
    assert!(rt; machine.turns() < 100);
    machine.make_room(actor).expect(rt, "memory");
    machine.step(actor, How::Kick)
}
