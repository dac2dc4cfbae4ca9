//! The turns of vCPUs.

ghost use Rattle.std.specs.Prelude.{◌≡◌, ◌<◌, MatchOption, None, Some, false};
ghost use Rattle.gm_base.specs.declared.script.Command.TheVariants.{Touch as TouchCommand};
ghost use Rattle.gm_base.specs.declared.values.Actor.TheVariants.{Vcpu};
ghost use Rattle.gm_flat.specs.RightOrder.{next_command};
ghost use Rattle.gm_turns.specs.Ready.{IsReady, Settled, Turned};
ghost use Rattle.gm_turns.specs.Room.{orders_of};
ghost use Rattle.gm_turns.specs.Turning.{TurnsTo};
ghost use Rattle.gm_vcpus.specs.Vcpus.{vcpu_at};

use crate::faults::fault_turn;
use crate::guest::{enter, flush_and_enter, leave};
use crate::outcome::Outcome;
use crate::parts::Core;
use crate::touches::turn_inside;
use gm_base::{Access, Command};

/// Takes the vCPU's next turn, which waits for nobody.
pub fn vcpu_turn(core: &mut Core, v: u32) -> Outcome
    requires ready { IsReady core.old (Vcpu v) }
    ensures { TurnsTo core.old core.new (Vcpu v) result }
{
    if core.vcpus.is_gone(v) {
        return Outcome::Done;
    }
    match core.vcpus.fault(v) {
        Some(ticket) => fault_turn(core, v, ticket),
        None => waiting_turn(core, v),
    }
    Outcome::Moved
}

/// The vCPU's first access that isn't ended.
pub fn next_access(core: &Core, v: u32) -> Option<Access>
    requires settled { Settled core.now }
    requires actor { v < core.now.setup.vcpus }
    ensures { MatchOption result (next_command (orders_of core.now) (Vcpu v) core.now.log.past ≡ None) (λ access. next_command (orders_of core.now) (Vcpu v) core.now.log.past ≡ Some (TouchCommand access)) }
{
    let commands = &core.vcpu_commands[v as usize];
    match commands.get(core.vcpus.ended(v) as usize) {
        Some(command) => match command {
            Command::Touch(access) => Some(access),
            Command::Call(_) => unreachable!(),
        },
        None => None,
    }
}

// The turn of a vCPU without a fault in flight.
fn waiting_turn(core: &mut Core, v: u32)
    requires ready { IsReady core.old (Vcpu v) }
    requires present { (vcpu_at core.old.vcpus v).gone ≡ false }
    requires no_fault { (vcpu_at core.old.vcpus v).fault ≡ None }
    ensures { Turned core.old core.new (Vcpu v) false }
{
    match next_access(core, v) {
        None => leave(core, v),
        Some(access) => {
            if core.mmu.inside(v) {
                turn_inside(core, v, access);
            } else if core.mmu.pending(v) {
                flush_and_enter(core, v);
            } else {
                enter(core, v);
            }
        }
    }
}
