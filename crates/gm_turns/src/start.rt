//! New cores.

ghost use Rattle.std.specs.Prelude.{◌≡◌, [], IfOk};
ghost use Rattle.gm_turns.specs.Ready.{Settled};
ghost use Rattle.gm_turns.specs.Room.{orders_of};

use crate::log::Log;
use crate::parts::Core;
use gm_base::NoMemory;
use gm_callers::Callers;
use gm_mmu::Mmu;
use gm_script::{CommandList, Script};
use gm_state::State;
use gm_vcpus::Vcpus;
use std::alloc::Global;

// The same lists of commands again.
fn copies(alloc: Global, lists: &[CommandList]) -> Result<Vec<CommandList>, NoMemory>
    ensures { IfOk result (λ made. made.items ≡ lists.now) }
{
    let mut made = Vec::new(alloc);
    for list in lists {
        let copy = list.copied(alloc)?;
        made.push(copy)?;
    }
    Ok(made)
}

/// The core at the start: no slot, no file, no leaf, every frame free, user memory zero, every vCPU outside, no turn taken.
pub fn fresh(alloc: Global, script: &Script) -> Result<Core, NoMemory>
    ensures settled { IfOk result Settled }
    ensures orders { IfOk result (λ core. orders_of core ≡ script.now.orders) }
    ensures past { IfOk result (λ core. core.log.past ≡ []) }
    ensures turns { IfOk result (λ core. core.turns ≡ 0) }
{
    let setup = script.setup();
    let vcpu_commands = copies(alloc, script.vcpus())?;
    let caller_commands = copies(alloc, script.callers())?;
    let log = Log::new(alloc);
    let vcpus = Vcpus::new(alloc, setup.vcpus)?;
    let callers = Callers::new(alloc, setup.callers)?;
    let mmu = Mmu::new(alloc, setup.vcpus)?;
    let state = State::new(alloc, setup)?;
    Ok(Core {
        setup,
        vcpu_commands,
        caller_commands,
        turns: 0,
        log,
        vcpus,
        callers,
        mmu,
        state,
    })
}
