//! The core of a machine.

use crate::log::Log;
use gm_base::Setup;
use gm_callers::Callers;
use gm_mmu::Mmu;
use gm_script::CommandList;
use gm_state::State;
use gm_vcpus::Vcpus;

/// The setup and each actor's commands; how many turns were taken or counted; the history; and four groups, each of which
/// stands for the history: the vCPUs with their faults, the callers with their calls, what is mapped, and the state.
#[derive(Drop)]
pub struct Core {
    pub setup: Setup,
    pub vcpu_commands: Vec<CommandList>,
    pub caller_commands: Vec<CommandList>,
    pub turns: u64,
    pub log: Log,
    pub vcpus: Vcpus,
    pub callers: Callers,
    pub mmu: Mmu,
    pub state: State,
}
