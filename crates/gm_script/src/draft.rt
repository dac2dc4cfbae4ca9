//! A script as far as it was read, and what orders add to it.

ghost use Rattle.std.specs.Prelude.{◌≡◌, ◌+◌, ◌*◌, ◌<◌, ◌≤◌, ◌++◌, ◌∷◌, [], Some, IfOk, OnOk, true};
ghost use Rattle.std.proofs.Common.{replicate};
ghost use Rattle.gm_script.specs.Actors.{is_known, actor_of};
ghost use Rattle.gm_script.specs.Numbers.{below_of, NUMBER_LIMIT};
ghost use Rattle.gm_script.specs.Rounds.{vcpus_round, callers_round, round_of, rounds_of};
ghost use Rattle.gm_script.specs.Grammar.{has_actor, is_aligned, commands_in, turns_in, has_room, aim_of, with_access, with_call, after_order, empty_draft};
ghost use Rattle.gm_script.specs.Drafts.{draft_of, IsScriptDraft};

use crate::actors::Named;
use crate::error::Cause;
use crate::lists::CommandList;
use crate::orders::Order;
use gm_base::{
    Access, Actor, Command, Ioctl, Kind, MOST_COMMANDS, MOST_TURNS, NoMemory, Op, PAGE_BYTES, Page,
    Setup, Turn, WORD_BYTES,
};
use std::alloc::Global;

/// A setup, each actor's commands and the turns so far; and how many commands there are.
#[derive(Drop)]
pub struct Draft {
    pub setup: Setup,
    pub vcpus: Vec<CommandList>,
    pub callers: Vec<CommandList>,
    pub turns: Vec<Turn>,
    pub commands: usize,
}

/// Why a line adds nothing.
#[derive(Clone, Copy, Debug, PartialEq, Eq)]
pub enum Refused {
    Bad(Cause),
    NoMemory,
}

impl From<NoMemory> for Refused {
    ghost use Rattle.gm_script.specs.declared.draft.Refused.TheVariants.{NoMemory as want};

    ghost from_gives = { λ _ e. e ≡ want };

    fn from(_error: NoMemory) -> Refused {
        Refused::NoMemory
    }
}

/// Whether the order's actor is one of the setup's.
#[tactic(auto, unfolding(crate::specs::Grammar::has_actor))]
pub fn has_actor(setup: Setup, order: Order) -> bool
    ensures { result ≡ has_actor setup order }
{
    match order {
        Order::Touch { vcpu, .. } | Order::Kick { vcpu } => vcpu < u64::from(setup.vcpus),
        Order::Call { caller, .. } => caller < u64::from(setup.callers),
        Order::Turns { actor, .. } => is_known(setup, actor),
        Order::Round { .. } => true,
    }
}

fn is_known(setup: Setup, actor: Named) -> bool
    ensures { result ≡ is_known setup actor }
{
    match actor {
        Named::Vcpu(vcpu) => vcpu < u64::from(setup.vcpus),
        Named::Caller(caller) => caller < u64::from(setup.callers),
    }
}

/// Whether an access is of a whole word.
#[tactic(auto, unfolding(crate::specs::Grammar::is_aligned))]
pub fn is_aligned(order: Order) -> bool
    ensures { result ≡ is_aligned order }
{
    match order {
        Order::Touch { gpa, .. } => gpa % WORD_BYTES == 0,
        _ => true,
    }
}

fn commands_in(order: Order) -> usize
    ensures { result ≡ commands_in order }
{
    match order {
        Order::Touch { .. } | Order::Call { .. } => 1,
        Order::Turns { .. } | Order::Kick { .. } | Order::Round { .. } => 0,
    }
}

/// The turns of an order. None where there are 2^64 or more.
fn turns_in(setup: Setup, order: Order) -> Option<u64>
    ensures { result ≡ below_of NUMBER_LIMIT (Some (turns_in setup order)) }
{
    match order {
        Order::Touch { .. } | Order::Call { .. } => Some(0),
        Order::Turns { count, .. } => Some(count),
        Order::Kick { .. } => Some(1),
        Order::Round { count } => {
            count.checked_mul(2 * u64::from(setup.vcpus) + u64::from(setup.callers))
        }
    }
}

/// Whether the order doesn't make the commands or turns too many.
#[tactic(auto, unfolding(crate::specs::Grammar::has_room))]
pub fn has_room(draft: &Draft, order: Order) -> bool
    requires { IsScriptDraft (draft_of draft.now) }
    ensures { result ≡ has_room (draft_of draft.now) order }
{
    let turns = match turns_in(draft.setup, order) {
        Some(turns) => turns,
        None => return false,
    };
    draft.commands + commands_in(order) <= MOST_COMMANDS
        && turns <= (MOST_TURNS - draft.turns.len()) as u64
}

/// Adds what the order asks for.
#[tactic(auto, unfolding(crate::specs::Grammar::after_order, crate::specs::Grammar::has_actor))]
pub fn add_order(draft: &mut Draft, order: Order) -> Result<(), NoMemory>
    requires even { IsScriptDraft (draft_of draft.old) }
    requires actor { has_actor draft.old.setup order ≡ true }
    ensures { OnOk result (draft_of draft.new ≡ after_order (draft_of draft.old) order) }
{
    match order {
        Order::Touch {
            vcpu,
            kind,
            gpa,
            op,
        } => add_access(draft, vcpu, access_at(kind, gpa, op)),
        Order::Call { caller, call } => add_call(draft, caller, call),
        Order::Turns { actor, count } => {
            let actor = known_actor(draft.setup, actor);
            push_turns(&mut draft.turns, actor, count)
        }
        Order::Kick { vcpu } => {
            draft.turns.push(Turn::Kick(vcpu as u32))?;
            Ok(())
        }
        Order::Round { count } => push_rounds(&mut draft.turns, draft.setup, count),
    }
}

/// The access at a guest address.
#[tactic(auto, unfolding(crate::specs::Grammar::aim_of))]
fn access_at(kind: Kind, gpa: u64, op: Op) -> Access
    ensures { result ≡ aim_of kind gpa op }
{
    match Page::new(gpa / PAGE_BYTES) {
        Some(page) => {
            let within = (gpa % PAGE_BYTES) / WORD_BYTES;
            Access::new(page, within as u16, op, kind)
        }
        None => unreachable!(),
    }
}

/// Adds a command of a vCPU.
fn add_access(draft: &mut Draft, vcpu: u64, access: Access) -> Result<(), NoMemory>
    requires even { IsScriptDraft (draft_of draft.old) }
    requires actor { vcpu < draft.old.setup.vcpus }
    ensures { OnOk result (draft_of draft.new ≡ with_access (draft_of draft.old) vcpu access) }
{
    let list = &mut draft.vcpus[vcpu as usize];
    list.push(Command::Touch(access))?;
    draft.commands += 1;
    Ok(())
}

/// Adds a call of a caller.
fn add_call(draft: &mut Draft, caller: u64, call: Ioctl) -> Result<(), NoMemory>
    requires even { IsScriptDraft (draft_of draft.old) }
    requires actor { caller < draft.old.setup.callers }
    ensures { OnOk result (draft_of draft.new ≡ with_call (draft_of draft.old) caller call) }
{
    let list = &mut draft.callers[caller as usize];
    list.push(Command::Call(call))?;
    draft.commands += 1;
    Ok(())
}

/// The actor, which is one of the setup's.
fn known_actor(setup: Setup, actor: Named) -> Actor
    requires { is_known setup actor ≡ true }
    ensures { result ≡ actor_of actor }
{
    match actor {
        Named::Vcpu(vcpu) => Actor::Vcpu(vcpu as u32),
        Named::Caller(caller) => Actor::Caller(caller as u32),
    }
}

fn push_turns(turns: &mut Vec<Turn>, actor: Actor, count: u64) -> Result<(), NoMemory>
    ensures { OnOk result (turns.new.items ≡ turns.old.items ++ replicate count (Turn.Next actor)) }
{
    for k in 0..count {
        turns.push(Turn::Next(actor))?;
    }
    Ok(())
}

/// Adds so many rounds.
fn push_rounds(turns: &mut Vec<Turn>, setup: Setup, count: u64) -> Result<(), NoMemory>
    ensures { OnOk result (turns.new.items ≡ turns.old.items ++ rounds_of setup count) }
{
    for k in 0..count {
        push_vcpus(turns, setup.vcpus)?;
        push_callers(turns, setup.callers)?;
    }
    Ok(())
}

/// Adds a kick and a turn of each vCPU.
#[tactic(auto, using(crate::proofs::Turns::one_more_vcpu))]
fn push_vcpus(turns: &mut Vec<Turn>, vcpus: u32) -> Result<(), NoMemory>
    ensures { OnOk result (turns.new.items ≡ turns.old.items ++ vcpus_round vcpus) }
{
    for v in 0..vcpus {
        turns.push(Turn::Kick(v))?;
        turns.push(Turn::Next(Actor::Vcpu(v)))?;
    }
    Ok(())
}

/// Adds a turn of each caller.
#[tactic(auto, using(crate::proofs::Turns::one_more_caller))]
fn push_callers(turns: &mut Vec<Turn>, callers: u32) -> Result<(), NoMemory>
    ensures { OnOk result (turns.new.items ≡ turns.old.items ++ callers_round callers) }
{
    for c in 0..callers {
        turns.push(Turn::Next(Actor::Caller(c)))?;
    }
    Ok(())
}

/// A draft of a setup, with no command and no turn.
pub fn empty(alloc: Global, setup: Setup) -> Result<Draft, NoMemory>
    ensures { IfOk result (λ s. draft_of s ≡ empty_draft setup) }
{
    let vcpus = empty_lists(alloc, setup.vcpus)?;
    let callers = empty_lists(alloc, setup.callers)?;
    Ok(Draft {
        setup,
        vcpus,
        callers,
        turns: Vec::new(alloc),
        commands: 0,
    })
}

fn empty_lists(alloc: Global, count: u32) -> Result<Vec<CommandList>, NoMemory>
    ensures { IfOk result (λ lists. lists.items ≡ replicate count []) }
{
    let mut lists = Vec::new(alloc);
    for k in 0..count {
        lists.push(CommandList::new(alloc))?;
    }
    Ok(lists)
}
