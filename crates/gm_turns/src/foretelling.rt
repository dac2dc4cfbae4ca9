//! What an actor's next turn would change of what is shown, told before it is taken.

ghost use Rattle.std.specs.Prelude.{◌≡◌, ◌+◌, ◌-◌, ◌<◌, ◌≤◌, None, Some, false, length, nat_le, if◌then◌else◌};
ghost use Rattle.gm_base.specs.declared.numbers.TheConstants.{COUNTER_LIMIT};
ghost use Rattle.gm_base.specs.declared.values.Actor.TheVariants.{Caller};
ghost use Rattle.gm_base.specs.declared.script.Command.TheVariants.{Call as CallCommand};
ghost use Rattle.gm_callers.specs.Callers.{caller_at, spans_in};
ghost use Rattle.gm_flat.specs.RightOrder.{next_command};
ghost use Rattle.gm_inval.specs.Range.{open_range, widen_all};
ghost use Rattle.gm_turns.specs.Ahead.{begin_loud};
ghost use Rattle.gm_turns.specs.Foretold.{Foretells};
ghost use Rattle.gm_turns.specs.Brackets.{IsAtStep, slot_to_mark};
ghost use Rattle.gm_turns.specs.Ready.{IsReady};
ghost use Rattle.gm_turns.specs.Room.{ENTRY_LIMIT, orders_of};
ghost use Rattle.gm_turns.specs.Stepping.{IsStepOf};

use crate::brackets::{effect_of, slot_to_mark};
use crate::caller_turns::{next_ioctl, next_step};
use crate::outcome::Ahead;
use crate::parts::Core;
use gm_base::{Actor, Ioctl};
use gm_calls::{Step, change_at_once, locks};
use gm_flat::Effect;

/// What the actor's next turn would change of what is shown, if it were taken now. None exactly where it would write no
/// begin, no change and no end. It takes no memory.
pub fn ahead(core: &Core, actor: Actor) -> Option<Ahead>
    requires ready { IsReady core.now actor }
    ensures { Foretells (orders_of core.now) actor (core.now.turns + 1) core.now.log.past result }
{
    match actor {
        Actor::Vcpu(_) => None,
        Actor::Caller(c) => ahead_of_caller(core, c),
    }
}

fn ahead_of_caller(core: &Core, c: u32) -> Option<Ahead>
    requires ready { IsReady core.now (Caller c) }
    ensures { Foretells (orders_of core.now) (Caller c) (core.now.turns + 1) core.now.log.past result }
{
    if core.callers.is_gone(c) {
        return None;
    }
    match next_step(core, c) {
        Some(step) => ahead_of_step(core, c, step),
        None => ahead_of_next(core, c),
    }
}

// Of a caller whose call in progress has this step next.
fn ahead_of_step(core: &Core, c: u32, step: Step) -> Option<Ahead>
    requires ready { IsReady core.now (Caller c) }
    requires present { (caller_at core.now.callers c).gone ≡ false }
    requires step { IsStepOf (caller_at core.now.callers c).call step }
    ensures { Foretells (orders_of core.now) (Caller c) (core.now.turns + 1) core.now.log.past result }
{
    match step {
        Step::Begin => Some(begin_ahead(core, c)),
        Step::Change => Some(change_ahead(core, 0, effect_of(core.callers.call(c)))),
        Step::End => Some(end_ahead(core)),
        Step::Acked => None,
        Step::PageStep => None,
    }
}

// The last entry of the turn in which the caller's bracket begins.
fn begin_told(core: &Core, c: u32) -> (u64, Option<Effect>)
    requires ready { IsReady core.now (Caller c) }
    ensures { record { at = result.0; effect = result.1 } ≡ begin_loud (slot_to_mark (caller_at core.now.callers c).call) (length core.now.log.past) }
{
    let position = core.log.position();
    match slot_to_mark(core.callers.call(c)) {
        Some(slot) => (position + 2, Some(Effect::Mark { slot })),
        None => (position + 1, None),
    }
}

// Of a bracket that begins.
fn begin_ahead(core: &Core, c: u32) -> Ahead
    requires ready { IsReady core.now (Caller c) }
    requires at { IsAtStep None (caller_at core.now.callers c).call }
    ensures loud { record { at = result.at; effect = result.effect } ≡ begin_loud (slot_to_mark (caller_at core.now.callers c).call) (length core.now.log.past) }
    ensures seq { result.seq ≡ core.now.mmu.progress.seq }
    ensures count { result.count ≡ core.now.mmu.progress.count + 1 }
    ensures hull { result.hull ≡ widen_all (open_range core.now.mmu.progress) (spans_in (caller_at core.now.callers c).call).list }
{
    let (at, effect) = begin_told(core, c);
    Ahead {
        at,
        effect,
        seq: core.mmu.seq(),
        count: core.mmu.count() + 1,
        hull: core.mmu.hull_with(core.callers.spans(c)),
    }
}

// Of a change that is the entry after `before` others of its turn.
fn change_ahead(core: &Core, before: u64, effect: Effect) -> Ahead
    requires room { 0 < core.now.log.spare }
    requires few { before ≤ 1 }
    requires short { length core.now.log.past < ENTRY_LIMIT }
    ensures { result ≡ record { at = length core.now.log.past + before + 1; effect = Some effect; seq = core.now.mmu.progress.seq; count = core.now.mmu.progress.count; hull = open_range core.now.mmu.progress } }
{
    Ahead {
        at: core.log.position() + before + 1,
        effect: Some(effect),
        seq: core.mmu.seq(),
        count: core.mmu.count(),
        hull: core.mmu.hull(),
    }
}

// Of a bracket that ends.
fn end_ahead(core: &Core) -> Ahead
    requires room { 0 < core.now.log.spare }
    requires open { 0 < core.now.mmu.progress.count }
    requires seq { core.now.mmu.progress.seq < COUNTER_LIMIT }
    ensures { result ≡ record { at = length core.now.log.past + 1; effect = None; seq = core.now.mmu.progress.seq + 1; count = core.now.mmu.progress.count - 1; hull = if nat_le core.now.mmu.progress.count 1 then None else open_range core.now.mmu.progress } }
{
    let count = core.mmu.count();
    Ahead {
        at: core.log.position() + 1,
        effect: None,
        seq: core.mmu.seq() + 1,
        count: count - 1,
        hull: if count <= 1 { None } else { core.mmu.hull() },
    }
}

// Of a caller without a call in progress.
fn ahead_of_next(core: &Core, c: u32) -> Option<Ahead>
    requires ready { IsReady core.now (Caller c) }
    requires present { (caller_at core.now.callers c).gone ≡ false }
    requires idle { (caller_at core.now.callers c).call ≡ None }
    ensures { Foretells (orders_of core.now) (Caller c) (core.now.turns + 1) core.now.log.past result }
{
    match next_ioctl(core, c) {
        Some(ioctl) => ahead_of_call(core, c, &ioctl),
        None => None,
    }
}

// Of a caller whose next call is judged, where that needn't wait.
fn ahead_of_call(core: &Core, c: u32, ioctl: &Ioctl) -> Option<Ahead>
    requires ready { IsReady core.now (Caller c) }
    requires present { (caller_at core.now.callers c).gone ≡ false }
    requires idle { (caller_at core.now.callers c).call ≡ None }
    requires command { next_command (orders_of core.now) (Caller c) core.now.log.past ≡ Some (CallCommand ioctl.now) }
    ensures { Foretells (orders_of core.now) (Caller c) (core.now.turns + 1) core.now.log.past result }
{
    let parts = core.state.parts(core.setup);
    let needed = locks(&parts, ioctl);
    match core.callers.holder(c, &needed) {
        Some(_) => None,
        None => match change_at_once(&parts, ioctl) {
            Some(effect) => Some(change_ahead(core, 1, effect)),
            None => None,
        },
    }
}
