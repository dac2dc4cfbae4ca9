//! The turns of a bracket.

ghost use Rattle.std.specs.Prelude.{◌≡◌, ◌<◌, ◌≤◌, IfNone, IfSome, IsSome, None, Some, false};
ghost use Rattle.gm_base.specs.declared.values.Actor.TheVariants.{Caller};
ghost use Rattle.gm_callers.specs.Callers.{caller_at};
ghost use Rattle.gm_callers.specs.Stand.{IsAt};
ghost use Rattle.gm_callers.specs.Waiting.{WaitsOnVcpu};
ghost use Rattle.gm_flat.specs.RightOrder.{IsBlocked};
ghost use Rattle.gm_calls.specs.declared.call.Step.TheVariants.{Acked, Begin, Change};
ghost use Rattle.gm_flat.specs.declared.effect.Effect.{Effect};
ghost use Rattle.gm_turns.specs.Brackets.{IsAtStep, ioctl_in, slot_to_mark};
ghost use Rattle.gm_turns.specs.Ready.{IsReady, Turned};
ghost use Rattle.gm_turns.specs.Room.{orders_of};

use crate::frees::free_all;
use crate::note::note;
use crate::parts::Core;
use gm_base::{Actor, Ioctl};
use gm_callers::InProgress;
use gm_calls::{Judged, Step};
use gm_flat::{Effect, Reply, What};

/// The slot that a call marks where its bracket begins: that of a deletion or a move.
pub fn slot_to_mark(call: &Option<InProgress>) -> Option<u32>
    ensures { result ≡ slot_to_mark call.now }
{
    match call {
        Some(x) => match x.call.judged {
            Judged::Bracket(Effect::NoSlot { slot }) => Some(slot),
            Judged::Bracket(Effect::Move { slot, .. }) => Some(slot),
            _ => None,
        },
        None => None,
    }
}

/// The caller's bracket begins, with the mark of the slot that it deletes or moves.
pub fn begin(core: &mut Core, c: u32)
    requires ready { IsReady core.old (Caller c) }
    requires at { IsAtStep None (caller_at core.old.callers c).call }
    ensures { Turned core.old core.new (Caller c) false }
{
    let marked = slot_to_mark(core.callers.call(c));
    let request = core.mmu.begin(core.callers.spans(c));
    let spans = core.callers.begin(c, request);
    note(core, Actor::Caller(c), What::Begin { spans });
    if let Some(slot) = marked {
        core.state.mark(slot);
        note(
            core,
            Actor::Caller(c),
            What::Change {
                effect: Effect::Mark { slot },
            },
        );
    }
}

/// Acknowledges the caller's bracket, or answers the least vCPU inside that hasn't flushed since it began.
pub fn acknowledge(core: &mut Core, c: u32) -> Option<u32>
    requires ready { IsReady core.old (Caller c) }
    requires at { IsAtStep (Some Begin) (caller_at core.old.callers c).call }
    ensures acked { IfNone result (Turned core.old core.new (Caller c) false) }
    ensures unblocked { IfNone result (IsBlocked (orders_of core.old) (Caller c) core.old.log.past → ⊥) }
    ensures waits { IfSome result (λ v. WaitsOnVcpu c v core.old.log.past) }
    ensures same { IfSome result (λ v. core.new ≡ core.old) }
{
    match core.mmu.all_in(core.callers.request(c)) {
        Some(v) => Some(v),
        None => {
            core.callers.step(c, Step::Acked);
            note(core, Actor::Caller(c), What::Acked);
            None
        }
    }
}

/// What the call in progress asked.
fn ioctl_of(call: &Option<InProgress>) -> Ioctl
    requires { IsSome call.now }
    ensures { result ≡ ioctl_in call.now }
{
    match call {
        Some(x) => x.call.ioctl,
        None => unreachable!(),
    }
}

/// The change that the call in progress makes in its bracket.
pub fn effect_of(call: &Option<InProgress>) -> Effect
    requires { IsAtStep (Some Acked) call.now }
    ensures { (effect : Effect) → IsAt effect (Some Acked) call.now → result ≡ effect }
{
    match call {
        Some(x) => match x.call.judged {
            Judged::Bracket(effect) => effect,
            _ => unreachable!(),
        },
        None => unreachable!(),
    }
}

/// The caller's bracket makes its change, and what nothing uses any more is freed.
pub fn change(core: &mut Core, c: u32)
    requires ready { IsReady core.old (Caller c) }
    requires at { IsAtStep (Some Acked) (caller_at core.old.callers c).call }
    ensures { Turned core.old core.new (Caller c) false }
{
    let ioctl = ioctl_of(core.callers.call(c));
    let effect = effect_of(core.callers.call(c));
    core.state.apply(&ioctl, &effect);
    core.callers.step(c, Step::Change);
    note(core, Actor::Caller(c), What::Change { effect });
    let turn = core.turns + 1;
    free_all(&mut core.log, turn, Actor::Caller(c), core.state.freed());
}

/// The caller's bracket ends, and its call is answered.
pub fn end(core: &mut Core, c: u32)
    requires ready { IsReady core.old (Caller c) }
    requires at { IsAtStep (Some Change) (caller_at core.old.callers c).call }
    ensures { Turned core.old core.new (Caller c) false }
{
    core.mmu.end();
    note(core, Actor::Caller(c), What::End);
    core.callers.answer(c);
    note(
        core,
        Actor::Caller(c),
        What::Answer {
            reply: Reply::Good(0),
        },
    );
}
