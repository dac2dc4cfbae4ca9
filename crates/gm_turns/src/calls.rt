//! The turns of a caller outside a bracket.

ghost use Rattle.std.specs.Prelude.{◌≡◌, ◌+◌, ◌-◌, ◌^◌, ◌<◌, ◌≤◌, ℕ, IfNone, IfSome, None, Some, false, length};
ghost use Rattle.gm_base.specs.declared.script.Command.TheVariants.{Call as CallCommand};
ghost use Rattle.gm_base.specs.declared.numbers.TheConstants.{COUNTER_LIMIT};
ghost use Rattle.gm_base.specs.declared.values.Actor.TheVariants.{Caller};
ghost use Rattle.gm_base.specs.declared.values.Setup.{Setup};
ghost use Rattle.gm_callers.specs.Callers.{caller_at};
ghost use Rattle.gm_callers.specs.Holding.{is_holder};
ghost use Rattle.gm_callers.specs.Waiting.{WaitsOnCaller};
ghost use Rattle.gm_calls.specs.LockSets.{HasItsLocks};
ghost use Rattle.gm_flat.specs.Replay.{flat};
ghost use Rattle.gm_flat.specs.RightOrder.{IsBlocked, next_command};
ghost use Rattle.gm_flat.specs.declared.effect.Reply.TheVariants.{Good};
ghost use Rattle.gm_state.specs.Applying.{CanApply, HasRoomFor};
ghost use Rattle.gm_state.specs.Stand.{Applied, Memory};
ghost use Rattle.gm_turns.specs.Judging.{answered_now, changed_now, going_on};
ghost use Rattle.gm_turns.specs.Ready.{IsReady, Turned};
ghost use Rattle.gm_turns.specs.Room.{orders_of};

use crate::note::note;
use crate::parts::Core;
use gm_base::{Actor, Ioctl};
use gm_calls::{Call, Judged, LockSet, judge, locks};
use gm_flat::{Effect, Reply, Spans, What};

/// A caller with no command left says so.
pub fn leave(core: &mut Core, c: u32)
    requires ready { IsReady core.old (Caller c) }
    requires present { (caller_at core.old.callers c).gone ≡ false }
    requires none_left { next_command (orders_of core.old) (Caller c) core.old.log.past ≡ None }
    ensures { Turned core.old core.new (Caller c) false }
{
    core.callers.leave(c);
    note(core, Actor::Caller(c), What::Gone);
}

/// Judges the caller's next call, or answers the least other caller that holds a lock which the call needs.
pub fn judge_or_wait(core: &mut Core, c: u32, ioctl: &Ioctl) -> Option<u32>
    requires ready { IsReady core.old (Caller c) }
    requires idle { (caller_at core.old.callers c).call ≡ None }
    requires command { next_command (orders_of core.old) (Caller c) core.old.log.past ≡ Some (CallCommand ioctl.now) }
    ensures judged { IfNone result (Turned core.old core.new (Caller c) false) }
    ensures unblocked { IfNone result (IsBlocked (orders_of core.old) (Caller c) core.old.log.past → ⊥) }
    ensures waits { IfSome result (λ other. WaitsOnCaller (orders_of core.old) c other core.old.log.past) }
    ensures same { IfSome result (λ other. core.new ≡ core.old) }
{
    let needed = locks(&core.state.parts(core.setup), ioctl);
    match core.callers.holder(c, &needed) {
        Some(other) => Some(other),
        None => {
            judge_call(core, c, ioctl, needed);
            None
        }
    }
}

/// Judges the caller's next call, which may have these locks. It goes on, or is answered in the same turn.
fn judge_call(core: &mut Core, c: u32, ioctl: &Ioctl, needed: LockSet)
    requires ready { IsReady core.old (Caller c) }
    requires idle { (caller_at core.old.callers c).call ≡ None }
    requires command { next_command (orders_of core.old) (Caller c) core.old.log.past ≡ Some (CallCommand ioctl.now) }
    requires locks { HasItsLocks needed ioctl.now (flat core.old.log.past) }
    requires free { (other : ℕ) → is_holder core.old.callers c needed other ≡ false }
    ensures { Turned core.old core.new (Caller c) false }
{
    let mut spans = core.callers.take_spans(c);
    let judged = judge(&core.state.parts(core.setup), ioctl, &mut spans);
    match judged {
        Judged::Refused(errno) => answer_now(core, c, *ioctl, Reply::Bad(errno), spans),
        Judged::Same(answer) => answer_now(core, c, *ioctl, Reply::Good(answer), spans),
        Judged::Short(effect, answer) => change_now(core, c, *ioctl, effect, answer, spans),
        Judged::Bracket(_) => go_on(core, c, begin_call(*ioctl, needed, judged), Some(spans)),
        Judged::Pages(_) => {
            core.callers.give_back(spans);
            go_on(core, c, begin_call(*ioctl, needed, judged), None);
        }
    }
}

/// A call that has done no step after its judgement.
fn begin_call(ioctl: Ioctl, locks: LockSet, judged: Judged) -> Call
    ensures { result ≡ record { ioctl = ioctl; locks = locks; judged = judged; done = None; pages = 0; answered = false } }
{
    Call {
        ioctl,
        locks,
        judged,
        done: None,
        pages: 0,
        answered: false,
    }
}

/// A call is judged, and answered at once. Its spans are unused.
fn answer_now(core: &mut Core, c: u32, ioctl: Ioctl, reply: Reply, unused: Spans)
    requires actor { c < length core.old.callers }
    requires room { 2 ≤ core.old.log.spare }
    requires counted { core.old.turns < 2 ^ 64 - 1 }
    requires bound { (caller_at core.old.callers c).ended + 1 < 2 ^ 64 }
    ensures { core.new ≡ answered_now core.old c ioctl reply }
{
    core.callers.give_back(unused);
    note(core, Actor::Caller(c), What::Judge { call: ioctl });
    core.callers.answer(c);
    note(core, Actor::Caller(c), What::Answer { reply });
}

/// A call is judged, makes its change and is answered at once. Its spans are unused.
fn change_now(core: &mut Core, c: u32, ioctl: Ioctl, effect: Effect, answer: u64, unused: Spans)
    requires actor { c < length core.old.callers }
    requires room { 3 ≤ core.old.log.spare }
    requires counted { core.old.turns < 2 ^ 64 - 1 }
    requires bound { (caller_at core.old.callers c).ended + 1 < 2 ^ 64 }
    requires can { (s : Setup) × (m : Memory) × CanApply s core.old.state m ioctl effect }
    requires generation { core.old.state.slots.generation < COUNTER_LIMIT }
    requires fits { HasRoomFor core.old.state effect }
    ensures core { core.new ≡ changed_now core.old c ioctl effect core.new.state (Good answer) }
    ensures applied { (s : Setup) (m : Memory) → CanApply s core.old.state m ioctl effect → Applied s m effect core.new.state }
    ensures generation { core.new.state.slots.generation ≤ core.old.state.slots.generation + 1 }
{
    core.callers.give_back(unused);
    note(core, Actor::Caller(c), What::Judge { call: ioctl });
    core.state.apply(&ioctl, &effect);
    note(core, Actor::Caller(c), What::Change { effect });
    core.callers.answer(c);
    note(
        core,
        Actor::Caller(c),
        What::Answer {
            reply: Reply::Good(answer),
        },
    );
}

/// A call is judged, and goes on.
fn go_on(core: &mut Core, c: u32, call: Call, spans: Option<Spans>)
    requires actor { c < length core.old.callers }
    requires room { 1 ≤ core.old.log.spare }
    requires counted { core.old.turns < 2 ^ 64 - 1 }
    ensures { core.new ≡ going_on core.old c call spans }
{
    let ioctl = call.ioctl;
    core.callers.judge(c, call, spans);
    note(core, Actor::Caller(c), What::Judge { call: ioctl });
}
