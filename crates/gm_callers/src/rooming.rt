//! Room for a caller's next turn.

ghost use Rattle.std.specs.Prelude.{◌≡◌, ◌<◌, ◌≤◌, [], IfOk, OnErr, OnOk};
ghost use Rattle.gm_base.specs.declared.numbers.TheConstants.{SLOT_IDS};
ghost use Rattle.gm_callers.specs.Rooming.{IsEmptyOrRoomy, reserved, trimmed};

use crate::caller::{Caller, InProgress};
use gm_base::{NoMemory, SLOT_IDS};
use gm_flat::Spans;
use std::alloc::Global;

/// How many spans a list of this length has room for at most.
fn room_for(length: usize) -> u32
    ensures fits { length < 4294967296 → result ≡ length }
    ensures most { result ≤ length }
    ensures full { 4294967296 ≤ length → result ≡ 4294967295 }
{
    if length < 4294967296 {
        length as u32
    } else {
        u32::MAX
    }
}

/// The same spans, with no more room than they need.
fn fitted(alloc: Global, spans: &Spans) -> Result<Spans, NoMemory>
    ensures list { IfOk result (λ copy. copy.list ≡ spans.now.list) }
    ensures spare { IfOk result (λ copy. copy.spare ≡ 0) }
{
    let list = spans.list();
    let mut copy = Spans::new(alloc, room_for(list.len()))?;
    for span in list {
        copy.push(*span)?;
    }
    Ok(copy)
}

/// Where a bracket hasn't begun, its spans have no more room than they need: an entry keeps no spare memory. The list
/// that had more becomes the spare one.
fn trim(alloc: Global, x: &mut InProgress, spare: &mut Option<Spans>) -> Result<(), NoMemory>
    ensures ok { OnOk result (x.new ≡ trimmed x.old) }
    ensures err { OnErr result (x.new ≡ x.old) }
{
    if x.call.done.is_none() {
        if let Some(spans) = &x.spans {
            let copy = fitted(alloc, spans)?;
            *spare = x.spans.replace(copy);
        }
    }
    Ok(())
}

/// No span, with room for a judgement. Where there are spare spans they are used again.
fn emptied(alloc: Global, spare: &mut Option<Spans>) -> Result<Spans, NoMemory>
    ensures list { IfOk result (λ spans. spans.list ≡ []) }
    ensures room { IfOk result (λ spans. spans.spare ≡ SLOT_IDS) }
{
    match spare.take() {
        Some(mut spans) => {
            spans.renew(SLOT_IDS)?;
            Ok(spans)
        }
        None => Spans::new(alloc, SLOT_IDS),
    }
}

/// Makes room for the caller's next turn: for the judgement of its next call, or for the entry of its bracket.
pub fn make_room(
    alloc: Global,
    caller: &mut Caller,
    spare: &mut Option<Spans>,
) -> Result<(), NoMemory>
    requires { IsEmptyOrRoomy caller.old.spans }
    ensures ok { OnOk result (caller.new ≡ reserved caller.old) }
    ensures err { OnErr result (caller.new ≡ caller.old) }
{
    match &mut caller.call {
        Some(x) => trim(alloc, x, spare),
        None => {
            if caller.spans.is_none() {
                let spans = emptied(alloc, spare)?;
                caller.spans = Some(spans);
            }
            Ok(())
        }
    }
}
