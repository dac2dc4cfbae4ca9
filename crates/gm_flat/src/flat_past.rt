//! What the replay reads off the entries before.

ghost use Rattle.std.specs.Prelude.{◌≡◌, Some, reverse, IfOk, IfSome};
ghost use Rattle.gm_flat.specs.Histories.{call, fault, is_vcpu, is_caller};
ghost use Rattle.gm_flat.specs.Replay.{states, flat, flat_at, index_in, adds};
ghost use Rattle.gm_flat.specs.Slots.{slot_by_id};
ghost use Rattle.gm_flat.specs.Replayed.{InRange, change_in, glimpse_after, glimpse_of, judged_after, judged_of, run_gotten, run_glanced, run_of, run_paged, slot_glanced, within};

use crate::effect::{Backing, Effect};
use crate::entry::{Entry, What};
use crate::flat_items::FileState;
use crate::flat_lists::{find_id, index_at};
use crate::flat_runs::{Run, file_of_call, run_of_get, run_of_page};
use crate::flat_state::State;
use crate::views::SlotView;
use gm_base::{Actor, Folio, Ioctl, NoMemory};
use std::alloc::Global;

/// A Look: its own position, the position at which it was true, and the slot and the file that it names.
#[derive(Clone, Copy, Debug, PartialEq, Eq)]
pub(crate) struct Glance {
    pub(crate) place: u64,
    pub(crate) at: u64,
    pub(crate) slot: Option<u32>,
    pub(crate) file: Option<u32>,
}

/// A fault: the page of its access, and its last Look.
#[derive(Clone, Copy, Debug, PartialEq, Eq)]
pub(crate) struct Glimpse {
    pub(crate) page: u64,
    pub(crate) look: Option<Glance>,
}

/// A call in progress: the position of its Judge, and the call.
#[derive(Clone, Copy, Debug, PartialEq, Eq)]
pub(crate) struct Judged {
    pub(crate) at: u64,
    pub(crate) ioctl: Ioctl,
}

/// The effect of an entry, where it is a change.
pub(crate) fn change_of(entry: &Entry) -> Option<Effect>
    ensures { result ≡ change_in entry.now.what }
{
    match &entry.what {
        What::Change { effect } => Some(*effect),
        _ => None,
    }
}

/// The fault of a vCPU.
fn fault_of(entries: &[Entry], vcpu: u32) -> Option<Glimpse>
    ensures { result ≡ glimpse_of (fault vcpu (reverse entries.now)) }
{
    let mut fault = None;
    for (place, entry) in entries.iter().enumerate() {
        if is_of_vcpu(entry.actor, vcpu) {
            fault = glimpse_after(fault, &entry.what, place as u64);
        }
    }
    fault
}

/// Whether the actor is that vCPU.
fn is_of_vcpu(actor: Actor, vcpu: u32) -> bool
    ensures { result ≡ is_vcpu vcpu actor }
{
    match actor {
        Actor::Vcpu(number) => number == vcpu,
        Actor::Caller(_) => false,
    }
}

/// A fault after one more entry of its vCPU, which stands at a position.
fn glimpse_after(fault: Option<Glimpse>, what: &What, place: u64) -> Option<Glimpse>
    ensures { result ≡ glimpse_after what.now place fault }
{
    match what {
        What::Miss { access } => Some(Glimpse {
            page: access.page().number(),
            look: None,
        }),
        What::Look { at, slot, file, .. } => {
            let fault = fault?;
            let look = Glance {
                place,
                at: *at,
                slot: *slot,
                file: *file,
            };
            Some(Glimpse {
                page: fault.page,
                look: Some(look),
            })
        }
        What::Install { .. } | What::Retry | What::Left { .. } => None,
        _ => fault,
    }
}

/// The call of a caller that is in progress.
fn call_of(entries: &[Entry], caller: u32) -> Option<Judged>
    ensures { result ≡ judged_of (call caller (reverse entries.now)) }
{
    let mut call = None;
    for (place, entry) in entries.iter().enumerate() {
        if is_of_caller(entry.actor, caller) {
            call = judged_after(call, &entry.what, place as u64);
        }
    }
    call
}

/// Whether the actor is that caller.
fn is_of_caller(actor: Actor, caller: u32) -> bool
    ensures { result ≡ is_caller caller actor }
{
    match actor {
        Actor::Vcpu(_) => false,
        Actor::Caller(number) => number == caller,
    }
}

/// A call in progress after one more entry of its caller, which stands at a position.
fn judged_after(call: Option<Judged>, what: &What, place: u64) -> Option<Judged>
    ensures { result ≡ judged_after what.now place call }
{
    match what {
        What::Judge { call } => Some(Judged {
            at: place,
            ioctl: *call,
        }),
        What::Answer { .. } => None,
        _ => call,
    }
}

/// The slots after the first `at` entries.
fn slots_at(alloc: Global, entries: &[Entry], at: u64) -> Result<Vec<SlotView>, NoMemory>
    ensures { IfOk result (λ slots. slots.items ≡ (flat_at at (reverse entries.now)).slots) }
{
    let end = entries.len().min(at as usize);
    let state = slots_after(alloc, &entries[..end])?;
    Ok(state.slots)
}

/// A state with the slots and the files after some entries.
fn slots_after(alloc: Global, entries: &[Entry]) -> Result<State, NoMemory>
    ensures slots { IfOk result (λ state. state.slots.items ≡ (flat (reverse entries.now)).slots) }
    ensures files { IfOk result (λ state. state.files.items ≡ (flat (reverse entries.now)).files) }
{
    let mut state = State::new(alloc);
    for entry in entries {
        if let Some(effect) = change_of(entry) {
            state.apply(effect)?;
        }
    }
    Ok(state)
}

/// The index of a page in the slot that a Look names, in the slots at its `at`. None too where it is below 0 or above the
/// range of its type.
fn index_looked(
    alloc: Global,
    entries: &[Entry],
    look: &Glance,
    page: u64,
) -> Result<Option<u64>, NoMemory>
    ensures { IfOk result (λ index. index ≡ within (index_in page (slot_glanced look.now (states (reverse entries.now))))) }
{
    if look.at > look.place {
        return Ok(None);
    }
    let slots = slots_at(alloc, entries, look.at)?;
    match look.slot {
        Some(id) => Ok(index_by_id(&slots, id, page)),
        None => Ok(None),
    }
}

/// The index of a page in the slot with an id. None too where it is below 0 or above the range of
/// its type.
fn index_by_id(slots: &[SlotView], id: u32, page: u64) -> Option<u64>
    ensures { result ≡ within (index_in page (slot_by_id slots.now id)) }
{
    let slot = find_id(slots, id)?;
    index_at(&slot, page)
}

/// The run that a fault's Get of a folio adds.
fn run_by_get(
    alloc: Global,
    entries: &[Entry],
    vcpu: u32,
    folio: Folio,
    fresh: u16,
    files: &[FileState],
) -> Result<Option<Run>, NoMemory>
    requires { files.now ≡ (flat (reverse entries.now)).files }
    ensures run { IfOk result (λ run. run ≡ run_gotten folio fresh (glimpse_of (fault vcpu (reverse entries.now))) (states (reverse entries.now))) }
    ensures bounds { IfOk result (λ run. IfSome run InRange) }
{
    match fault_of(entries, vcpu) {
        Some(fault) => match fault.look {
            Some(look) => run_by_look(alloc, entries, &look, fault.page, folio, fresh, files),
            None => Ok(None),
        },
        None => Ok(None),
    }
}

/// The run that a Get of a folio adds after a Look.
fn run_by_look(
    alloc: Global,
    entries: &[Entry],
    look: &Glance,
    page: u64,
    folio: Folio,
    fresh: u16,
    files: &[FileState],
) -> Result<Option<Run>, NoMemory>
    requires { files.now ≡ (flat (reverse entries.now)).files }
    ensures run { IfOk result (λ run. run ≡ run_glanced folio fresh page (Some look.now) (states (reverse entries.now))) }
    ensures bounds { IfOk result (λ run. IfSome run InRange) }
{
    let index = index_looked(alloc, entries, look, page)?;
    match (look.file, index) {
        (Some(file), Some(index)) => Ok(run_of_get(folio, fresh, file, index, files)),
        _ => Ok(None),
    }
}

/// The run that a call's Page adds.
fn run_by_page(
    alloc: Global,
    entries: &[Entry],
    caller: u32,
    index: u64,
    folio: Folio,
    pages: u16,
    files: &[FileState],
) -> Result<Option<Run>, NoMemory>
    requires { files.now ≡ (flat (reverse entries.now)).files }
    ensures run { IfOk result (λ run. run ≡ run_paged index folio pages (judged_of (call caller (reverse entries.now))) (states (reverse entries.now))) }
    ensures bounds { IfOk result (λ run. IfSome run InRange) }
{
    match call_of(entries, caller) {
        Some(call) => {
            let slots = slots_at(alloc, entries, call.at)?;
            match file_of_call(&call.ioctl, index, &slots) {
                Some(file) => Ok(run_of_page(index, folio, pages, file, files)),
                None => Ok(None),
            }
        }
        None => Ok(None),
    }
}

/// The run that an entry adds after others.
pub(crate) fn run_of_entry(
    alloc: Global,
    entries: &[Entry],
    entry: &Entry,
    files: &[FileState],
) -> Result<Option<Run>, NoMemory>
    requires { files.now ≡ (flat (reverse entries.now)).files }
    ensures run { IfOk result (λ run. run ≡ run_of (adds entry.now.what entry.now.actor (reverse entries.now) (states (reverse entries.now)))) }
    ensures bounds { IfOk result (λ run. IfSome run InRange) }
{
    match (&entry.what, entry.actor) {
        (What::Get { backing, fresh }, Actor::Vcpu(vcpu)) => match *backing {
            Backing::Folio(folio) => run_by_get(alloc, entries, vcpu, folio, *fresh, files),
            Backing::User(_) => Ok(None),
        },
        (
            What::Page {
                index,
                folio,
                pages,
            },
            Actor::Caller(caller),
        ) => { run_by_page(alloc, entries, caller, *index, *folio, *pages, files) }
        _ => Ok(None),
    }
}
