//! Whether a sighting is true of a fault.

ghost use Rattle.std.specs.Prelude.{◌≡◌, ◌<◌, ◌≤◌, ◌↔◌, IsTrue, IfOk, IsSome, take, length};
ghost use Rattle.gm_flat.specs.Attribute.{attr_of};
ghost use Rattle.gm_flat.specs.Histories.{fault};
ghost use Rattle.gm_flat.specs.Replay.{flat_at};
ghost use Rattle.gm_flat.specs.Slots.{slot_over};
ghost use Rattle.gm_laws.specs.Counting.{ends_at};
ghost use Rattle.gm_publish.specs.Kept.{IsKept};
ghost use Rattle.gm_publish.specs.Lookups.{view_by};
ghost use Rattle.gm_publish.specs.Sightings.{present, sight_of_page};
ghost use Rattle.gm_turns.specs.Depositing.{IsTrueOf, IsTrueSight};
ghost use Rattle.gm_vcpus.specs.Asks.{asked_in};
ghost use Rattle.gm_views.specs.Shows.{shown_after};

use crate::published::elsewhere::{attribute_after, leave_attribute, leave_slot};
use gm_base::{Access, Kind, NoMemory, Page};
use gm_flat::{Looked, Sampled, Sighting, SlotView};
use gm_machine::Machine;
use gm_views::{Change, look_after};
use std::alloc::Global;

/// The sighting where it is true of the vCPU's fault, which has only missed, and else that of the present state.
pub(super) fn judge(
    alloc: Global,
    machine: &Machine,
    kept: &[Change],
    vcpu: u32,
    sight: Sighting,
) -> Result<Sighting, NoMemory>
    requires actor { vcpu < machine.now.orders.setup.vcpus }
    requires asked { IsSome (asked_in (fault vcpu machine.now.past)) }
    requires kept { IsKept machine.now.past kept.now }
    ensures true_sight { IfOk result (λ s. IsTrueSight vcpu s machine.now.past) }
    ensures same { IfOk result (λ s. IsTrueSight vcpu sight machine.now.past → s ≡ sight) }
    ensures other { IfOk result (λ s. (IsTrueSight vcpu sight machine.now.past → ⊥) → s ≡ present vcpu machine.now.past) }
{
    let Some(asked) = machine.asked(vcpu) else {
        unreachable!()
    };
    let (access, missed) = asked;
    if is_true(alloc, machine, kept, access, missed, &sight)? {
        Ok(sight)
    } else {
        Ok(sight_now(machine, access.page()))
    }
}

// What is seen of a page now.
fn sight_now(machine: &Machine, page: Page) -> Sighting
    ensures { result ≡ sight_of_page page machine.now.past }
{
    let at = machine.history().len() as u64;
    Sighting {
        sampled: Sampled {
            at,
            seq: machine.sequence(),
        },
        looked: Looked {
            at,
            slot: machine.slot(page),
            attr: machine.attribute(page),
        },
    }
}

// Whether the sighting is true of a fault of this access, which missed right before this position.
fn is_true(
    alloc: Global,
    machine: &Machine,
    kept: &[Change],
    access: Access,
    missed: u64,
    sight: &Sighting,
) -> Result<bool, NoMemory>
    requires { IsKept machine.now.past kept.now }
    ensures { IfOk result (λ b. IsTrue b ↔ IsTrueOf sight.now access missed machine.now.past) }
{
    let length_now = machine.history().len() as u64;
    if sight.sampled.at < missed || sight.looked.at < sight.sampled.at {
        return Ok(false);
    }
    if length_now < sight.looked.at {
        return Ok(false);
    }
    if sequence_at(kept, sight.sampled.at) != sight.sampled.seq {
        return Ok(false);
    }
    let looked = look_at(alloc, machine, kept, sight.looked.at, access.page())?;
    Ok(is_same(&looked, &sight.looked))
}

// Whether two looks are one.
fn is_same(one: &Looked, other: &Looked) -> bool
    ensures { IsTrue result ↔ (one.now ≡ other.now) }
{
    one == other
}

// The look at a page that a position had.
fn look_at(
    alloc: Global,
    machine: &Machine,
    kept: &[Change],
    at: u64,
    page: Page,
) -> Result<Looked, NoMemory>
    requires { IsKept machine.now.past kept.now }
    ensures { IfOk result (λ l. l ≡ record { at = at; slot = slot_over (flat_at at machine.now.past).slots page; attr = attr_of page (flat_at at machine.now.past).attrs }) }
{
    let count = count_until(kept, at);
    let slot = slot_then(alloc, machine, kept, count, page)?;
    let attr = attribute_then(machine, kept, count, page);
    Ok(Looked { at, slot, attr })
}

// The slot over a page after so many views. Where what lies over the page now lay there before each later one, it is
// the machine's, and else the slots are made anew.
fn slot_then(
    alloc: Global,
    machine: &Machine,
    kept: &[Change],
    count: usize,
    page: Page,
) -> Result<Option<SlotView>, NoMemory>
    requires kept { IsKept machine.now.past kept.now }
    requires count { count ≤ length kept.now }
    ensures { IfOk result (λ slot. slot ≡ slot_over (shown_after (take count kept.now)).slots page) }
{
    let slot = machine.slot(page);
    if leave_slot(&kept[count..], slot) {
        return Ok(slot);
    }
    let look = look_after(alloc, &kept[..count], 0, page)?;
    Ok(look.slot)
}

// The attribute of a page after so many views. Where no later one sets it, it is the machine's, and else that of the
// last call before.
fn attribute_then(machine: &Machine, kept: &[Change], count: usize, page: Page) -> Kind
    requires kept { IsKept machine.now.past kept.now }
    requires count { count ≤ length kept.now }
    ensures { result ≡ attr_of page (shown_after (take count kept.now)).calls }
{
    if leave_attribute(&kept[count..], page) {
        machine.attribute(page)
    } else {
        attribute_after(&kept[..count], page)
    }
}

// The sequence of the last view whose position isn't after this one.
fn sequence_at(kept: &[Change], at: u64) -> u64
    ensures { result ≡ (view_by at kept.now).seq }
{
    let count = count_until(kept, at);
    if count == 0 {
        return 0;
    }
    kept[count - 1].seq
}

// How many views have a position that isn't after this one. It walks back over those after it alone.
fn count_until(kept: &[Change], at: u64) -> usize
    ensures count { result ≤ length kept.now }
    ensures view { view_by at kept.now ≡ shown_after (take result kept.now) }
{
    let mut count = kept.len();
    while count > 0 {
        if kept[count - 1].position <= at {
            return count;
        }
        count -= 1;
    }
    0
}
