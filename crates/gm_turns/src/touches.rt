//! The turns of a vCPU inside the guest.

ghost use Rattle.std.specs.Prelude.{◌≡◌, ◌+◌, ◌-◌, ◌<◌, ◌≤◌, ◌∷◌, Some, None, true, false, length, nat_eq};
ghost use Rattle.gm_base.specs.declared.script.Command.TheVariants.{Touch as TouchCommand};
ghost use Rattle.gm_base.specs.declared.values.Actor.TheVariants.{Vcpu};
ghost use Rattle.gm_flat.specs.Mappings.{fills, first_serving, inside, leaves};
ghost use Rattle.gm_flat.specs.Replay.{flat};
ghost use Rattle.gm_flat.specs.RightOrder.{next_command};
ghost use Rattle.gm_laws.specs.May.{ServedBy};
ghost use Rattle.gm_mmu.specs.Served.{served};
ghost use Rattle.gm_state.specs.Accessing.{IsThere};
ghost use Rattle.gm_vcpus.specs.Vcpus.{vcpu_at};
ghost use Rattle.gm_turns.specs.Ready.{IsReady, Settled, Turned};
ghost use Rattle.gm_turns.specs.Room.{orders_of};
ghost use Rattle.gm_turns.specs.Touching.{touch_entry};

use crate::note::note;
use crate::parts::Core;
use gm_base::{Access, Actor, Folio, Place};
use gm_flat::{Backing, What};
use gm_tlb::Fill;

/// A touch where something serves the access, else a miss.
pub fn turn_inside(core: &mut Core, v: u32, access: Access)
    requires ready { IsReady core.old (Vcpu v) }
    requires no_fault { (vcpu_at core.old.vcpus v).fault ≡ None }
    requires is_inside { inside v core.old.log.past ≡ true }
    requires command { next_command (orders_of core.old) (Vcpu v) core.old.log.past ≡ Some (TouchCommand access) }
    ensures { Turned core.old core.new (Vcpu v) false }
{
    let at = core.log.position();
    match core.mmu.serve(v, &access, at) {
        Some(fill) => {
            if fill.at == at {
                touch_by_leaf(core, v, access, fill);
            } else {
                touch_by_fill(core, v, access, fill);
            }
        }
        None => miss(core, v, access),
    }
}

fn miss(core: &mut Core, v: u32, access: Access)
    requires ready { IsReady core.old (Vcpu v) }
    requires no_fault { (vcpu_at core.old.vcpus v).fault ≡ None }
    requires is_inside { inside v core.old.log.past ≡ true }
    requires command { next_command (orders_of core.old) (Vcpu v) core.old.log.past ≡ Some (TouchCommand access) }
    requires unserved { served core.old.mmu v access (length core.old.log.past) ≡ None }
    ensures { Turned core.old core.new (Vcpu v) false }
{
    let after = core.log.position() + 1;
    core.vcpus.miss(v, access, after);
    core.mmu.leave(v);
    note(core, Actor::Vcpu(v), What::Miss { access });
}

// A touch by a fill of the buffer.
fn touch_by_fill(core: &mut Core, v: u32, access: Access, fill: Fill)
    requires ready { IsReady core.old (Vcpu v) }
    requires is_inside { inside v core.old.log.past ≡ true }
    requires command { next_command (orders_of core.old) (Vcpu v) core.old.log.past ≡ Some (TouchCommand access) }
    requires hit { served core.old.mmu v access (length core.old.log.past) ≡ Some fill }
    requires older { nat_eq fill.at (length core.old.log.past) ≡ false }
    ensures { Turned core.old core.new (Vcpu v) false }
{
    let backing = backing_of(core, v, access, fill);
    let value = core.state.access(backing, access);
    core.vcpus.touch(v);
    note(core, Actor::Vcpu(v), touch_of(access, backing, value, fill));
}

// A touch by a leaf, which fills the buffer.
fn touch_by_leaf(core: &mut Core, v: u32, access: Access, fill: Fill)
    requires ready { IsReady core.old (Vcpu v) }
    requires is_inside { inside v core.old.log.past ≡ true }
    requires command { next_command (orders_of core.old) (Vcpu v) core.old.log.past ≡ Some (TouchCommand access) }
    requires walk { served core.old.mmu v access (length core.old.log.past) ≡ Some fill }
    requires here { fill.at ≡ length core.old.log.past }
    ensures { Turned core.old core.new (Vcpu v) false }
{
    let backing = backing_of(core, v, access, fill);
    let value = core.state.access(backing, access);
    core.vcpus.touch(v);
    core.mmu.fill(v, fill);
    note(core, Actor::Vcpu(v), touch_of(access, backing, value, fill));
}

// The entry of a touch.
fn touch_of(access: Access, backing: Backing, value: u64, fill: Fill) -> What
    ensures { result ≡ touch_entry access backing value fill }
{
    What::Touch {
        access,
        backing,
        level: fill.leaf.level,
        value,
        fill: fill.at,
    }
}

// What serves the access: a user page, or the live folio of the frame that the leaf has.
fn backing_of(core: &Core, v: u32, access: Access, fill: Fill) -> Backing
    requires settled { Settled core.now }
    requires actor { v < core.now.setup.vcpus }
    requires is_inside { inside v core.now.log.past ≡ true }
    requires serves { served core.now.mmu v access (length core.now.log.past) ≡ Some fill }
    ensures served_by { ServedBy access result fill.leaf.level fill.at (length core.now.log.past) (first_serving access (fills v core.now.log.past)) (first_serving access (leaves core.now.log.past)) }
    ensures there { IsThere core.now.setup.user result (flat core.now.log.past) }
{
    let offset = access.page().number() - fill.leaf.first;
    match fill.leaf.place {
        Place::User(first) => Backing::User(first + offset),
        Place::Frame(first) => {
            let frame = (first as u64 + offset) as u32;
            match core.state.serial_of(frame) {
                Some(serial) => Backing::Folio(Folio { serial, frame }),
                None => unreachable!(),
            }
        }
    }
}
