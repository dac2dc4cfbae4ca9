//! The turns of a vCPU that has a fault in flight.

ghost use Rattle.std.specs.Prelude.{◌≡◌, ◌<◌, Some, None, true, false};
ghost use Rattle.gm_base.specs.declared.values.Actor.TheVariants.{Vcpu};
ghost use Rattle.gm_fault.specs.declared.routes.Route.TheVariants as to;
ghost use Rattle.gm_flat.specs.FlatState.{cached, in_use};
ghost use Rattle.gm_flat.specs.Replay.{flat};
ghost use Rattle.gm_flat.specs.RightLives.{frame_of};
ghost use Rattle.gm_flat.specs.RightLook.{id_of, file_of};
ghost use Rattle.gm_flat.specs.declared.effect.Backing.TheVariants as place;
ghost use Rattle.gm_flat.specs.declared.entry.What.TheVariants as what;
ghost use Rattle.gm_laws.specs.May.{May};
ghost use Rattle.gm_turns.specs.Faulting.{HasGot, HasLooked, HasRoute, IsAtStage, IsSampled, IsStale};
ghost use Rattle.gm_turns.specs.Ready.{IsReady, Turned};
ghost use Rattle.gm_turns.specs.Room.{orders_of};
ghost use Rattle.gm_vcpus.specs.Puts.{may_be_written};
ghost use Rattle.gm_vcpus.specs.Sights.{look_entry};
ghost use Rattle.gm_vcpus.specs.Stages.{stage_of};
ghost use Rattle.gm_vcpus.specs.Vcpus.{vcpu_at};
ghost use Rattle.gm_vcpus.specs.declared.stage.Stage.TheVariants as at;

use crate::note::note;
use crate::parts::Core;
use gm_base::{Access, Actor, Folio, KVM_MEM_READONLY, Kind, Page};
use gm_fault::{Route, Ticket, decide};
use gm_flat::{Backing, Exit, Looked, Sampled, SlotView, What};
use gm_mapping::leaf_of;
use gm_vcpus::{Stage, stage_of};

/// Takes the next turn of a vCPU with this fault in flight.
pub fn fault_turn(core: &mut Core, v: u32, ticket: Ticket)
    requires ready { IsReady core.old (Vcpu v) }
    requires held { (vcpu_at core.old.vcpus v).fault ≡ Some ticket }
    ensures { Turned core.old core.new (Vcpu v) false }
{
    match stage_of(&ticket) {
        Stage::Missed => sample(core, v),
        Stage::Sampled(sampled) => look(core, v, ticket.access.page(), sampled),
        Stage::Looked(_, looked) => match decide(&looked, &ticket.access) {
            Route::Exit(why) => exit(core, v, why),
            Route::User(page) => get_user(core, v, page),
            Route::File(file, index) => get_file(core, v, file, index),
            Route::Again => again(core, v),
        },
        Stage::Got(sampled, _, backing) => {
            if core.mmu.stale(sampled.seq, ticket.access.page()) {
                retry(core, v, backing)
            } else {
                install(core, v, ticket.access, backing)
            }
        }
    }
}

// The fault samples the sequence.
fn sample(core: &mut Core, v: u32)
    requires ready { IsReady core.old (Vcpu v) }
    requires missed { IsAtStage (vcpu_at core.old.vcpus v).fault at.Missed }
    ensures { Turned core.old core.new (Vcpu v) false }
{
    let at = core.log.position();
    let sampled = Sampled {
        at,
        seq: core.mmu.seq(),
    };
    core.vcpus.sample(v, sampled);
    note(core, Actor::Vcpu(v), What::Sample { at });
}

// The fault looks up its page.
fn look(core: &mut Core, v: u32, page: Page, sampled: Sampled)
    requires ready { IsReady core.old (Vcpu v) }
    requires sampled { IsSampled (vcpu_at core.old.vcpus v).fault page sampled }
    ensures { Turned core.old core.new (Vcpu v) false }
{
    let looked = Looked {
        at: core.log.position(),
        slot: core.state.find(page),
        attr: core.state.kind(page),
    };
    core.vcpus.look(v, looked);
    note(core, Actor::Vcpu(v), look_of(looked));
}

// The entry of a look.
pub(crate) fn look_of(looked: Looked) -> What
    ensures { result ≡ look_entry looked }
{
    What::Look {
        at: looked.at,
        slot: id_of(looked.slot),
        attr: looked.attr,
        file: file_of(looked.slot),
    }
}

// The number of a slot.
fn id_of(slot: Option<SlotView>) -> Option<u32>
    ensures { result ≡ id_of slot }
{
    match slot {
        Some(slot) => Some(slot.id),
        None => None,
    }
}

// The file of a slot.
fn file_of(slot: Option<SlotView>) -> Option<u32>
    ensures { result ≡ file_of slot }
{
    match slot {
        Some(slot) => slot.file,
        None => None,
    }
}

// The access leaves the guest, and its command ends.
fn exit(core: &mut Core, v: u32, why: Exit)
    requires ready { IsReady core.old (Vcpu v) }
    requires looked { HasLooked (vcpu_at core.old.vcpus v).fault }
    requires may { May (orders_of core.old) (what.Left why) (Vcpu v) core.old.log.past }
    ensures { Turned core.old core.new (Vcpu v) false }
{
    core.vcpus.exit(v);
    note(core, Actor::Vcpu(v), What::Left { why });
}

// The fault, which has got nothing, ends, and its command is tried again.
fn again(core: &mut Core, v: u32)
    requires ready { IsReady core.old (Vcpu v) }
    requires looked { HasLooked (vcpu_at core.old.vcpus v).fault }
    requires may { May (orders_of core.old) what.Retry (Vcpu v) core.old.log.past }
    ensures { Turned core.old core.new (Vcpu v) false }
{
    core.vcpus.settle(v);
    note(core, Actor::Vcpu(v), What::Retry);
}

// The fault gets the user page of its route.
fn get_user(core: &mut Core, v: u32, page: u64)
    requires ready { IsReady core.old (Vcpu v) }
    requires route { HasRoute (vcpu_at core.old.vcpus v).fault (to.User page) }
    ensures { Turned core.old core.new (Vcpu v) false }
{
    let backing = Backing::User(page);
    core.vcpus.get(v, backing);
    note(core, Actor::Vcpu(v), What::Get { backing, fresh: 0 });
}

// The fault gets a folio that is cached, and holds it.
fn get_cached(core: &mut Core, v: u32, folio: Folio)
    requires ready { IsReady core.old (Vcpu v) }
    requires looked { HasLooked (vcpu_at core.old.vcpus v).fault }
    requires live { frame_of folio.serial (flat core.old.log.past).folios ≡ Some folio.frame }
    requires may { May (orders_of core.old) (what.Get (place.Folio folio) 0) (Vcpu v) core.old.log.past }
    ensures { Turned core.old core.new (Vcpu v) false }
{
    let backing = Backing::Folio(folio);
    core.state.hold(folio);
    core.vcpus.get(v, backing);
    note(core, Actor::Vcpu(v), What::Get { backing, fresh: 0 });
}

// The fault gets the folio of a first use of an index, or its access leaves the guest for want of a frame.
fn get_new(core: &mut Core, v: u32, file: u32, index: u64)
    requires ready { IsReady core.old (Vcpu v) }
    requires route { HasRoute (vcpu_at core.old.vcpus v).fault (to.File file index) }
    requires used { in_use file (flat core.old.log.past).files ≡ true }
    requires free { cached file index (flat core.old.log.past).cache ≡ None }
    ensures { Turned core.old core.new (Vcpu v) false }
{
    match core.state.first_use(file, index) {
        Some(used) => {
            let backing = Backing::Folio(used.own);
            core.vcpus.get(v, backing);
            note(
                core,
                Actor::Vcpu(v),
                What::Get {
                    backing,
                    fresh: used.pages,
                },
            );
        }
        None => exit(core, v, Exit::NoFrame),
    }
}

// The fault gets the page of its file at an index, or is tried again where the file was shut.
fn get_file(core: &mut Core, v: u32, file: u32, index: u64)
    requires ready { IsReady core.old (Vcpu v) }
    requires route { HasRoute (vcpu_at core.old.vcpus v).fault (to.File file index) }
    ensures { Turned core.old core.new (Vcpu v) false }
{
    if core.state.is_used(file) {
        match core.state.cached(file, index) {
            Some(folio) => get_cached(core, v, folio),
            None => get_new(core, v, file, index),
        }
    } else {
        again(core, v)
    }
}

// Whether guests may write a page of this kind under this slot.
fn is_writable(kind: Kind, slot: Option<SlotView>) -> bool
    ensures { result ≡ may_be_written kind slot }
{
    match (kind, slot) {
        (Kind::Private, _) => true,
        (Kind::Shared, None) => false,
        (Kind::Shared, Some(slot)) => slot.flags & KVM_MEM_READONLY == 0,
    }
}

// The fault installs its leaf, and its hold ends. What is mapped is cached, so nothing is freed.
fn install(core: &mut Core, v: u32, access: Access, backing: Backing)
    requires ready { IsReady core.old (Vcpu v) }
    requires got { HasGot (vcpu_at core.old.vcpus v).fault access backing core.old.mmu.progress false }
    ensures { Turned core.old core.new (Vcpu v) false }
{
    let (page, kind) = (access.page(), access.kind());
    let level = core.state.level(core.setup.huge, page, core.mmu.hull());
    let writable = is_writable(kind, core.state.find(page));
    core.mmu
        .install(leaf_of(level, page, kind, backing, writable));
    core.state.release(backing);
    core.vcpus.settle(v);
    note(core, Actor::Vcpu(v), What::Install { page, level });
}

// A fault that is stale ends, and its command is tried again. The folio whose last hold ends so is freed, where it
// isn't cached.
fn retry(core: &mut Core, v: u32, backing: Backing)
    requires ready { IsReady core.old (Vcpu v) }
    requires stale { IsStale (vcpu_at core.old.vcpus v).fault backing core.old.mmu.progress }
    ensures { Turned core.old core.new (Vcpu v) false }
{
    let freed = core.state.release(backing);
    core.vcpus.settle(v);
    note(core, Actor::Vcpu(v), What::Retry);
    match freed {
        Some(folio) => note(core, Actor::Vcpu(v), What::Free { folio, pages: 1 }),
        None => {}
    }
}
