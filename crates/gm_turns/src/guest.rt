//! The turns of a vCPU that has no fault in flight.

ghost use Rattle.std.specs.Prelude.{◌≡◌, ◌<◌, None, true, false};
ghost use Rattle.gm_base.specs.declared.values.Actor.TheVariants.{Vcpu};
ghost use Rattle.gm_flat.specs.Mappings.{inside, pending};
ghost use Rattle.gm_flat.specs.RightOrder.{IsWaiting, next_command};
ghost use Rattle.gm_turns.specs.Ready.{IsReady, Turned};
ghost use Rattle.gm_turns.specs.Room.{orders_of};
ghost use Rattle.gm_vcpus.specs.Vcpus.{vcpu_at};

use crate::note::note;
use crate::parts::Core;
use gm_base::Actor;
use gm_flat::What;

/// A vCPU flushes.
pub fn flush(core: &mut Core, v: u32)
    requires ready { IsReady core.old (Vcpu v) }
    requires asked { pending v core.old.log.past ≡ true }
    ensures { Turned core.old core.new (Vcpu v) true }
{
    core.mmu.flush(v);
    note(core, Actor::Vcpu(v), What::Flush);
}

/// A vCPU enters the guest.
pub fn enter(core: &mut Core, v: u32)
    requires ready { IsReady core.old (Vcpu v) }
    requires outside { inside v core.old.log.past ≡ false }
    requires no_fault { (vcpu_at core.old.vcpus v).fault ≡ None }
    requires none_pending { pending v core.old.log.past ≡ false }
    requires waiting { IsWaiting (next_command (orders_of core.old) (Vcpu v) core.old.log.past) }
    ensures { Turned core.old core.new (Vcpu v) false }
{
    core.mmu.enter(v);
    note(core, Actor::Vcpu(v), What::Enter);
}

/// A flush that is pending is done before the vCPU enters, in one turn.
pub fn flush_and_enter(core: &mut Core, v: u32)
    requires ready { IsReady core.old (Vcpu v) }
    requires outside { inside v core.old.log.past ≡ false }
    requires no_fault { (vcpu_at core.old.vcpus v).fault ≡ None }
    requires asked { pending v core.old.log.past ≡ true }
    requires waiting { IsWaiting (next_command (orders_of core.old) (Vcpu v) core.old.log.past) }
    ensures { Turned core.old core.new (Vcpu v) false }
{
    core.mmu.flush(v);
    note(core, Actor::Vcpu(v), What::Flush);
    core.mmu.enter(v);
    note(core, Actor::Vcpu(v), What::Enter);
}

/// A vCPU with no command left says so, and is outside.
pub fn leave(core: &mut Core, v: u32)
    requires ready { IsReady core.old (Vcpu v) }
    requires present { (vcpu_at core.old.vcpus v).gone ≡ false }
    requires none_left { next_command (orders_of core.old) (Vcpu v) core.old.log.past ≡ None }
    ensures { Turned core.old core.new (Vcpu v) false }
{
    core.vcpus.leave(v);
    core.mmu.leave(v);
    note(core, Actor::Vcpu(v), What::Gone);
}
