//! The turn of a vCPU whose fault takes a sighting that was made earlier.

ghost use Rattle.std.specs.Prelude.{◌≡◌, ◌<◌};
ghost use Rattle.gm_base.specs.declared.values.Actor.TheVariants.{Vcpu};
ghost use Rattle.gm_turns.specs.Depositing.{Deposited, IsTrueSight};
ghost use Rattle.gm_turns.specs.Ready.{IsReady};

use crate::faults::look_of;
use crate::note::note;
use crate::parts::Core;
use gm_base::Actor;
use gm_flat::{Sighting, What};

/// A fault that has only missed samples and looks in one turn, as the sighting says, which is true for positions from
/// its miss on. The vCPU's room for a turn is enough.
pub fn deposit(core: &mut Core, v: u32, sight: Sighting)
    requires ready { IsReady core.old (Vcpu v) }
    requires true_sight { IsTrueSight v sight core.old.log.past }
    ensures { Deposited core.old core.new v sight }
{
    core.vcpus.sample(v, sight.sampled);
    note(
        core,
        Actor::Vcpu(v),
        What::Sample {
            at: sight.sampled.at,
        },
    );
    core.vcpus.look(v, sight.looked);
    note(core, Actor::Vcpu(v), look_of(sight.looked));
}
