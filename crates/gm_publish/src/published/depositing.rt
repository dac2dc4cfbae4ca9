//! Sightings that are kept.

ghost use Rattle.std.specs.Prelude.{◌≡◌, ◌<◌, IfOk, IsSome, OnErr, OnOk};
ghost use Rattle.gm_flat.specs.Histories.{fault};
ghost use Rattle.gm_publish.specs.Publisheds.{DepositsAs};
ghost use Rattle.gm_publish.specs.Sightings.{present};
ghost use Rattle.gm_turns.specs.Depositing.{IsTrueSight};
ghost use Rattle.gm_turns.specs.declared.outcome.Outcome.{Outcome};
ghost use Rattle.gm_vcpus.specs.Asks.{asked_in};

use super::Published;
use super::judging::judge;
use gm_base::{Actor, NoMemory};
use gm_flat::Sighting;
use gm_machine::Outcome;

impl Published {
    /// Writes a sample and a look of a fault that has only missed, in one turn, and answers `Moved`: those of the
    /// sighting where it is true of the fault, for positions from its miss on, and else those of the present state. What
    /// a spy answered isn't trusted: the machine and the changes of the views tell whether it is true. After `NoMemory`
    /// nothing was written.
    pub fn deposit(&mut self, vcpu: u32, sight: Sighting) -> Result<Outcome, NoMemory>
        requires actor { vcpu < self.old.orders.setup.vcpus }
        requires asked { IsSome (asked_in (fault vcpu self.old.past)) }
        ensures outcome { IfOk result (λ outcome. outcome ≡ Outcome.Moved) }
        ensures kept { OnOk result (IsTrueSight vcpu sight self.old.past → DepositsAs self.old self.new vcpu sight) }
        ensures otherwise { OnOk result ((IsTrueSight vcpu sight self.old.past → ⊥) → DepositsAs self.old self.new vcpu (present vcpu self.old.past)) }
        ensures err { OnErr result (self.new ≡ self.old) }
    {
        let kept = judge(self.alloc, &self.machine, &self.kept, vcpu, sight)?;
        // As many turns as entries were taken at most, and a list is shorter than 2^63.
        let _entries = self.machine.history().len();
        self.machine.make_room(Actor::Vcpu(vcpu))?;
        Ok(self.machine.deposit(vcpu, kept))
    }
}
