//! What is done with the readers of the vCPUs.

ghost use Rattle.std.specs.Prelude.{◌≡◌, ◌<◌, ◌≤◌, ◌⊎◌, true, false, None, Some, replicate, slice_get, slice_set, OnSome, IfSome, IfNone};
ghost use Rattle.gm_base.specs.declared.numbers.TheConstants.{MOST_VCPUS};
ghost use Rattle.gm_views.specs.Doors.{Rose};
ghost use Rattle.gm_views.specs.Spies.{untold};

use super::Spies;
use crate::doors::Doors;
use crate::spy::Spy;
use gm_base::MOST_VCPUS;

impl Spies {
    /// The readers of so many vCPUs, none taken yet.
    pub fn new(doors: Doors, vcpus: u32) -> Spies
        requires { vcpus ≤ MOST_VCPUS }
        ensures { result ≡ record { refused = doors; vcpus = vcpus; given = replicate MOST_VCPUS false } }
    {
        Spies {
            doors,
            vcpus,
            given: [false; MOST_VCPUS as usize],
        }
    }

    /// The vCPU's reader. None comes only where it was taken before, or where the count of the refused rose.
    pub fn take(&mut self, vcpu: u32) -> Option<Spy>
        requires { vcpu < self.old.vcpus }
        ensures first { IfSome result (λ s. slice_get self.old.given vcpu ≡ Some false) }
        ensures some { IfSome result (λ s. (s ≡ untold) × (self.new ≡ record self.old { given = slice_set self.old.given vcpu true })) }
        ensures none { IfNone result ((slice_get self.old.given vcpu ≡ Some true) ⊎ Rose self.old.refused self.new.refused) }
        ensures kept { IfNone result (self.new ≡ record self.old { refused = self.new.refused }) }
    {
        if self.given[vcpu as usize] {
            return None;
        }
        let door = self.doors.open()?;
        self.given[vcpu as usize] = true;
        Some(Spy::new(door))
    }

    /// How often a reader was refused, at most 2^64 - 1.
    pub fn refused(&self) -> u64
        ensures { result ≡ self.now.refused }
    {
        self.doors.refused()
    }
}
