//! What a machine tells of what its actors would do, and of its memory. Nothing here takes memory.

ghost use Rattle.std.specs.Prelude.{◌≡◌, ◌<◌, ◌↔◌, IfSome, IsTrue, is_some, true};
ghost use Rattle.gm_base.specs.Scripts.{IsOf, commands_of};
ghost use Rattle.gm_flat.specs.Attribute.{attr_of};
ghost use Rattle.gm_flat.specs.FlatState.{cached, in_use};
ghost use Rattle.gm_flat.specs.Histories.{call, fault};
ghost use Rattle.gm_flat.specs.Invalidation.{count};
ghost use Rattle.gm_flat.specs.Replay.{flat};
ghost use Rattle.gm_flat.specs.RightOrder.{Departs};
ghost use Rattle.gm_flat.specs.Slots.{slot_by_id, slot_over};
ghost use Rattle.gm_laws.specs.Counting.{ends};
ghost use Rattle.gm_machine.specs.Blockers.{BlockerGoesOn, blocker_in};
ghost use Rattle.gm_machine.specs.Steps.{Seen, StepsTo};
ghost use Rattle.gm_turns.specs.Waiting.{IsBlocker};
ghost use Rattle.gm_turns.specs.declared.outcome.How.TheVariants.{Next};
ghost use Rattle.gm_turns.specs.declared.outcome.Outcome.{Outcome};
ghost use Rattle.gm_vcpus.specs.Asks.{asked_in};

use crate::machine::Machine;
use gm_base::{Access, Actor, Command, Folio, Kind, Page};
use gm_flat::SlotView;
use gm_turns::{Blocker, blocker, has_command};

impl Machine {
    /// The commands of the actor, which must be one of the setup's: the script's, then those pushed.
    pub fn commands(&self, actor: Actor) -> &[Command]
        requires { IsOf self.now.orders.setup actor }
        ensures { result.now ≡ commands_of self.now.orders actor }
    {
        match actor {
            Actor::Vcpu(v) => self.core.vcpu_commands[v as usize].list(),
            Actor::Caller(c) => self.core.caller_commands[c as usize].list(),
        }
    }

    /// What the next turn of the actor, which must be one of the setup's, would wait for if it were taken now. None exactly
    /// where it would wait for nothing. Whom the actor waits for can go on.
    pub fn waits(&self, actor: Actor) -> Option<Blocker>
        requires { IsOf self.now.orders.setup actor }
        ensures blocker { IsBlocker self.now.orders actor self.now.past result }
        ensures turn { (new : Seen) (outcome : Outcome) → StepsTo self.now new actor Next outcome → result ≡ blocker_in outcome }
        ensures goes_on { IfSome result (BlockerGoesOn self.now) }
    {
        blocker(&self.core, actor)
    }

    /// Whether all commands of the actor, which must be one of the setup's, are ended and it hasn't written `gone`.
    pub fn idle(&self, actor: Actor) -> bool
        requires { IsOf self.now.orders.setup actor }
        ensures { IsTrue result ↔ Departs self.now.orders actor self.now.past }
    {
        !self.finished(actor) && !has_command(&self.core, actor)
    }

    /// Whether a call of the caller, which must be one of the setup's, is in progress.
    pub fn in_progress(&self, caller: u32) -> bool
        requires { caller < self.now.orders.setup.callers }
        ensures { result ≡ is_some (call caller self.now.past) }
    {
        self.core.callers.call(caller).is_some()
    }

    /// How many brackets are in progress.
    pub fn count(&self) -> u32
        ensures { result ≡ count self.now.past }
    {
        self.core.mmu.count()
    }

    /// The access of the vCPU's fault and the position after its miss, exactly where the vCPU's last entry, flushes
    /// aside, is a miss. The vCPU must be one of the setup's.
    pub fn asked(&self, vcpu: u32) -> Option<(Access, u64)>
        requires { vcpu < self.now.orders.setup.vcpus }
        ensures { result ≡ asked_in (fault vcpu self.now.past) }
    {
        self.core.vcpus.asked(vcpu)
    }

    /// How many brackets ended.
    pub fn sequence(&self) -> u64
        ensures { result ≡ ends self.now.past }
    {
        self.core.mmu.seq()
    }

    /// The attribute of a page.
    pub fn attribute(&self, page: Page) -> Kind
        ensures { result ≡ attr_of page (flat self.now.past).attrs }
    {
        self.core.state.kind(page)
    }

    /// The slot over a page. None exactly where none lies over it.
    pub fn slot(&self, page: Page) -> Option<SlotView>
        ensures { result ≡ slot_over (flat self.now.past).slots page }
    {
        self.core.state.find(page)
    }

    /// The slot with an id. None exactly where it doesn't exist.
    pub fn slot_by_id(&self, id: u32) -> Option<SlotView>
        ensures { result ≡ slot_by_id (flat self.now.past).slots id }
    {
        self.core.state.by_id(id)
    }

    /// Whether a file of this number was made and isn't shut.
    pub fn file_in_use(&self, file: u32) -> bool
        ensures { result ≡ in_use file (flat self.now.past).files }
    {
        self.core.state.is_used(file)
    }

    /// The folio that is cached at an index of a file. None exactly where the file isn't in use or nothing is cached there.
    pub fn cached(&self, file: u32, index: u64) -> Option<Folio>
        ensures cached { result ≡ cached file index (flat self.now.past).cache }
        ensures used { IfSome result (λ folio. in_use file (flat self.now.past).files ≡ true) }
    {
        self.core.state.cached(file, index)
    }
}
