//! What lies under the lock.

ghost use Rattle.std.specs.Prelude.{◌≡◌, ◌<◌, ◌≤◌, ℕ, [], false, true, IfOk, OnErr};
ghost use Rattle.gm_base.specs.Scripts.{IsOf};
ghost use Rattle.gm_base.specs.declared.values.Actor.{Actor};
ghost use Rattle.gm_base.specs.declared.values.Actor.TheVariants.{Caller, Vcpu};
ghost use Rattle.gm_flat.specs.Histories.{gone};
ghost use Rattle.gm_flat.specs.RightHistory.{Right};
ghost use Rattle.gm_machine.specs.Steps.{IsVcpu};
ghost use Rattle.gm_publish.specs.Counts.{CountedTo};
ghost use Rattle.gm_publish.specs.Publisheds.{StepsAs};
ghost use Rattle.gm_threads.specs.Turning.{Hands, IsAsked, TakesOne};

use crate::seats::Pause;
use gm_base::{Actor, NoMemory};
use gm_flat::{Sighting, What};
use gm_machine::{How, Machine, Outcome};
use gm_publish::Published;
use gm_views::Spy;
use std::marker::{Brand, Model, PhantomData};
use std::sync::Wait;

/// Whose turns they are: the setup and the commands. Each call of `run_actors` picks them.
pub trait Naming {
    ghost use Rattle.gm_base.specs.Scripts.{Orders};

    ghost orders: { Orders };
}

impl Naming for Brand {
    ghost use Rattle.std.specs.Prelude.{[], false};

    ghost orders = { record { setup = record { frames = 0; user = 0; vcpus = 0; callers = 0; huge = false }; vcpus = []; callers = [] } };
}

/// A machine with the setup and the commands of `J`, and its views; whether an actor found no memory, and whether some
/// actor waits for a turn of another. It is not `Drop`: end it by `into_machine`.
pub struct Held<J: Naming> {
    published: Published,
    stopped: bool,
    awaited: bool,
    of: PhantomData<J>,
}

impl<J: Naming> Model for Held<J> {
    ghost use Rattle.std.specs.Prelude.{◌≡◌};
    ghost use Rattle.gm_publish.specs.Publisheds.{PublishedSeen};

    ghost Value = { PublishedSeen };

    ghost view = { λ h. h.published };

    ghost invariant = { λ h. h.published.orders ≡ J.orders };
}

impl<J: Naming> Held<J> {
    /// Over what was published so far. No actor waits.
    pub fn new(published: Published) -> Held<J>
        requires { published.orders ≡ J.orders }
        ensures { result ≡ published }
    {
        Held {
            published,
            stopped: false,
            awaited: false,
            of: PhantomData,
        }
    }

    /// Takes the actor's next turn, or kicks the vCPU. After `NoMemory` the turn wasn't taken.
    pub fn step<R: Wait>(&mut self, rt: &R, actor: Actor, how: How) -> Result<Outcome, NoMemory>
        requires actor { IsOf J.orders.setup actor }
        requires kick { how ≡ How.Kick → IsVcpu actor }
        ensures step { IfOk result (λ outcome. StepsAs self.old self.new actor how outcome) }
        ensures err { OnErr result (self.new ≡ self.old) }
    {
        self.published.step(rt, actor, how)
    }

    // Hands in a sighting of the vCPU's fault, which has only missed.
    fn deposit(&mut self, vcpu: u32, sighting: Sighting) -> Result<Outcome, NoMemory>
        requires actor { vcpu < J.orders.setup.vcpus }
        requires asked { IsAsked vcpu self.old.past }
        ensures deposit { IfOk result (λ outcome. Hands self.old self.new vcpu outcome) }
        ensures err { OnErr result (self.new ≡ self.old) }
    {
        self.published.deposit(vcpu, sighting)
    }

    /// Takes one turn of the actor, the one of this hold. After `NoMemory` it wasn't taken.
    pub fn take_turn<R: Wait>(
        &mut self,
        rt: &R,
        actor: Actor,
        sighting: &mut Option<Sighting>,
    ) -> Result<Outcome, NoMemory>
        requires actor { IsOf J.orders.setup actor }
        ensures turn { IfOk result (λ outcome. TakesOne self.old self.new actor outcome) }
        ensures err { OnErr result (self.new ≡ self.old) }
    {
        match actor {
            Actor::Vcpu(v) => self.take_vcpu_turn(rt, v, sighting),
            Actor::Caller(_) => self.step(rt, actor, How::Next),
        }
    }

    // A kick where a flush is pending. Else the next turn, which hands the sighting in where there is one.
    fn take_vcpu_turn<R: Wait>(
        &mut self,
        rt: &R,
        v: u32,
        sighting: &mut Option<Sighting>,
    ) -> Result<Outcome, NoMemory>
        requires actor { v < J.orders.setup.vcpus }
        ensures turn { IfOk result (λ outcome. TakesOne self.old self.new (Vcpu v) outcome) }
        ensures err { OnErr result (self.new ≡ self.old) }
    {
        if self.published.machine().flush_pending(v) {
            return self.step(rt, Actor::Vcpu(v), How::Kick);
        }
        if let Some(seen) = sighting.take() {
            if self.published.machine().asked(v).is_some() {
                return self.deposit(v, seen);
            }
        }
        self.step(rt, Actor::Vcpu(v), How::Next)
    }

    /// What the actor of the newest entry does before its next turn.
    pub fn pause_after(&self) -> Pause {
        match self.published.machine().history().last() {
            Some(entry) => match entry.what {
                What::Miss { access } => Pause::Asks(access.page()),
                What::Sample { .. } => Pause::Passes(1),
                What::Look { .. } => Pause::Passes(2),
                What::Get { .. } => Pause::Passes(3),
                _ => Pause::GoesOn,
            },
            None => Pause::GoesOn,
        }
    }

    /// The reader learns what was published.
    pub fn tell(&mut self, spy: &mut Spy)
        ensures { self.new ≡ self.old }
    {
        self.published.tell(spy);
    }

    /// Notes that an actor found no memory.
    pub fn stop(&mut self)
        ensures { self.new ≡ self.old }
    {
        self.stopped = true;
    }

    /// Whether an actor found no memory.
    pub fn is_stopped(&self) -> bool {
        self.stopped
    }

    /// Notes that an actor waits, and is to be told of the next turn that writes.
    pub fn note_waiting(&mut self)
        ensures { self.new ≡ self.old }
    {
        self.awaited = true;
    }

    /// Whether some actor waits and is to be told now. All that wait are told at once, so none is noted after it.
    pub fn is_awaited(&mut self) -> bool
        ensures { self.new ≡ self.old }
    {
        let awaited = self.awaited;
        self.awaited = false;
        awaited
    }

    /// Whether each actor is gone.
    pub fn is_finished(&self) -> bool
        ensures { result ≡ true → (a : Actor) → IsOf J.orders.setup a → gone a self.now.past ≡ true }
    {
        let machine = self.published.machine();
        let setup = machine.setup();
        are_vcpus_gone(machine, setup.vcpus) && are_callers_gone(machine, setup.callers)
    }

    /// The machine.
    pub fn into_machine<R: Wait>(self, rt: &R) -> Machine
        ensures past { result.past ≡ self.past }
        ensures orders { result.orders ≡ J.orders }
        ensures right { Right J.orders result.past }
        ensures counted { CountedTo result.turns result.past }
    {
        let Held {
            published,
            stopped: _,
            awaited: _,
            of: _,
        } = self;
        published.into_machine(rt)
    }
}

fn are_vcpus_gone(machine: &Machine, vcpus: u32) -> bool
    requires { vcpus ≤ machine.now.orders.setup.vcpus }
    ensures { result ≡ true → (v : ℕ) → v < vcpus → gone (Vcpu v) machine.now.past ≡ true }
{
    for v in 0..vcpus {
        if !machine.finished(Actor::Vcpu(v)) {
            return false;
        }
    }
    true
}

fn are_callers_gone(machine: &Machine, callers: u32) -> bool
    requires { callers ≤ machine.now.orders.setup.callers }
    ensures { result ≡ true → (c : ℕ) → c < callers → gone (Caller c) machine.now.past ≡ true }
{
    for c in 0..callers {
        if !machine.finished(Actor::Caller(c)) {
            return false;
        }
    }
    true
}
