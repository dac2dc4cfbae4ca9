//! The machine.

ghost use Rattle.std.specs.Prelude.{◌≡◌, ◌+◌, ◌-◌, ◌^◌, ◌<◌, ◌≤◌, true, false, [], length, reverse, OnOk, OnErr, IfOk};
ghost use Rattle.gm_base.specs.Scripts.{IsOf};
ghost use Rattle.gm_base.specs.declared.values.Actor.TheVariants.{Vcpu};
ghost use Rattle.gm_flat.specs.Histories.{gone};
ghost use Rattle.gm_flat.specs.InTypes.{AreInTypes};
ghost use Rattle.gm_flat.specs.Mappings.{pending};
ghost use Rattle.gm_flat.specs.RightHistory.{Right};
ghost use Rattle.gm_laws.specs.Turns.{IsNewTurn};
ghost use Rattle.gm_machine.specs.Deposits.{Deposits};
ghost use Rattle.gm_machine.specs.Flags.{flag_of, with_flag, no_flags};
ghost use Rattle.gm_machine.specs.Steps.{IsVcpu, StepsTo};
ghost use Rattle.gm_turns.specs.Depositing.{IsTrueSight};

use crate::flags::ActorFlags;
use gm_base::{Actor, NoMemory, Setup};
use gm_flat::{Entry, Sighting};
use gm_script::Script;
use gm_turns::{Core, How, Outcome, deposit, fresh, kick, make_room, take_turn};
use std::alloc::Global;
use std::marker::Model;

/// The core, whose history is right, and who has room for a turn.
#[derive(Drop)]
pub struct Machine {
    pub(crate) core: Core,
    pub(crate) room: ActorFlags,
}

impl Model for Machine {
    ghost use Rattle.gm_machine.specs.Steps.{Seen};

    ghost Value = { Seen };

    ghost use Rattle.gm_machine.specs.Room.{RoomIsKept};
    ghost use Rattle.gm_turns.specs.Ready.{Settled};
    ghost use Rattle.gm_turns.specs.Room.{orders_of};

    ghost view = { λ m. record { orders = orders_of m.core; past = m.core.log.past; turns = m.core.turns; room = m.room } };

    ghost invariant = { λ m. Settled m.core × RoomIsKept m.core m.room };
}

impl Machine {
    /// A machine with an empty history, and with the setup and the commands of the script. No actor has room.
    pub fn new(alloc: Global, script: &Script) -> Result<Machine, NoMemory>
        ensures { IfOk result (λ m. m ≡ record { orders = script.now.orders; past = []; turns = 0; room = no_flags script.now.orders.setup.vcpus script.now.orders.setup.callers }) }
    {
        let core = fresh(alloc, script)?;
        let setup = script.setup();
        let room = ActorFlags::new(alloc, setup.vcpus, setup.callers)?;
        Ok(Machine { core, room })
    }

    /// Makes room for one turn of the actor, which must be one of the setup's. After `NoMemory` contracts see the
    /// machine as before.
    pub fn make_room(&mut self, actor: Actor) -> Result<(), NoMemory>
        requires { IsOf self.old.orders.setup actor }
        ensures ok { OnOk result (self.new ≡ record self.old { room = with_flag self.old.room actor }) }
        ensures room { OnOk result (flag_of self.new.room actor ≡ true) }
        ensures err { OnErr result (self.new ≡ self.old) }
    {
        make_room(&mut self.core, actor)?;
        self.room.set(actor);
        Ok(())
    }

    /// Whether the actor, which must be one of the setup's, has room for a turn.
    pub fn has_room(&self, actor: Actor) -> bool
        requires { IsOf self.now.orders.setup actor }
        ensures { result ≡ flag_of self.now.room actor }
    {
        self.room.has(actor)
    }

    /// Takes the actor's next turn, or kicks a vCPU. It takes no memory. A turn that writes uses up all room.
    pub fn step(&mut self, actor: Actor, how: How) -> Outcome
        requires actor { IsOf self.old.orders.setup actor }
        requires room { flag_of self.old.room actor ≡ true }
        requires turns { self.old.turns < 2 ^ 64 - 1 }
        requires kick { how ≡ How.Kick → IsVcpu actor }
        ensures { StepsTo self.old self.new actor how result }
    {
        match how {
            How::Next => {
                match take_turn(&mut self.core, actor) {
                    Outcome::Moved => {
                        self.core.turns += 1;
                        self.room.clear();
                        Outcome::Moved
                    }
                    Outcome::Waits(blocker) => Outcome::Waits(blocker),
                    Outcome::Done => Outcome::Done,
                    Outcome::Nothing => unreachable!(),
                }
            }
            How::Kick => match actor {
                Actor::Vcpu(v) => {
                    if kick(&mut self.core, v) {
                        self.core.turns += 1;
                        self.room.clear();
                        Outcome::Moved
                    } else {
                        Outcome::Nothing
                    }
                }
                Actor::Caller(_) => unreachable!(),
            },
        }
    }

    /// Writes a sample and a look of a fault that has only missed, in one turn, and answers `Moved`. It takes no
    /// memory. The sighting may have been made earlier: it must be true of the vCPU's fault for positions from its miss
    /// on. The turn uses up all room.
    pub fn deposit(&mut self, vcpu: u32, sight: Sighting) -> Outcome
        requires actor { vcpu < self.old.orders.setup.vcpus }
        requires room { flag_of self.old.room (Vcpu vcpu) ≡ true }
        requires turns { self.old.turns < 2 ^ 64 - 1 }
        requires true_sight { IsTrueSight vcpu sight self.old.past }
        ensures outcome { result ≡ Outcome.Moved }
        ensures deposits { Deposits self.old self.new vcpu sight }
    {
        deposit(&mut self.core, vcpu, sight);
        self.core.turns += 1;
        self.room.clear();
        Outcome::Moved
    }

    /// Counts a turn that wrote nothing.
    pub fn blank(&mut self)
        requires { self.old.turns < 2 ^ 64 - 1 }
        ensures { self.new ≡ record self.old { turns = self.old.turns + 1 } }
    {
        self.core.turns += 1;
    }

    /// Whether the actor, which must be one of the setup's, has written `gone`.
    pub fn finished(&self, actor: Actor) -> bool
        requires { IsOf self.now.orders.setup actor }
        ensures { result ≡ gone actor self.now.past }
    {
        match actor {
            Actor::Vcpu(v) => self.core.vcpus.is_gone(v),
            Actor::Caller(c) => self.core.callers.is_gone(c),
        }
    }

    /// Whether a flush of the vCPU, which must be one of the setup's, is pending.
    pub fn flush_pending(&self, vcpu: u32) -> bool
        requires { vcpu < self.now.orders.setup.vcpus }
        ensures { result ≡ pending vcpu self.now.past }
    {
        self.core.mmu.pending(vcpu)
    }

    /// The history, the oldest entry first. It is right, its numbers are within the types of entries, and turns after it
    /// have greater numbers.
    pub fn history(&self) -> &[Entry]
        ensures history { self.now.past ≡ reverse result.now }
        ensures right { Right self.now.orders self.now.past }
        ensures in_types { AreInTypes result.now }
        ensures counted { IsNewTurn (self.now.turns + 1) self.now.past }
    {
        self.core.log.entries()
    }

    /// How many turns were taken or counted.
    pub fn turns(&self) -> u64
        ensures { result ≡ self.now.turns }
    {
        self.core.turns
    }

    /// The setup.
    pub fn setup(&self) -> Setup
        ensures { result ≡ self.now.orders.setup }
    {
        self.core.setup
    }
}
