//! A flag for each actor.

ghost use Rattle.std.specs.Prelude.{◌≡◌, ◌+◌, ◌<◌, IfOk, OnOk, length, replicate, true, false};
ghost use Rattle.gm_machine.specs.Flags.{no_flags, with_flag, flag_of, IsAmong};

use gm_base::{Actor, NoMemory};
use std::alloc::Global;
use std::marker::Model;

/// A flag for each vCPU and each caller.
#[derive(Drop)]
pub struct ActorFlags {
    vcpus: Vec<bool>,
    callers: Vec<bool>,
}

impl Model for ActorFlags {
    ghost use Rattle.gm_machine.specs.Flags.{Flags};

    ghost Value = { Flags };

    ghost view = { λ f. record { vcpus = f.vcpus.items; callers = f.callers.items } };
}

impl ActorFlags {
    /// No flag is set.
    pub fn new(alloc: Global, vcpus: u32, callers: u32) -> Result<ActorFlags, NoMemory>
        ensures { IfOk result (λ f. f ≡ no_flags vcpus callers) }
    {
        let vcpus = vec![in alloc; false; vcpus as usize]?;
        let callers = vec![in alloc; false; callers as usize]?;
        Ok(ActorFlags { vcpus, callers })
    }

    /// Whether the actor's flag is set.
    pub fn has(&self, actor: Actor) -> bool
        requires { IsAmong self.now actor }
        ensures { result ≡ flag_of self.now actor }
    {
        match actor {
            Actor::Vcpu(v) => self.vcpus[v as usize],
            Actor::Caller(c) => self.callers[c as usize],
        }
    }

    /// Sets the actor's flag.
    pub fn set(&mut self, actor: Actor)
        requires { IsAmong self.old actor }
        ensures flags { self.new ≡ with_flag self.old actor }
        ensures set { flag_of self.new actor ≡ true }
    {
        match actor {
            Actor::Vcpu(v) => self.vcpus[v as usize] = true,
            Actor::Caller(c) => self.callers[c as usize] = true,
        }
    }

    /// Takes all flags back.
    pub fn clear(&mut self)
        ensures { self.new ≡ no_flags (length self.old.vcpus) (length self.old.callers) }
    {
        lower(&mut self.vcpus);
        lower(&mut self.callers);
    }
}

fn lower(flags: &mut Vec<bool>)
    ensures { flags.new.items ≡ replicate (length flags.old.items) false }
{
    flags.fill(false);
}
