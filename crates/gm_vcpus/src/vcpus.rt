//! The vCPUs.

ghost use Rattle.std.specs.Prelude.{◌≡◌, ◌+◌, ◌<◌, ◌^◌, IfOk, IsSome, length, replicate, slice_set};
ghost use Rattle.gm_vcpus.specs.Asks.{asked_by};
ghost use Rattle.gm_vcpus.specs.Vcpus.{no_vcpu, vcpu_at, missing, sampling, looking, getting, settled, touched, exited, leaving};

use crate::stage::{Stage, stage_of};
use crate::vcpu::Vcpu;
use gm_base::{Access, NoMemory};
use gm_fault::Ticket;
use gm_flat::{Backing, Looked, Sampled};
use std::alloc::Global;
use std::marker::Model;

/// The vCPUs by number.
#[derive(Drop)]
pub struct Vcpus {
    list: Vec<Vcpu>,
}

impl Model for Vcpus {
    ghost use Rattle.std.specs.Prelude.{List};
    ghost use Rattle.gm_vcpus.specs.declared.vcpu.Vcpu.{Vcpu};

    ghost Value = { List Vcpu };

    ghost view = { λ vs. vs.list.items };
}

impl Vcpus {
    /// As many vCPUs, none of which has done anything.
    pub fn new(alloc: Global, count: u32) -> Result<Vcpus, NoMemory>
        ensures { IfOk result (λ vs. vs ≡ replicate count no_vcpu) }
    {
        let idle = Vcpu {
            ended: 0,
            fault: None,
            missed: 0,
            gone: false,
        };
        let list = vec![in alloc; idle; count as usize]?;
        Ok(Vcpus { list })
    }

    /// The vCPU's fault in flight.
    pub fn fault(&self, v: u32) -> Option<Ticket>
        requires { v < length self.now }
        ensures { result ≡ (vcpu_at self.now v).fault }
    {
        self.list[v as usize].fault
    }

    /// The access of the vCPU's fault and the position right after its miss, where the fault has only missed.
    pub fn asked(&self, v: u32) -> Option<(Access, u64)>
        requires { v < length self.now }
        ensures { result ≡ asked_by (vcpu_at self.now v).fault (vcpu_at self.now v).missed }
    {
        let vcpu = &self.list[v as usize];
        match vcpu.fault {
            Some(ticket) => match stage_of(&ticket) {
                Stage::Missed => Some((ticket.access, vcpu.missed)),
                _ => None,
            },
            None => None,
        }
    }

    /// How many commands the vCPU has ended.
    pub fn ended(&self, v: u32) -> u64
        requires { v < length self.now }
        ensures { result ≡ (vcpu_at self.now v).ended }
    {
        self.list[v as usize].ended
    }

    /// Whether the vCPU has written `gone`.
    pub fn is_gone(&self, v: u32) -> bool
        requires { v < length self.now }
        ensures { result ≡ (vcpu_at self.now v).gone }
    {
        self.list[v as usize].gone
    }

    /// The vCPU's access is a fault now, and this is the position right after its miss.
    pub fn miss(&mut self, v: u32, access: Access, after: u64)
        requires { v < length self.old }
        ensures { self.new ≡ slice_set self.old v (missing (vcpu_at self.old v) access after) }
    {
        let vcpu = &mut self.list[v as usize];
        vcpu.fault = Some(Ticket {
            access,
            sampled: None,
            looked: None,
            backing: None,
        });
        vcpu.missed = after;
    }

    /// The vCPU's fault has sampled the sequence.
    pub fn sample(&mut self, v: u32, sampled: Sampled)
        requires actor { v < length self.old }
        requires in_flight { IsSome (vcpu_at self.old v).fault }
        ensures { self.new ≡ slice_set self.old v (sampling (vcpu_at self.old v) sampled) }
    {
        match &mut self.list[v as usize].fault {
            Some(ticket) => ticket.sampled = Some(sampled),
            None => unreachable!(),
        }
    }

    /// The vCPU's fault has looked up its page.
    pub fn look(&mut self, v: u32, looked: Looked)
        requires actor { v < length self.old }
        requires in_flight { IsSome (vcpu_at self.old v).fault }
        ensures { self.new ≡ slice_set self.old v (looking (vcpu_at self.old v) looked) }
    {
        match &mut self.list[v as usize].fault {
            Some(ticket) => ticket.looked = Some(looked),
            None => unreachable!(),
        }
    }

    /// The vCPU's fault has got its backing.
    pub fn get(&mut self, v: u32, backing: Backing)
        requires actor { v < length self.old }
        requires in_flight { IsSome (vcpu_at self.old v).fault }
        ensures { self.new ≡ slice_set self.old v (getting (vcpu_at self.old v) backing) }
    {
        match &mut self.list[v as usize].fault {
            Some(ticket) => ticket.backing = Some(backing),
            None => unreachable!(),
        }
    }

    /// The vCPU's fault is over: it has installed its leaf, or is tried again.
    pub fn settle(&mut self, v: u32)
        requires { v < length self.old }
        ensures { self.new ≡ slice_set self.old v (settled (vcpu_at self.old v)) }
    {
        self.list[v as usize].fault = None;
    }

    /// The vCPU's command has touched, and so ended.
    pub fn touch(&mut self, v: u32)
        requires actor { v < length self.old }
        requires bound { (vcpu_at self.old v).ended + 1 < 2 ^ 64 }
        ensures { self.new ≡ slice_set self.old v (touched (vcpu_at self.old v)) }
    {
        self.list[v as usize].ended += 1;
    }

    /// The vCPU's command has left the guest, and so ended with its fault.
    pub fn exit(&mut self, v: u32)
        requires actor { v < length self.old }
        requires bound { (vcpu_at self.old v).ended + 1 < 2 ^ 64 }
        ensures { self.new ≡ slice_set self.old v (exited (vcpu_at self.old v)) }
    {
        let vcpu = &mut self.list[v as usize];
        vcpu.fault = None;
        vcpu.ended += 1;
    }

    /// The vCPU has written `gone`.
    pub fn leave(&mut self, v: u32)
        requires { v < length self.old }
        ensures { self.new ≡ slice_set self.old v (leaving (vcpu_at self.old v)) }
    {
        self.list[v as usize].gone = true;
    }
}
