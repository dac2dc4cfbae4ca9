//! Requests to flush, and who is inside the guest.

ghost use Rattle.std.specs.Prelude.{◌≡◌, ◌+◌, ◌<◌, ◌≤◌, IfOk, MatchOption, length, replicate, false, true};
ghost use Rattle.gm_base.specs.declared.numbers.TheConstants.{COUNTER_LIMIT};
ghost use Rattle.gm_tlb.specs.Requests.{outside, seat_of, with_seat, has_pending, waits_for, IsDoneByAll, IsLeastWaiting};

use gm_base::NoMemory;
use std::alloc::Global;
use std::marker::Model;

/// Whether a vCPU is inside the guest, and the number of the last request that it has done.
#[derive(Clone, Copy, Debug, PartialEq, Eq)]
pub struct Seat {
    pub inside: bool,
    pub done: u64,
}

/// Requests to flush, numbered from 1, and the vCPUs that they ask, numbered from 0.
#[derive(Debug, Drop)]
pub struct Ring {
    asked: u64,
    seats: Vec<Seat>,
}

impl Model for Ring {
    ghost use Rattle.std.specs.Prelude.{◌<◌, ◌^◌, length};
    ghost use Rattle.gm_tlb.specs.Requests.{Requests};

    ghost Value = { Requests };

    ghost view = { λ r. record { asked = r.asked; seats = r.seats.items } };

    ghost invariant = { λ r. length r.seats.items < 2 ^ 32 };
}

impl Ring {
    /// No request, and this many vCPUs, all outside.
    pub fn new(alloc: Global, vcpus: u32) -> Result<Ring, NoMemory>
        ensures { IfOk result (λ ring. ring ≡ record { asked = 0; seats = replicate vcpus outside }) }
    {
        let seat = Seat {
            inside: false,
            done: 0,
        };
        let seats = vec![in alloc; seat; vcpus as usize]?;
        Ok(Ring { asked: 0, seats })
    }

    /// Asks every vCPU to flush. The answer is the request's number.
    pub fn ask(&mut self) -> u64
        requires { self.old.asked < COUNTER_LIMIT }
        ensures number { result ≡ self.old.asked + 1 }
        ensures asked { self.new ≡ record { asked = self.old.asked + 1; seats = self.old.seats } }
    {
        self.asked += 1;
        self.asked
    }

    /// Whether the vCPU is inside the guest.
    pub fn inside(&self, v: u32) -> bool
        requires { v < length self.now.seats }
        ensures { result ≡ (seat_of self.now v).inside }
    {
        self.seats[v as usize].inside
    }

    /// Whether the vCPU hasn't done all requests.
    pub fn pending(&self, v: u32) -> bool
        requires { v < length self.now.seats }
        ensures { result ≡ has_pending self.now v }
    {
        self.seats[v as usize].done < self.asked
    }

    /// The vCPU has done all requests so far.
    pub fn done(&mut self, v: u32)
        requires { v < length self.old.seats }
        ensures { self.new ≡ with_seat self.old v (record { inside = (seat_of self.old v).inside; done = self.old.asked }) }
    {
        self.seats[v as usize].done = self.asked;
    }

    /// The vCPU goes inside. It has done all requests.
    pub fn enter(&mut self, v: u32)
        requires seat { v < length self.old.seats }
        requires nothing_pending { has_pending self.old v ≡ false }
        ensures { self.new ≡ with_seat self.old v (record { inside = true; done = (seat_of self.old v).done }) }
    {
        self.seats[v as usize].inside = true;
    }

    /// The vCPU goes outside.
    pub fn leave(&mut self, v: u32)
        requires { v < length self.old.seats }
        ensures { self.new ≡ with_seat self.old v (record { inside = false; done = (seat_of self.old v).done }) }
    {
        self.seats[v as usize].inside = false;
    }

    /// The least vCPU that is inside and hasn't done this request. None exactly where there is none.
    pub fn all_in(&self, r: u64) -> Option<u32>
        ensures { MatchOption result (IsDoneByAll self.now r) (IsLeastWaiting self.now r) }
    {
        for (v, seat) in self.seats.iter().enumerate() {
            if seat.inside && seat.done < r {
                return Some(v as u32);
            }
        }
        None
    }
}
