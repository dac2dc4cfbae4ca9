//! Ends in memory that fail where they are told.

ghost use Rattle.std.specs.Prelude.{◌≡◌, ◌≤◌, ◌<◌, ◌+◌, ◌-◌, ◌^◌, ◌↔◌, ◌⊎◌, ℕ, [], length, IfOk, OnOk, OnErr, IsErr, Some, drop, take, min, Contains};
ghost use Rattle.std.specs.Io.{ReadsAtMost, WritesAtMost};
ghost use Rattle.std.specs.Io.KnownBytes.{ReadConsumes};
ghost use Rattle.gm_io.specs.Causes.{HasCause};
ghost use Rattle.gm_io.specs.Held.{PutGains};

use crate::ends::{Failed, Sink, Source};
use gm_base::NoMemory;
use std::alloc::Global;
use std::marker::Model;

/// Bytes that are kept, and failures at the calls whose numbers, from 0, are listed.
#[derive(Drop)]
pub struct MemorySource {
    bytes: Vec<u8>,
    at: usize,
    fails: Vec<u64>,
    calls: u64,
    faults: u64,
}

impl Model for MemorySource {
    ghost use Rattle.std.specs.Prelude.{◌≤◌, drop, vec_len};
    ghost use Rattle.gm_io.specs.Ends.{Listed};

    ghost Value = { Listed };

    ghost view = { λ s. record { left = drop s.at s.bytes.items; fails = s.fails.items; calls = s.calls; faults = s.faults } };

    ghost invariant = { λ s. s.at ≤ vec_len s.bytes };
}

impl MemorySource {
    /// A source of the bytes, which fails at the listed calls.
    pub fn new(alloc: Global, bytes: &[u8], fails: &[u64]) -> Result<MemorySource, NoMemory>
        ensures { IfOk result (λ s. s ≡ record { left = bytes.now; fails = fails.now; calls = 0; faults = 0 }) }
    {
        let bytes = Vec::from_slice(alloc, bytes)?;
        let fails = Vec::from_slice(alloc, fails)?;
        Ok(MemorySource {
            bytes,
            at: 0,
            fails,
            calls: 0,
            faults: 0,
        })
    }

    /// How often it failed.
    pub fn faults(&self) -> u64
        ensures { result ≡ self.now.faults }
    {
        self.faults
    }
}

impl Source for MemorySource {
    ghost left = { λ s. Some s.left };

    ghost faults = { λ s. s.faults };

    fn take(&mut self, into: &mut [u8]) -> Result<usize, Failed>
        ensures bound { ReadsAtMost result into.new }
        ensures bytes { ReadConsumes (Some self.old.left) (Some self.new.left) result into.new }
        ensures cause { HasCause self.old.faults self.new.faults result }
        ensures listed { IsErr result ↔ Contains self.old.fails self.old.calls }
        ensures most { IfOk result (λ n. n ≡ min (length self.old.left) (length into.new)) }
        ensures fails { self.new.fails ≡ self.old.fails }
        ensures calls { self.new.calls ≡ min (self.old.calls + 1) (2 ^ 64 - 1) }
    {
        let call = self.calls;
        self.calls = call.saturating_add(1);
        if self.fails.contains(&call) {
            self.faults = self.faults.saturating_add(1);
            return Err(Failed);
        }
        let count = copy_front(&self.bytes[self.at..], into);
        self.at += count;
        Ok(count)
    }
}

// Copies as much of the front as there is room for.
fn copy_front(rest: &[u8], into: &mut [u8]) -> usize
    ensures count { result ≡ min (length rest.now) (length into.new) }
    ensures front { take result into.new ≡ take result rest.now }
    ensures end { result ≡ 0 → 0 < length into.new → rest.now ≡ [] }
{
    let count = rest.len().min(into.len());
    into[..count].copy_from_slice(&rest[..count]);
    count
}

/// Bytes up to a capacity. It fails at the calls whose numbers, from 0, are listed, and at a piece that isn't empty
/// where the capacity is reached.
#[derive(Drop)]
pub struct MemorySink {
    bytes: Vec<u8>,
    capacity: usize,
    fails: Vec<u64>,
    calls: u64,
    faults: u64,
}

impl Model for MemorySink {
    ghost use Rattle.std.specs.Prelude.{◌≤◌, vec_len, vec_capacity};
    ghost use Rattle.gm_io.specs.Ends.{Limited};

    ghost Value = { Limited };

    ghost view = { λ s. record { held = s.bytes.items; capacity = s.capacity; fails = s.fails.items; calls = s.calls; faults = s.faults } };

    ghost invariant = { λ s. (vec_len s.bytes ≤ s.capacity) × (s.capacity ≤ vec_capacity s.bytes) };
}

impl MemorySink {
    /// An empty sink, which takes its room now and fails at the listed calls.
    pub fn new(alloc: Global, capacity: u64, fails: &[u64]) -> Result<MemorySink, NoMemory>
        ensures { IfOk result (λ s. s ≡ record { held = []; capacity = capacity; fails = fails.now; calls = 0; faults = 0 }) }
    {
        let bytes = Vec::with_capacity(alloc, capacity as usize)?;
        let fails = Vec::from_slice(alloc, fails)?;
        Ok(MemorySink {
            bytes,
            capacity: capacity as usize,
            fails,
            calls: 0,
            faults: 0,
        })
    }

    /// The bytes that it took.
    pub fn held(&self) -> &[u8]
        ensures { result.now ≡ self.now.held }
    {
        &self.bytes
    }

    /// How often it failed.
    pub fn faults(&self) -> u64
        ensures { result ≡ self.now.faults }
    {
        self.faults
    }
}

impl Sink for MemorySink {
    ghost held = { λ s. Some s.held };

    ghost faults = { λ s. s.faults };

    fn put(&mut self, bytes: &[u8]) -> Result<usize, Failed>
        ensures bound { WritesAtMost result bytes.now }
        ensures progress { IfOk result (λ n. 0 < length bytes.now → 0 < n) }
        ensures bytes { PutGains (Some self.old.held) (Some self.new.held) result bytes.now }
        ensures cause { HasCause self.old.faults self.new.faults result }
        ensures most { IfOk result (λ n. n ≡ min (length bytes.now) (self.old.capacity - length self.old.held)) }
        ensures listed { Contains self.old.fails self.old.calls → IsErr result }
        ensures failed { OnErr result (Contains self.old.fails self.old.calls ⊎ (self.old.capacity ≤ length self.old.held)) }
        ensures capacity { self.new.capacity ≡ self.old.capacity }
        ensures fails { self.new.fails ≡ self.old.fails }
        ensures calls { self.new.calls ≡ min (self.old.calls + 1) (2 ^ 64 - 1) }
    {
        let call = self.calls;
        self.calls = call.saturating_add(1);
        let count = bytes.len().min(self.capacity - self.bytes.len());
        if self.fails.contains(&call) || (count == 0 && !bytes.is_empty()) {
            self.faults = self.faults.saturating_add(1);
            return Err(Failed);
        }
        match self.bytes.extend_from_slice(&bytes[..count]) {
            Ok(()) => Ok(count),
            Err(_) => unreachable!(),
        }
    }
}
