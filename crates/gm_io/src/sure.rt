//! Ends that never fail.

ghost use Rattle.std.specs.Prelude.{◌≡◌, ◌≤◌, ◌<◌, ◌+◌, ◌-◌, ℕ, [], length, IfOk, Some, min, take, drop, false, IsOk, if◌then◌else◌};
ghost use Rattle.std.specs.Io.{ReadsAtMost, WritesAtMost};
ghost use Rattle.std.specs.Io.KnownBytes.{ReadConsumes};
ghost use Rattle.gm_io.specs.Causes.{HasCause};
ghost use Rattle.gm_io.specs.Held.{PutGains};
ghost use Rattle.gm_io.specs.Ends.{Kept, told};

use crate::ends::{Failed, Sink, Source};
use gm_base::NoMemory;
use std::alloc::Global;
use std::marker::Model;

/// Borrowed bytes, which are taken without a fault.
#[derive(Drop)]
pub struct SureSource<'a> {
    rest: &'a [u8],
}

impl<'a> Model for SureSource<'a> {
    ghost use Rattle.std.specs.Prelude.{List, ℕ};

    ghost Value = { List ℕ };

    ghost view = { λ s. s.rest.now };
}

impl<'a> SureSource<'a> {
    /// A source of the bytes.
    pub fn new(bytes: &'a [u8]) -> SureSource<'a>
        ensures { result ≡ bytes.now }
    {
        SureSource { rest: bytes }
    }
}

impl Source for SureSource<'_> {
    ghost left = { λ s. Some s };

    ghost faults = { λ s. 0 };

    fn take(&mut self, into: &mut [u8]) -> Result<usize, Failed>
        ensures bound { ReadsAtMost result into.new }
        ensures bytes { ReadConsumes (Some self.old) (Some self.new) result into.new }
        ensures cause { HasCause 0 0 result }
        ensures sure { IsOk result }
        ensures most { IfOk result (λ n. n ≡ min (length self.old) (length into.new)) }
    {
        let count = self.rest.len().min(into.len());
        let (front, back) = self.rest.split_at(count);
        into[..count].copy_from_slice(front);
        self.rest = back;
        Ok(count)
    }
}

/// Bytes up to a capacity, which are put without a fault. What comes after is dropped, and then it tells nothing.
#[derive(Drop)]
pub struct SureSink {
    bytes: Vec<u8>,
    capacity: usize,
    lost: bool,
}

impl Model for SureSink {
    ghost use Rattle.std.specs.Prelude.{◌≤◌, vec_len, vec_capacity};
    ghost use Rattle.gm_io.specs.Ends.{Kept};

    ghost Value = { Kept };

    ghost view = { λ s. record { bytes = s.bytes.items; capacity = s.capacity; lost = s.lost } };

    ghost invariant = { λ s. (vec_len s.bytes ≤ s.capacity) × (s.capacity ≤ vec_capacity s.bytes) };
}

impl SureSink {
    /// An empty sink, which takes its room now.
    pub fn new(alloc: Global, capacity: u64) -> Result<SureSink, NoMemory>
        ensures { IfOk result (λ s. s ≡ record { bytes = []; capacity = capacity; lost = false }) }
    {
        let bytes = Vec::with_capacity(alloc, capacity as usize)?;
        Ok(SureSink {
            bytes,
            capacity: capacity as usize,
            lost: false,
        })
    }

    /// The bytes that it kept.
    pub fn held(&self) -> &[u8]
        ensures { result.now ≡ self.now.bytes }
    {
        &self.bytes
    }
}

impl Sink for SureSink {
    ghost held = { λ s. told s };

    ghost faults = { λ s. 0 };

    fn put(&mut self, bytes: &[u8]) -> Result<usize, Failed>
        ensures bound { WritesAtMost result bytes.now }
        ensures progress { IfOk result (λ n. 0 < length bytes.now → 0 < n) }
        ensures bytes { PutGains (told self.old) (told self.new) result bytes.now }
        ensures cause { HasCause 0 0 result }
        ensures all { IfOk result (λ n. n ≡ length bytes.now) }
        ensures sure { IsOk result }
        ensures told { length self.old.bytes + length bytes.now ≤ self.old.capacity → self.new.lost ≡ self.old.lost }
        ensures capacity { self.new.capacity ≡ self.old.capacity }
    {
        let count = bytes.len().min(self.capacity - self.bytes.len());
        if count < bytes.len() {
            self.lost = true;
        }
        match self.bytes.extend_from_slice(&bytes[..count]) {
            Ok(()) => Ok(bytes.len()),
            Err(_) => unreachable!(),
        }
    }
}
