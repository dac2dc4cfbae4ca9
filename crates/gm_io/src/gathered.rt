//! Text that is gathered, so that a sink gets large pieces.

ghost use Rattle.std.specs.Prelude.{◌≡◌, ◌≤◌, ◌<◌, ◌+◌, ◌-◌, ℕ, List, [], ◌++◌, length, take, drop, IfOk, OnOk, OnErr, MatchResult};
ghost use Rattle.gm_io.specs.Causes.{HasCause};
ghost use Rattle.gm_io.specs.Adds.{Adds, outlet};
ghost use Rattle.gm_io.specs.Held.{Gains, PutGains, Grows, total};

use crate::ends::{Failed, Sink, put_rest};
use std::marker::Model;

const MOST_GATHERED: usize = 16_384;

/// Up to 16 KiB of text that waits to be put. It takes no memory.
#[derive(Drop)]
pub struct Gathered {
    bytes: [u8; MOST_GATHERED],
    // what waits lies from `start` on and below `end`
    start: usize,
    end: usize,
}

impl Model for Gathered {
    ghost use Rattle.std.specs.Prelude.{List, ℕ, ◌≤◌, take, drop};

    ghost Value = { List ℕ };

    ghost view = { λ g. drop g.start (take g.end g.bytes) };

    ghost invariant = { λ g. (g.start ≤ g.end) × (g.end ≤ 16384) };
}

impl Gathered {
    /// Nothing waits.
    pub fn new() -> Gathered
        ensures { result ≡ [] }
    {
        Gathered {
            bytes: [0; MOST_GATHERED],
            start: 0,
            end: 0,
        }
    }

    /// Appends the bytes. Where 16 KiB wait, they are put first. Where the sink fails, a front of the bytes was
    /// appended, and what the sink hasn't taken still waits.
    #[inline(always)]
    pub fn add<K: Sink>(&mut self, sink: &mut K, bytes: &[u8]) -> Result<(), Failed>
        ensures { Adds (outlet (K.held sink.old) self.old (K.faults sink.old)) (outlet (K.held sink.new) self.new (K.faults sink.new)) bytes.now result }
    {
        if bytes.len() <= MOST_GATHERED - self.end {
            write_at(&mut self.bytes, self.end, bytes);
            self.end += bytes.len();
            return Ok(());
        }
        self.add_by_parts(sink, bytes)
    }

    // Appends bytes that may need more room than there is.
    #[inline(never)]
    fn add_by_parts<K: Sink>(&mut self, sink: &mut K, bytes: &[u8]) -> Result<(), Failed>
        ensures { Adds (outlet (K.held sink.old) self.old (K.faults sink.old)) (outlet (K.held sink.new) self.new (K.faults sink.new)) bytes.now result }
    {
        let mut at = 0;
        while at < bytes.len() {
            match self.add_some(sink, &bytes[at..]) {
                Ok(count) => at += count,
                Err(failed) => return Err(failed),
            }
        }
        Ok(())
    }

    // Appends a front of the bytes, at least one where there is one.
    fn add_some<K: Sink>(&mut self, sink: &mut K, bytes: &[u8]) -> Result<usize, Failed>
        ensures bound { IfOk result (λ n. n ≤ length bytes.now) }
        ensures progress { IfOk result (λ n. 0 < length bytes.now → 0 < n) }
        ensures bytes { PutGains (total (K.held sink.old) self.old) (total (K.held sink.new) self.new) result bytes.now }
        ensures grows { Grows (K.held sink.old) (K.held sink.new) }
        ensures cause { HasCause (K.faults sink.old) (K.faults sink.new) result }
    {
        match make_room(sink, &self.bytes, &mut self.start, &mut self.end) {
            Ok(()) => {}
            Err(failed) => return Err(failed),
        }
        let count = bytes.len().min(MOST_GATHERED - self.end);
        write_at(&mut self.bytes, self.end, &bytes[..count]);
        self.end += count;
        Ok(count)
    }

    /// Puts all that waits. Where the sink fails, what it hasn't taken still waits, and that is at least one byte.
    pub fn put<K: Sink>(&mut self, sink: &mut K) -> Result<(), Failed>
        ensures same { Gains (total (K.held sink.old) self.old) (total (K.held sink.new) self.new) [] }
        ensures empty { MatchResult result (λ _. self.new ≡ []) (λ _. 0 < length self.new) }
        ensures grows { Grows (K.held sink.old) (K.held sink.new) }
        ensures cause { HasCause (K.faults sink.old) (K.faults sink.new) result }
    {
        put_waiting(sink, &self.bytes, &mut self.start, &mut self.end)
    }
}

// Puts the bytes from `start` on and below `end`, and begins anew where all were taken.
fn put_waiting<K: Sink>(
    sink: &mut K,
    bytes: &[u8],
    start: &mut usize,
    end: &mut usize,
) -> Result<(), Failed>
    requires ordered { start.old ≤ end.old }
    requires within { end.old ≤ length bytes.now }
    ensures same { Gains (total (K.held sink.old) (drop start.old (take end.old bytes.now))) (total (K.held sink.new) (drop start.new (take end.new bytes.now))) [] }
    ensures ordered { start.new ≤ end.new }
    ensures within { end.new ≤ end.old }
    ensures anew { MatchResult result (λ _. end.new ≡ 0) (λ _. start.new < end.new) }
    ensures grows { Grows (K.held sink.old) (K.held sink.new) }
    ensures cause { HasCause (K.faults sink.old) (K.faults sink.new) result }
{
    match put_rest(sink, &bytes[..*end], start) {
        Ok(()) => {
            *start = 0;
            *end = 0;
            Ok(())
        }
        Err(failed) => Err(failed),
    }
}

// Puts what waits where no byte more has room.
fn make_room<K: Sink>(
    sink: &mut K,
    bytes: &[u8],
    start: &mut usize,
    end: &mut usize,
) -> Result<(), Failed>
    requires ordered { start.old ≤ end.old }
    requires within { end.old ≤ length bytes.now }
    requires some { 0 < length bytes.now }
    ensures same { Gains (total (K.held sink.old) (drop start.old (take end.old bytes.now))) (total (K.held sink.new) (drop start.new (take end.new bytes.now))) [] }
    ensures ordered { start.new ≤ end.new }
    ensures within { end.new ≤ end.old }
    ensures room { OnOk result (end.new < length bytes.now) }
    ensures grows { Grows (K.held sink.old) (K.held sink.new) }
    ensures cause { HasCause (K.faults sink.old) (K.faults sink.new) result }
{
    if *end < bytes.len() {
        return Ok(());
    }
    put_waiting(sink, bytes, start, end)
}

// Writes the source over the bytes from an index on.
fn write_at(bytes: &mut [u8], at: usize, source: &[u8])
    requires { at + length source.now ≤ length bytes.old }
    ensures written { take (at + length source.now) bytes.new ≡ take at bytes.old ++ source.now }
{
    bytes[at..at + source.len()].copy_from_slice(source);
}
