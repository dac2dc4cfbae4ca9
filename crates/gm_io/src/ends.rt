//! The traits, and what is built on them.

ghost use Rattle.std.specs.Prelude.{◌≡◌, ◌+◌, ◌-◌, ◌<◌, ◌≤◌, ℕ, List, [], length, take, drop, IfOk, OnOk, MatchResult};
ghost use Rattle.std.specs.declared.option.Option.{Option};
ghost use Rattle.std.specs.Io.{ReadsAtMost, WritesAtMost};
ghost use Rattle.std.specs.Io.KnownBytes.{ReadConsumes};
ghost use Rattle.gm_io.specs.Causes.{HasCause};
ghost use Rattle.gm_io.specs.Held.{Gains, PutGains, Wrote};

use gm_base::Actor;

/// The object at the other end failed.
#[derive(Clone, Copy, Debug, PartialEq, Eq)]
pub struct Failed;

/// Bytes to be taken.
pub trait Source {
    // the bytes left, where it tells them
    ghost left: { Self → Option (List ℕ) };

    // how often it failed; it stays at the last value of a u64
    ghost faults: { Self → ℕ };

    /// Moves the first bytes left into the front of the slice, and tells how many. None into a slice that isn't
    /// empty is the end. It fails only where its count of faults rose, and takes nothing then.
    fn take(&mut self, into: &mut [u8]) -> Result<usize, Failed>
        ensures bound { ReadsAtMost result into.new }
        ensures bytes { ReadConsumes (left self.old) (left self.new) result into.new }
        ensures cause { HasCause (faults self.old) (faults self.new) result };
}

/// Bytes that were put.
pub trait Sink {
    // the bytes held, where it tells them
    ghost held: { Self → Option (List ℕ) };

    // how often it failed; it stays at the last value of a u64
    ghost faults: { Self → ℕ };

    /// Appends the first bytes, and tells how many: at least one where there is one. It fails only where its count
    /// of faults rose, and appends nothing then.
    fn put(&mut self, bytes: &[u8]) -> Result<usize, Failed>
        ensures bound { WritesAtMost result bytes.now }
        ensures progress { IfOk result (λ n. 0 < length bytes.now → 0 < n) }
        ensures bytes { PutGains (held self.old) (held self.new) result bytes.now }
        ensures cause { HasCause (faults self.old) (faults self.new) result };
}

/// A place at which a test may hold a thread. It answers nothing and promises nothing.
pub trait Gate {
    /// The actor passes the point.
    fn pass(&self, actor: Actor, point: u8);
}

/// The gate that returns at once.
#[derive(Clone, Copy, Debug, PartialEq, Eq)]
pub struct OpenGate;

impl Gate for OpenGate {
    fn pass(&self, _actor: Actor, _point: u8) {}
}

/// Puts all the bytes, in as many pieces as the sink wants. Where it fails, the sink has a front of them, never all.
pub fn put_all<K: Sink>(sink: &mut K, bytes: &[u8]) -> Result<(), Failed>
    ensures wrote { Wrote (K.held sink.old) (K.held sink.new) bytes.now result }
    ensures cause { HasCause (K.faults sink.old) (K.faults sink.new) result }
{
    let mut at = 0;
    put_rest(sink, bytes, &mut at)
}

/// Puts the bytes from `at` on, and moves `at` past those that the sink took: past all of them at Ok, and not past all
/// where the sink fails.
pub fn put_rest<K: Sink>(sink: &mut K, bytes: &[u8], at: &mut usize) -> Result<(), Failed>
    requires { at.old ≤ length bytes.now }
    ensures from { at.old ≤ at.new }
    ensures within { at.new ≤ length bytes.now }
    ensures gains { Gains (K.held sink.old) (K.held sink.new) (take (at.new - at.old) (drop at.old bytes.now)) }
    ensures all { MatchResult result (λ _. at.new ≡ length bytes.now) (λ _. at.new < length bytes.now) }
    ensures cause { HasCause (K.faults sink.old) (K.faults sink.new) result }
{
    while *at < bytes.len() {
        match sink.put(&bytes[*at..]) {
            Ok(count) => *at += count,
            Err(failed) => return Err(failed),
        }
    }
    Ok(())
}
