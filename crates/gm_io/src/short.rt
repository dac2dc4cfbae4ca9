//! Ends that pass on short pieces, as a pipe or a socket may.

ghost use Rattle.std.specs.Prelude.{◌≡◌, ◌<◌, ◌≤◌, ℕ, length, IfOk, take, min};
ghost use Rattle.std.specs.Io.{ReadsAtMost, WritesAtMost};
ghost use Rattle.std.specs.Io.KnownBytes.{ReadConsumes};
ghost use Rattle.gm_io.specs.Causes.{HasCause};
ghost use Rattle.gm_io.specs.Held.{PutGains};

use crate::ends::{Failed, Sink, Source};
use std::marker::Model;

/// A source that asks another one for at most so many bytes at a time.
#[derive(Drop)]
pub struct ShortSource<S> {
    inner: S,
    most: u32,
}

impl<S> Model for ShortSource<S> {
    ghost use Rattle.std.specs.Prelude.{◌<◌};
    ghost use Rattle.gm_io.specs.Ends.{Short};

    ghost Value = { Short S };

    ghost view = { λ s. record { inner = s.inner; most = s.most } };

    ghost invariant = { λ s. 0 < s.most };
}

impl<S: Source> ShortSource<S> {
    /// What the source has, in pieces of at most so many bytes.
    pub fn new(inner: S, most: u32) -> ShortSource<S>
        requires { 0 < most }
        ensures { result ≡ record { inner = inner; most = most } }
    {
        ShortSource { inner, most }
    }

    /// The source that is asked.
    pub fn inner(&self) -> &S
        ensures { result.now ≡ self.now.inner }
    {
        &self.inner
    }
}

impl<S: Source> Source for ShortSource<S> {
    ghost left = { λ s. S.left s.inner };

    ghost faults = { λ s. S.faults s.inner };

    fn take(&mut self, into: &mut [u8]) -> Result<usize, Failed>
        ensures bound { ReadsAtMost result into.new }
        ensures bytes { ReadConsumes (S.left self.old.inner) (S.left self.new.inner) result into.new }
        ensures cause { HasCause (S.faults self.old.inner) (S.faults self.new.inner) result }
        ensures most { IfOk result (λ n. n ≤ self.old.most) }
        ensures kept { self.new.most ≡ self.old.most }
    {
        let count = into.len().min(self.most as usize);
        self.inner.take(&mut into[..count])
    }
}

/// A sink that offers another one at most so many bytes at a time.
#[derive(Drop)]
pub struct ShortSink<K> {
    inner: K,
    most: u32,
}

impl<K> Model for ShortSink<K> {
    ghost use Rattle.std.specs.Prelude.{◌<◌};
    ghost use Rattle.gm_io.specs.Ends.{Short};

    ghost Value = { Short K };

    ghost view = { λ s. record { inner = s.inner; most = s.most } };

    ghost invariant = { λ s. 0 < s.most };
}

impl<K: Sink> ShortSink<K> {
    /// The sink, which is put pieces of at most so many bytes.
    pub fn new(inner: K, most: u32) -> ShortSink<K>
        requires { 0 < most }
        ensures { result ≡ record { inner = inner; most = most } }
    {
        ShortSink { inner, most }
    }

    /// The sink that is put to.
    pub fn inner(&self) -> &K
        ensures { result.now ≡ self.now.inner }
    {
        &self.inner
    }
}

impl<K: Sink> Sink for ShortSink<K> {
    ghost held = { λ s. K.held s.inner };

    ghost faults = { λ s. K.faults s.inner };

    fn put(&mut self, bytes: &[u8]) -> Result<usize, Failed>
        ensures bound { WritesAtMost result bytes.now }
        ensures progress { IfOk result (λ n. 0 < length bytes.now → 0 < n) }
        ensures bytes { PutGains (K.held self.old.inner) (K.held self.new.inner) result bytes.now }
        ensures cause { HasCause (K.faults self.old.inner) (K.faults self.new.inner) result }
        ensures most { IfOk result (λ n. n ≤ self.old.most) }
        ensures kept { self.new.most ≡ self.old.most }
    {
        let count = bytes.len().min(self.most as usize);
        self.inner.put(&bytes[..count])
    }
}
