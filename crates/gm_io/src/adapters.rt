//! std's readers and writers as ends. They are the trusted edge: what a standard stream takes or gives has no clause.

ghost use Rattle.std.specs.Prelude.{◌≡◌, ◌≤◌, ℕ, [], None};
ghost use Rattle.gm_io.specs.Adapted.{source_faults, sink_faults};

use crate::ends::{Failed, Sink, Source};
use std::io::{Read, Write};

/// Any reader of std, with the count of its errors. It tells the bytes left where the reader does.
#[derive(Drop)]
pub struct ReaderSource<R> {
    inner: R,
    faults: u64,
}

impl<R: Read> ReaderSource<R> {
    /// The reader, with the count 0.
    pub fn new(inner: R) -> ReaderSource<R>
        ensures { source_faults result ≡ 0 }
    {
        ReaderSource { inner, faults: 0 }
    }
}

impl<R: Read> Source for ReaderSource<R> {
    ghost left = { λ s. R.remaining s.inner };

    ghost faults = { λ s. source_faults s };

    fn take(&mut self, into: &mut [u8]) -> Result<usize, Failed> {
        match self.inner.read(into) {
            Ok(count) => Ok(count),
            Err(_) => {
                self.faults = self.faults.saturating_add(1);
                Err(Failed)
            }
        }
    }
}

/// Any writer of std, with the count of its errors. It tells no bytes.
#[derive(Drop)]
pub struct WriterSink<W> {
    inner: W,
    faults: u64,
}

impl<W: Write> WriterSink<W> {
    /// The writer, with the count 0.
    pub fn new(inner: W) -> WriterSink<W>
        ensures { sink_faults result ≡ 0 }
    {
        WriterSink { inner, faults: 0 }
    }
}

impl<W: Write> Sink for WriterSink<W> {
    ghost held = { λ s. None };

    ghost faults = { λ s. sink_faults s };

    // A write that takes nothing of a piece would never end, so it counts as a fault.
    fn put(&mut self, bytes: &[u8]) -> Result<usize, Failed> {
        if bytes.is_empty() {
            return Ok(0);
        }
        match self.inner.write(bytes) {
            Ok(count) if count > 0 => Ok(count),
            _ => {
                self.faults = self.faults.saturating_add(1);
                Err(Failed)
            }
        }
    }
}
