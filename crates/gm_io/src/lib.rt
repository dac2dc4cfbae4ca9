//! The outside: sources of bytes, sinks of bytes, and gates.
#![tactic(auto)]

mod adapters;
mod ends;
mod gathered;
mod memory;
mod short;
mod sure;

pub use adapters::{ReaderSource, WriterSink};
pub use ends::{Failed, Gate, OpenGate, Sink, Source, put_all};
pub use gathered::Gathered;
pub use memory::{MemorySink, MemorySource};
pub use short::{ShortSink, ShortSource};
pub use sure::{SureSink, SureSource};

#[cfg(test)]
mod tests;
