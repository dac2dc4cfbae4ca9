//! Entries of a history, the definitions over histories, and their plain replay.
#![tactic(auto)]

mod effect;
mod entry;
mod flat;
mod flat_items;
mod flat_lists;
mod flat_past;
mod flat_runs;
mod flat_state;
mod in_types;
mod spans;
mod views;

pub use effect::{Backing, Effect, Exit, Reply};
pub use entry::{Entry, What};
pub use flat::Flat;
pub use in_types::is_in_types;
pub use spans::Spans;
pub use views::{Looked, Sampled, Sighting, SlotView};

#[cfg(test)]
mod tests;
