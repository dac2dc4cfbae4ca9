//! Files, the frames of their folios, and the words of frames.
#![tactic(auto)]

mod adding;
mod binding;
mod block_frames;
mod cutting;
mod first_use;
mod holding;
mod making;
mod reading;
mod reserving;
mod store;

pub use first_use::Used;
pub use store::Store;

#[cfg(test)]
mod tests;
