//! The vCPUs' buffers of fills, and the requests to flush them.
#![tactic(auto)]

mod ring;
mod tlb;

pub use ring::{Ring, Seat};
pub use tlb::{Fill, Tlb};

#[cfg(test)]
mod tests;
