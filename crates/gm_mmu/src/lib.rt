//! The memory unit: leaves, buffers in front of them, requests to flush, and invalidations in progress.
#![tactic(auto)]

mod mmu;

pub use mmu::Mmu;

#[cfg(test)]
mod tests;
