//! The vCPUs, each with its fault in flight.
#![tactic(auto)]

mod stage;
mod vcpu;
mod vcpus;

pub use stage::{Stage, stage_of};
pub use vcpu::Vcpu;
pub use vcpus::Vcpus;

#[cfg(test)]
mod tests;
