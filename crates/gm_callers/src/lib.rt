//! Callers, each with its call in progress, and which of them holds a lock that a call needs.
#![tactic(auto)]

mod caller;
mod callers;
mod holding;
mod rooming;

pub use caller::{Caller, InProgress};
pub use callers::Callers;

#[cfg(test)]
mod tests;
