//! Runs of a truth value over pages.
#![tactic(auto)]

mod edges;
mod run_map;

pub use run_map::RunMap;

#[cfg(test)]
mod tests;
