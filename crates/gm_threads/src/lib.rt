//! A thread for each actor, over one machine under a lock.
#![tactic(auto)]

mod actors;
mod ending;
mod held;
mod seats;
mod turning;

pub use actors::run_actors;

#[cfg(test)]
mod tests;
