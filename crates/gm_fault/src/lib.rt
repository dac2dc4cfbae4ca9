//! What a fault does after its look: its route, the level of its leaf, and what it keeps while it is in flight.
#![tactic(auto)]

mod levels;
mod routes;
mod ticket;

pub use levels::level;
pub use routes::{Route, decide};
pub use ticket::Ticket;

#[cfg(test)]
mod tests;
