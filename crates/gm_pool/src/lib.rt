//! Frames in use, with serials and holds.
#![tactic(auto)]

mod bits;
mod frames;
mod number_set;
mod pool;
mod uses;

pub use pool::Pool;
pub use uses::{Freed, Use};

#[cfg(test)]
mod tests;
