//! What a history comes to, in one line.
#![tactic(auto)]

mod summary;
mod totals;

pub use summary::write_summary;
pub use totals::{Totals, totals_of};

#[cfg(test)]
mod tests;
