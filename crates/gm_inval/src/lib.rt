//! The invalidations in progress: a sequence of those that ended, a count, and the range that they keep.
#![tactic(auto)]

mod inval;

pub use inval::Inval;

#[cfg(test)]
mod tests;
