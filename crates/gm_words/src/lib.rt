//! Pages of words.
#![tactic(auto)]

mod bank;

pub use bank::Bank;

#[cfg(test)]
mod tests;
