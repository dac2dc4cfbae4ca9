//! The stage-two table: leaves of 4 KiB and of 2 MiB.
#![tactic(auto)]

mod table;

pub use table::Table;

#[cfg(test)]
mod tests;
