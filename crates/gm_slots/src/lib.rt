//! Slots of guest pages.
#![tactic(auto)]

mod ages;
mod change;
mod kept;
mod order;
mod pages;
mod slots;

pub use change::Change;
pub use kept::KeptSlots;
pub use slots::Slots;

#[cfg(test)]
mod tests;
