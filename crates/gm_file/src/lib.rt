//! A guest_memfd: its cache of folios, and the ranges of it that are bound for slots.
#![tactic(auto)]

mod file;
mod folios;
mod laws;
mod ranges;

pub use file::File;
pub use folios::Folios;
pub use laws::{meeting_is_meets, meeting_is_sharing_an_index};
pub use ranges::{Bound, BoundRange};

#[cfg(test)]
mod tests;
