//! Attributes of guest pages, private or shared, with a flag for each tracked block of 512 pages that says whether it has
//! pages of both kinds.
#![tactic(auto)]

mod attrs;
mod blocks;
mod flags;
mod laws;

pub use attrs::Attrs;
pub use laws::whole_blocks_follow_one_another;

#[cfg(test)]
mod tests;
