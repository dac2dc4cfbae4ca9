//! The machine whose views are published as its turns are taken.
#![tactic(auto)]

mod crossing;
mod published;

pub use crossing::published_cross_threads;
pub use published::Published;

#[cfg(test)]
mod tests;
