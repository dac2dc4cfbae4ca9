//! What a call comes to over the state, which locks it needs, and the steps that it takes.
#![tactic(auto)]

mod at_once;
mod attributes;
mod call;
mod cuts;
mod flags;
mod judged;
mod judging;
mod lock_set;
mod paged;
mod parts;
mod regions;
mod spanned;
mod words;

pub use at_once::change_at_once;
pub use call::{Call, Step};
pub use judged::{Judged, PagePlan};
pub use judging::judge;
pub use lock_set::{LockSet, locks};
pub use parts::Parts;

#[cfg(test)]
mod tests;
