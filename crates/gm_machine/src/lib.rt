//! The machine: its turns, the history that it keeps, and what it tells.
#![tactic(auto)]

mod crossing;
mod flags;
mod foretelling;
mod laws;
mod machine;
mod pushing;
mod telling;

pub use crossing::machines_cross_threads;
pub use gm_turns::{Ahead, Blocker, How, Outcome};
pub use laws::{blockers_can_go_on, pushes_keep_right, turns_play};
pub use machine::Machine;
