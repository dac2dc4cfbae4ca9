//! The turns of a machine: four groups, each of which stands for the history, and what a turn of an actor does to them.
#![tactic(auto)]

mod brackets;
mod caller_turns;
mod calls;
mod faults;
mod foretelling;
mod frees;
mod guest;
mod log;
mod needs;
mod note;
mod outcome;
mod pages;
mod parts;
mod pushing;
mod room;
mod sightings;
mod start;
mod touches;
mod turns;
mod vcpu_turns;
mod waiting;

pub use foretelling::ahead;
pub use log::Log;
pub use outcome::{Ahead, Blocker, How, Outcome};
pub use parts::Core;
pub use pushing::push;
pub use room::make_room;
pub use sightings::deposit;
pub use start::fresh;
pub use turns::{kick, take_turn};
pub use waiting::{blocker, has_command};
