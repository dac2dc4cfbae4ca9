//! What calls and accesses change: slots, attributes, user memory, and the store of files and frames.
#![tactic(auto)]

mod accessing;
mod changing;
mod flags;
mod folios;
mod freed;
mod laws;
mod levels;
mod marking;
mod paging;
mod reserving;
mod state;
mod tracking;

pub use laws::plans_keep_their_promises;
pub use state::State;
