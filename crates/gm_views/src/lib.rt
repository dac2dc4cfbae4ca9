//! The views that a writer publishes, and the readers that look at them without its lock.
#![tactic(auto)]

mod attributes;
mod doors;
mod laws;
mod looking;
mod publisher;
mod rule;
mod shown;
mod sights;
mod slots;
mod spies;
mod spy;

pub use doors::{Door, Doors, Glimpse};
pub use laws::views_follow_the_flat_state;
pub use looking::look_after;
pub use publisher::Publisher;
pub use rule::{Known, Look, Note, Put, Rule, ViewReader, ViewWriter};
pub use shown::{Change, Content, Shown};
pub use sights::{AttrCall, Sight};
pub use spies::Spies;
pub use spy::Spy;

#[cfg(test)]
mod tests;
