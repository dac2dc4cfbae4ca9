//! Reads histories back from their text, version 2, and brings texts of version 1 up to version 2.
//!
//! A history's text has a first line, the `machine` line, a line for each entry and an `end` line. The text of a
//! history that can be told is read as that history; of other bytes the bad line is told.
#![tactic(auto)]

mod calls;
mod cuts;
mod effects;
mod entries;
mod error;
mod faults;
mod fields;
mod frames;
mod given;
mod history;
mod laws;
mod limits;
mod lines;
mod migrating;
mod numerals;
mod old;
mod replies;
mod version;

pub use error::{HistoryError, MigrateError};
pub use history::{History, read_history};
pub use laws::{one_history, one_up, right_is_brought_up, text_is_of_form};
pub use limits::MOST_HISTORY_BYTES;
pub use migrating::migrate;

#[cfg(test)]
mod tests;
