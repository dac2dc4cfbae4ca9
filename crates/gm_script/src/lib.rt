//! Reads scripts: the setup of a machine, the commands of each actor in order, and the turns.
//!
//! A line ends with byte 10; its other bytes are 32 to 126. Words stand between spaces. A line without a word, or whose
//! first word begins with `#`, is skipped. A number is 1 to 20 decimal digits, or `0x` and 1 to 16 hexadecimal digits of
//! either case, below 2^64. An actor is `v` or `c` and 1 to 5 decimal digits.
//!
//! | line | what it asks for |
//! |---|---|
//! | `machine frames=N user=N vcpus=N callers=N huge=on` or `huge=off` | the setup; the first line that isn't skipped, and no other |
//! | `vN read KIND GPA`, `vN write KIND GPA VALUE` | an access; KIND is `private` or `shared`, GPA a multiple of 8 |
//! | `cN create SIZE FLAGS` | a call, as are the next eight |
//! | `cN region SLOT FLAGS GPA SIZE USER FD OFFSET` | SLOT, FLAGS and FD are below 2^32 |
//! | `cN attrs ADDRESS SIZE ATTRIBUTES FLAGS` | |
//! | `cN punch FD OFFSET LENGTH`, `cN allocate FD OFFSET LENGTH`, `cN close FD` | FD is below 2^32 |
//! | `cN populate GPA PAGES USER` | |
//! | `cN poke ADDRESS VALUE`, `cN peek ADDRESS` | |
//! | `turn ACTOR`, `turn ACTOR K` | one turn, or K turns |
//! | `kick vN` | one turn that kicks the vCPU |
//! | `round K` | K times: for each vCPU in rising order a kick and a turn, then for each caller a turn |
#![tactic(auto)]

mod actors;
mod draft;
mod error;
mod forms;
mod lines;
mod lists;
mod numbers;
mod orders;
mod script;
mod setup;
mod split;
mod words;

pub use error::{Cause, ScriptError};
pub use gm_base::{Command, Turn};
pub use lists::CommandList;
pub use numbers::read_number;
pub use script::{Script, read_script};

#[cfg(test)]
mod tests;
