//! Large scripts that a number stands for: the same number gives the same bytes.
#![tactic(auto)]

mod drawing;
mod draws;
mod laws;
mod line;
mod script;
mod words;

pub use laws::workloads_are_scripts;
pub use script::workload;

#[cfg(test)]
mod tests;
