//! The machine's tests, in a crate of their own, so that the machine is proved once.
#![tactic(auto)]

#[cfg(test)]
mod acting;
#[cfg(test)]
mod memory;
#[cfg(test)]
mod pushing;
#[cfg(test)]
mod rooming;
#[cfg(test)]
mod tests;
#[cfg(test)]
mod waiting;
