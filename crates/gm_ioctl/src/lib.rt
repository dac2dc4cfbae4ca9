//! The rows of the calls' tables that look at the arguments and the count of user pages alone.
#![tactic(auto)]

mod judging;
mod laws;
mod rows;

pub use judging::check;
pub use laws::{
    arguments_that_pass_are_in_range, passes_means_no_refusal,
    passing_leaves_the_rows_of_the_state, refusals_are_inval, refused_arguments_are_refused,
};

#[cfg(test)]
mod tests;
