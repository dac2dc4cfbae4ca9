//! Laws over histories, proved once: what holds of every history that follows the tables, and what the readings of a
//! history say. Each law is the contract of a function with an empty body.
#![tactic(auto)]

mod examples;
mod meanings;
mod rightness;

pub use examples::{
    whole_histories_have_everyone_gone, worked_rows_follow_the_tables,
    worked_rows_play_their_turns, wrong_bodies_are_refused,
};
pub use meanings::{
    all_have_means_each_page, attribute_is_the_last_call, ended_is_an_end,
    fills_are_the_last_touches, flat_at_is_the_front, flushed_is_the_last_flush,
    hull_is_the_least_span, inside_is_the_last_enter, leaves_are_standing_installs,
    pending_is_a_begin_since, settled_is_the_greatest,
};
pub use rightness::{
    bound_ranges_lie_inside, calls_see_their_rows, count_is_begins_less_ends,
    frames_differ_everywhere, fronts_of_right_are_right, invariant_holds, quiet_names,
    quiet_touches, reads_have_the_last_write, right_is_ruled, ruled_is_right, slots_stand_apart,
    touches_are_named_now, touches_name_their_frames, turns_keep_ruled, words_are_last_written,
};
