//! Of one program and one list of turns there is one right history: each turn is determined by what stands before it.
//! And what comes next, told exactly: after a Look, after a Get, after the Judge of a call that is refused, and where a
//! caller is blocked. Each law is the contract of a function with an empty body.
#![tactic(auto)]

mod determined;
mod exactly;

pub use determined::{
    a_sample_and_a_look_may_stand_in_one_turn, frees_are_determined, having_stamps_is_determined,
    looks_may_speak_for_the_past, right_histories_are_determined,
    right_histories_are_determined_by_stamps, right_histories_are_their_turns,
    right_histories_need_no_spare_room, samples_may_speak_for_the_past, turns_are_determined,
    turns_are_determined_by_stamps, turns_keep_pasts_alike, turns_need_no_spare_room,
};
pub use exactly::{
    blocked_callers_write_nothing, refused_calls_only_answer, what_follows_a_get,
    what_follows_a_look,
};
