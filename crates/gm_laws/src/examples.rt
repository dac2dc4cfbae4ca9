//! Histories shown by computing: worked rows that follow the tables, and the histories of wrong bodies, which don't.

ghost use Rattle.std.specs.Prelude.{[]};
ghost use Rattle.gm_flat.specs.Plays.{Full, Plays};
ghost use Rattle.gm_flat.specs.RightHistory.{Right};
ghost use Rattle.gm_laws.specs.Conversion.{conversion, conversion_orders};
ghost use Rattle.gm_laws.specs.FlushPending.{flush_pending, flush_pending_orders, flush_pending_turns};
ghost use Rattle.gm_laws.specs.HeldPage.{held_page, held_page_orders};
ghost use Rattle.gm_laws.specs.MarkedSlot.{marked_slot, marked_slot_orders};
ghost use Rattle.gm_laws.specs.MixedBlock.{mixed_block, mixed_block_orders};
ghost use Rattle.gm_laws.specs.MoveAndDeletion.{move_and_deletion, move_and_deletion_orders};
ghost use Rattle.gm_laws.specs.OneRead.{one_read, one_read_orders, one_read_turns};
ghost use Rattle.gm_laws.specs.PopulationAndClose.{population_and_close, population_and_close_orders};
ghost use Rattle.gm_laws.specs.Ruled.{Ruled};
ghost use Rattle.gm_laws.specs.Smallest.{one_caller_orders, smallest, smallest_orders};
ghost use Rattle.gm_laws.specs.WrongBodies.{always_retries, answers_before_acked, asks_only_where_a_leaf_went, block_leaf_beside_a_change, bound_twice_orders, deletes_without_a_mark, edges_not_renewed, exits_by_a_marked_slot, exits_by_the_miss, frees_a_held_page, hole_twice_orders, gets_by_a_marked_slot, keeps_old_words, keeps_the_mark, leaves_the_block_leaf, looks_at_the_generation_before, never_compares, one_frame_orders, other_kind_orders, other_page_orders, overlooks_the_last_page, resets_the_range, two_brackets_orders};

/// The histories of worked rows follow the tables, so they are right.
pub fn worked_rows_follow_the_tables()
    ensures one_read_row { Ruled one_read_orders one_read }
    ensures conversion_row { Ruled conversion_orders conversion }
    ensures held_page_row { Ruled held_page_orders held_page }
    ensures flush_pending_row { Ruled flush_pending_orders flush_pending }
    ensures mixed_block_row { Ruled mixed_block_orders mixed_block }
    ensures marked_slot_row { Ruled marked_slot_orders marked_slot }
    ensures move_and_deletion_row { Ruled move_and_deletion_orders move_and_deletion }
    ensures population_and_close_row { Ruled population_and_close_orders population_and_close }
{}

/// A history that a wrong body would write isn't right.
pub fn wrong_bodies_are_refused()
    ensures never_compares_body { Right other_page_orders never_compares → ⊥ }
    ensures resets_the_range_body { Right two_brackets_orders resets_the_range → ⊥ }
    ensures asks_only_where_a_leaf_went_body { Right flush_pending_orders asks_only_where_a_leaf_went → ⊥ }
    ensures frees_a_held_page_body { Right held_page_orders frees_a_held_page → ⊥ }
    ensures block_leaf_beside_a_change_body { Right mixed_block_orders block_leaf_beside_a_change → ⊥ }
    ensures edges_not_renewed_body { Right mixed_block_orders edges_not_renewed → ⊥ }
    ensures leaves_the_block_leaf_body { Right mixed_block_orders leaves_the_block_leaf → ⊥ }
    ensures always_retries_body { Right one_read_orders always_retries → ⊥ }
    ensures keeps_old_words_body { Right one_frame_orders keeps_old_words → ⊥ }
    ensures answers_before_acked_body { Right flush_pending_orders answers_before_acked → ⊥ }
    ensures exits_by_the_miss_body { Right hole_twice_orders exits_by_the_miss → ⊥ }
    ensures overlooks_the_last_page_body { Right bound_twice_orders overlooks_the_last_page → ⊥ }
    ensures exits_by_a_marked_slot_body { Right other_kind_orders exits_by_a_marked_slot → ⊥ }
    ensures gets_by_a_marked_slot_body { Right marked_slot_orders gets_by_a_marked_slot → ⊥ }
    ensures deletes_without_a_mark_body { Right marked_slot_orders deletes_without_a_mark → ⊥ }
    ensures keeps_the_mark_body { Right move_and_deletion_orders keeps_the_mark → ⊥ }
    ensures looks_at_the_generation_before_body { Right one_read_orders looks_at_the_generation_before → ⊥ }
{}

/// The histories of worked rows play the turns of their scripts, also where a caller's turn waits and where a turn is a kick.
pub fn worked_rows_play_their_turns()
    ensures one_read_plays { Plays one_read_orders one_read_turns one_read }
    ensures flush_pending_plays { Plays flush_pending_orders flush_pending_turns flush_pending }
{}

/// A history is whole once each vCPU and each caller has said that it has no command left, and not before.
pub fn whole_histories_have_everyone_gone()
    ensures smallest_is_whole { Full smallest_orders smallest }
    ensures nobody_gone { Full smallest_orders [] → ⊥ }
    ensures caller_left { Full one_caller_orders smallest → ⊥ }
{}
