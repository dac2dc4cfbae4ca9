//! What the blocks of a span are.

ghost use Rattle.std.specs.Prelude.{ℕ, ◌≡◌, ◌&&◌, nat_le, nat_lt};
ghost use Rattle.gm_base.specs.Extent.{Extent};
ghost use Rattle.gm_attr.specs.Kinds.{end_whole, first_whole, lies_in};

/// The blocks that lie wholly in a span are those from `first_whole` on and before `end_whole`, so `blocks_in` counts them.
pub fn whole_blocks_follow_one_another()
    ensures { (span : Extent) (block : ℕ) → lies_in span block ≡ (nat_le (first_whole span) block && nat_lt block (end_whole span)) }
{}
