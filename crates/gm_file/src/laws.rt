//! What the words on ranges mean.

ghost use Rattle.std.specs.Prelude.{ℕ, ◌≡◌, ◌<◌, ◌≤◌, ◌↔◌, true};
ghost use Rattle.gm_base.specs.Extent.{meets};
ghost use Rattle.gm_file.specs.Ranges.{meets_range};
ghost use Rattle.gm_file.specs.declared.ranges.BoundRange.{BoundRange};

/// A range with an index meets the indexes from `lo` on and below `hi` exactly where one of these is its own.
pub fn meeting_is_sharing_an_index()
    ensures { (lo hi : ℕ) (r : BoundRange) → r.lo < r.hi → (meets_range lo hi r ≡ true) ↔ ((index : ℕ) × (lo ≤ index) × (index < hi) × (r.lo ≤ index) × (index < r.hi)) }
{}

/// Of ranges with an index it is the test of `meets`.
pub fn meeting_is_meets()
    ensures { (lo hi : ℕ) (r : BoundRange) → lo < hi → meets_range lo hi r ≡ meets (record { lo = lo; hi = hi }) (record { lo = r.lo; hi = r.hi }) }
{}
