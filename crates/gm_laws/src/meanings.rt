//! What the readings of a history say, in the words of their definitions. These laws hold of every list of entries.

ghost use Rattle.std.specs.Prelude.{ℕ, ◌≡◌, ◌+◌, ◌<◌, ◌↔◌, List, true, take};
ghost use Rattle.gm_base.specs.declared.numbers.TheConstants.{BUFFER_FILLS};
ghost use Rattle.gm_base.specs.declared.values.Kind.{Kind};
ghost use Rattle.gm_flat.specs.Attribute.{attr_of};
ghost use Rattle.gm_flat.specs.Calls.{all_have};
ghost use Rattle.gm_flat.specs.FlatState.{AttrCall};
ghost use Rattle.gm_flat.specs.Invalidation.{ended, hull};
ghost use Rattle.gm_flat.specs.Mappings.{Mapping, fills, flushed, inside, leaves, pending};
ghost use Rattle.gm_flat.specs.Replay.{flat, flat_at};
ghost use Rattle.gm_flat.specs.declared.entry.Entry.{Entry};
ghost use Rattle.gm_laws.specs.Fronts.{front};
ghost use Rattle.gm_laws.specs.Readings.{Among, AttributeIsLast, FlushedIsLast, HasBeginFrom, HasEndFrom, IsFillSince, IsLeastHull, IsStanding, LastIsEnter, SettledIsLeast, SettledIsOne, all_fills, kept_spans};

/// `flushed` is the position after the vCPU's last Flush, and 0 where there is none.
pub fn flushed_is_the_last_flush()
    ensures { (v : ℕ) (past : List Entry) → FlushedIsLast v past }
{}

/// A flush is pending exactly where a Begin stands at or after that position.
pub fn pending_is_a_begin_since()
    ensures { (v : ℕ) (past : List Entry) → (pending v past ≡ true) ↔ HasBeginFrom (flushed v past) past }
{}

/// A vCPU is inside exactly where the last of its Enter, Miss and Gone entries is an Enter.
pub fn inside_is_the_last_enter()
    ensures { (v : ℕ) (past : List Entry) → (inside v past ≡ true) ↔ LastIsEnter v past }
{}

/// A leaf is an Install after which no Begin has a span that meets what it covers and no Install covers a page of it.
pub fn leaves_are_standing_installs()
    ensures { (m : Mapping) (past : List Entry) → Among m (leaves past) ↔ IsStanding m past }
{}

/// The fills are the last 256 of the vCPU's Touches since its last Flush whose fill is their own position.
pub fn fills_are_the_last_touches()
    ensures last { (v : ℕ) (past : List Entry) → fills v past ≡ take BUFFER_FILLS (all_fills v past) }
    ensures since { (v : ℕ) (m : Mapping) (past : List Entry) → Among m (all_fills v past) ↔ IsFillSince v m past }
{}

/// The hull is the least span that covers all spans of the Begins since the count last rose from 0, and none where there are
/// none.
pub fn hull_is_the_least_span()
    ensures { (past : List Entry) → IsLeastHull (kept_spans past) (hull past) }
{}

/// A page is stale since a position by an End exactly where an End stands at or after it.
pub fn ended_is_an_end()
    ensures { (n : ℕ) (past : List Entry) → (ended n past ≡ true) ↔ HasEndFrom n past }
{}

/// The flat state at a position is that of the entries before it.
pub fn flat_at_is_the_front()
    ensures { (i : ℕ) (past : List Entry) → flat_at i past ≡ flat (front i past) }
{}

/// The replay's attribute of a page is the kind of the last call whose span holds the page, and shared where none does.
pub fn attribute_is_the_last_call()
    ensures { (page : ℕ) (past : List Entry) → AttributeIsLast page past }
{}

/// `settled` is the greatest of the positions after the changes on a page whose calls have their Answer.
pub fn settled_is_the_greatest()
    ensures bound { (page : ℕ) (past : List Entry) → SettledIsLeast page past }
    ensures reached { (page : ℕ) (past : List Entry) → SettledIsOne page past }
{}

/// `all_have` is true exactly where each page of the range has the kind.
pub fn all_have_means_each_page()
    ensures { (kind : Kind) (page n : ℕ) (calls : List AttrCall) → (all_have kind page n calls ≡ true) ↔ ((k : ℕ) → k < n → attr_of (page + k) calls ≡ kind) }
{}
