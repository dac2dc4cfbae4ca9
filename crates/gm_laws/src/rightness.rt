//! Histories that follow the tables are the right ones, and what holds in them.

ghost use Rattle.std.specs.Prelude.{ℕ, ◌≡◌, ◌+◌, List, false};
ghost use Rattle.gm_base.specs.Scripts.{Orders};
ghost use Rattle.gm_flat.specs.Histories.{same_turn};
ghost use Rattle.gm_flat.specs.Invalidation.{count};
ghost use Rattle.gm_flat.specs.Replay.{flat};
ghost use Rattle.gm_flat.specs.RightHistory.{Each, Right};
ghost use Rattle.gm_flat.specs.Words.{folio_word};
ghost use Rattle.gm_base.specs.declared.values.Actor.{Actor};
ghost use Rattle.gm_flat.specs.declared.entry.Entry.{Entry};
ghost use Rattle.gm_flat.specs.declared.entry.What.{What};
ghost use Rattle.gm_laws.specs.BoundRanges.{BoundRanges};
ghost use Rattle.gm_laws.specs.Contents.{ReadsTheLast, added_word, last_write, or_else};
ghost use Rattle.gm_laws.specs.Invariant.{Invariant};
ghost use Rattle.gm_laws.specs.JudgedRows.{CallsGoOn, SeesItsRow};
ghost use Rattle.gm_laws.specs.LivesEverywhere.{LivesEverywhere};
ghost use Rattle.gm_laws.specs.Readings.{how_many, is_begin, is_end};
ghost use Rattle.gm_laws.specs.Ruled.{Ruled};
ghost use Rattle.gm_laws.specs.SlotsStand.{SlotsStand};
ghost use Rattle.gm_laws.specs.Stands.{Stands};
ghost use Rattle.gm_laws.specs.TouchFrames.{TouchFrames};
ghost use Rattle.gm_laws.specs.TouchesNow.{QuietNames, QuietTouches, TouchesNow};
ghost use Rattle.gm_laws.specs.Turns.{IsTurn, onto};

/// A history that follows the tables is right.
pub fn ruled_is_right()
    ensures { (o : Orders) (past : List Entry) → Ruled o past → Right o past }
{}

/// A whole turn by the tables keeps a history that follows them.
pub fn turns_keep_ruled()
    ensures { (o : Orders) (turn : ℕ) (actor : Actor) (ws : List What) (past : List Entry) → IsTurn o turn actor ws past → Ruled o past → Ruled o (onto turn actor ws past) }
{}

/// A right history follows the tables.
pub fn right_is_ruled()
    ensures { (o : Orders) (past : List Entry) → Right o past → Ruled o past }
{}

/// A touch has what is named at its own position with marks left aside, also while a conversion runs, and by a fill newer than
/// every change on its page.
pub fn touches_are_named_now()
    ensures { (o : Orders) (past : List Entry) → Right o past → Each (λ e p. TouchesNow e.what e.actor p) past }
{}

/// Where no call stands between its Begin and its End, a touch has what is named at its own position.
pub fn quiet_touches()
    ensures { (o : Orders) (past : List Entry) → Right o past → Each (λ e p. QuietTouches e.what e.actor p) past }
{}

/// So has each touch of a history whose changes only make files and slots and write words.
pub fn quiet_names()
    ensures { (o : Orders) (past : List Entry) → Right o past → Each (λ e p. QuietNames e.what e.actor p) past }
{}

/// The word read of a folio is the last one written to it by a touch, else the one that it was added with.
pub fn words_are_last_written()
    ensures { (o : Orders) (past : List Entry) → Right o past → (serial word : ℕ) → folio_word serial word past ≡ or_else (last_write serial word past) (added_word serial word past) }
{}

/// A touch that reads a folio has the value of the last write to that word by a touch, else the word that the folio was added
/// with.
pub fn reads_have_the_last_write()
    ensures { (o : Orders) (past : List Entry) → Right o past → Each (λ e p. ReadsTheLast e.what e.actor p) past }
{}

/// The count of invalidations in progress is the number of Begins less the number of Ends.
pub fn count_is_begins_less_ends()
    ensures { (o : Orders) (past : List Entry) → Right o past → how_many is_begin past ≡ how_many is_end past + count past }
{}

/// What stands before the first entry of a turn of a right history is a right history.
pub fn fronts_of_right_are_right()
    ensures { (o : Orders) (e : Entry) (before past : List Entry) → Right o past → Stands e before past → same_turn e before ≡ false → Right o before }
{}

/// At every position of a right history, also inside a turn, a folio that is cached or held is live, and two live folios have
/// different frames.
pub fn frames_differ_everywhere()
    ensures now { (o : Orders) (past : List Entry) → Right o past → LivesEverywhere past }
    ensures before { (o : Orders) (e : Entry) (front past : List Entry) → Right o past → Stands e front past → LivesEverywhere front }
{}

/// At every position of a right history, also inside a turn: leaves name what is named now; no leaf lies under a bracket; a
/// fill gives what was named then, and is still named with marks left aside, or its vCPU is outside and flushes first; no fill
/// over a page of a bracket lies between its Begin and its End, and a vCPU inside has flushed since each acknowledged Begin,
/// also of brackets that have ended; a fault is stale, or what it looked up and got is true; and what a leaf, or a fill of a
/// vCPU inside, gives is cached.
pub fn invariant_holds()
    ensures now { (o : Orders) (past : List Entry) → Right o past → Invariant past }
    ensures before { (o : Orders) (e : Entry) (front past : List Entry) → Right o past → Stands e front past → Invariant front }
{}

/// A touch of a folio names the frame that the folio was added with, so its serial alone tells it.
pub fn touches_name_their_frames()
    ensures { (o : Orders) (past : List Entry) → Right o past → Each (λ e p. TouchFrames e.what e.actor p) past }
{}

/// At every position of a right history: slots have different ids and don't meet; slots of one file are bound apart; the file
/// of a slot is in use; and what is cached is cached in a file that is in use.
pub fn slots_stand_apart()
    ensures now { (o : Orders) (past : List Entry) → Right o past → SlotsStand (flat past) }
    ensures before { (o : Orders) (e : Entry) (front past : List Entry) → Right o past → Stands e front past → SlotsStand (flat front) }
{}

/// At every position of a right history, also inside a turn: the indexes that a slot binds of a file in use are those of pages
/// of that file, and two slots of one file bind none in common.
pub fn bound_ranges_lie_inside()
    ensures now { (o : Orders) (past : List Entry) → Right o past → BoundRanges (flat past) }
    ensures before { (o : Orders) (e : Entry) (front past : List Entry) → Right o past → Stands e front past → BoundRanges (flat front) }
{}

/// At every position of a right history, also inside a turn, a call in progress that hasn't made its change sees the row of its
/// Judge: its plan over the present state is its plan over the state there, with the same effect and spans, or the same file
/// and range. Between two turns each call in progress is one that makes its change in a bracket, or adds pages.
pub fn calls_see_their_rows()
    ensures now { (o : Orders) (past : List Entry) → Right o past → SeesItsRow o.setup past }
    ensures before { (o : Orders) (e : Entry) (front past : List Entry) → Right o past → Stands e front past → SeesItsRow o.setup front }
    ensures go_on { (o : Orders) (past : List Entry) → Right o past → CallsGoOn o.setup past }
{}
