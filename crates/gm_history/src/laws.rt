//! What bytes tell.

ghost use Rattle.std.specs.Prelude.{◌≡◌, ℕ, ◌≤◌, List, [], length, reverse};
ghost use Rattle.gm_base.specs.Scripts.{Orders};
ghost use Rattle.gm_flat.specs.RightHistory.{Right};
ghost use Rattle.gm_flat.specs.declared.entry.Entry.{Entry};
ghost use Rattle.gm_text.specs.Text.{history_text};
ghost use Rattle.gm_text.specs.TextOne.{history_text_one};
ghost use Rattle.gm_history.specs.Given.{AreOld, AreUnmarked};
ghost use Rattle.gm_history.specs.Ranges.{AreRanged, IsU64, IsWithin};
ghost use Rattle.gm_history.specs.TextForm.{Told, IsTellable, IsFormTwo, IsBroughtUp, Tells, last_turn, roomless_told, text_of_told};

/// Bytes tell one history, but for the spare room of spans. So what is read of a history's text is that history.
#[tactic(auto, using(crate::proofs::Judging::one_history))]
pub fn one_history()
    ensures { (bytes : List ℕ) (g h : Told) → Tells bytes g → Tells bytes h → roomless_told g ≡ roomless_told h }
{}

/// The text of a plain history is of form 2, where its setup is within the limits, its numbers are within the ranges of
/// their types, and its count of turns isn't below its last entry's turn.
#[tactic(auto, using(crate::proofs::Judging::text_is_of_form))]
pub fn text_is_of_form()
    ensures { (h : Told) → IsTellable h → IsFormTwo (text_of_told h) }
{}

/// Bytes of form 1 are brought up to one text. The text of version 1 of a history that version 1 can say is of form 1,
/// and is brought up to the text of version 2 of that history.
pub fn one_up()
    ensures one { (bytes one two : List ℕ) → IsBroughtUp bytes one → IsBroughtUp bytes two → one ≡ two }
    ensures text { (h : Told) → IsTellable h → AreOld [] h.entries → IsBroughtUp (history_text_one h.setup h.entries h.turns) (history_text h.setup h.entries h.turns) }
{}

/// Version 1 can say each right history without marks, so its text of version 1 is of form 1, and is brought up to its
/// text of version 2: where its setup is within the limits, its numbers are within the ranges of their types, and its
/// count of turns isn't below its last entry's turn. It stands oldest first, as in the text.
pub fn right_is_brought_up()
    ensures { (o : Orders) (history : List Entry) (turns : ℕ) → Right o (reverse history) → AreUnmarked history → IsWithin o.setup → AreRanged history → IsU64 turns → IsU64 (length history) → last_turn history ≤ turns → IsBroughtUp (history_text_one o.setup history turns) (history_text o.setup history turns) }
{}
