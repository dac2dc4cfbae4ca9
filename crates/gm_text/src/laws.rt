//! What the text of a history tells.

ghost use Rattle.std.specs.Prelude.{ℕ, ◌≡◌, ◌^◌, ◌<◌, List};
ghost use Rattle.gm_base.specs.Scripts.{Orders};
ghost use Rattle.gm_base.specs.declared.values.Setup.{Setup};
ghost use Rattle.gm_flat.specs.RightHistory.{Right};
ghost use Rattle.gm_flat.specs.declared.entry.Entry.{Entry};
ghost use Rattle.gm_flat.specs.InTypes.{AreInTypes, roomless_entries};
ghost use Rattle.gm_flat.specs.Plain.{IsPlain};
ghost use Rattle.gm_text.specs.Text.{history_text};

/// Two plain histories of one setup, whose numbers are within the types of entries, are equal where their texts are,
/// but for the spare room of spans; and they took as many turns. They stand oldest first, as in the text.
pub fn one_text()
    ensures { (s : Setup) (one two : List Entry) (m n : ℕ) → IsPlain one → IsPlain two → AreInTypes one → AreInTypes two → m < 2 ^ 64 → n < 2 ^ 64 → history_text s one m ≡ history_text s two n → (roomless_entries one ≡ roomless_entries two) × (m ≡ n) }
{}

/// A right history is plain: a memory fault is of one page, a get of a user page adds no folio, and a slot without a
/// file has index 0.
pub fn right_is_plain()
    ensures { (o : Orders) (past : List Entry) → Right o past → IsPlain past }
{}
