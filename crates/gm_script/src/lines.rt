//! What a line says.

ghost use Rattle.std.specs.Prelude.{◌≡◌, ◌+◌, Some, None, Ok, Err, IfErr, IfOk, IfSome, OnOk, MatchResult, option_map, true};
ghost use Rattle.gm_script.specs.Lines.{is_skipped};
ghost use Rattle.gm_script.specs.Grammar.{ordered, later_line, after_line, empty_draft};
ghost use Rattle.gm_script.specs.Schedules.{IsWithin};
ghost use Rattle.gm_script.specs.Drafts.{draft_of, IsScriptDraft, RefusedFor};

use crate::draft::{Draft, Refused, add_order, has_actor, has_room, is_aligned};
use crate::error::Cause;
use crate::forms::read_form;
use crate::orders::{Order, read_order};
use crate::setup::read_setup;
use crate::split::{begins, has_bad_byte, is_word};
use crate::words::Words;
use gm_base::Setup;

/// Reads a line before the `machine` line is found: its setup where it is that line, None where it is skipped, or its
/// first cause.
#[tactic(auto, unfolding(crate::specs::Grammar::after_line))]
pub fn read_first(line: &[u8], is_ended: bool) -> Result<Option<Setup>, Cause>
    ensures line { MatchResult result
        (λ s. after_line None (record { bytes = line.now; is_ended = is_ended }) ≡ Ok (option_map empty_draft s))
        (λ cause. after_line None (record { bytes = line.now; is_ended = is_ended }) ≡ Err cause) }
    ensures within { IfOk result (λ s. IfSome s IsWithin) }
{
    if has_bad_byte(line) {
        return Err(Cause::Bytes);
    }
    if !is_ended {
        return Err(Cause::Cut);
    }
    let words = Words::of(line);
    if is_skipped(&words) {
        return Ok(None);
    }
    let setup = read_setup(&words)?;
    Ok(Some(setup))
}

/// Adds what a line after the `machine` line says.
#[tactic(auto, unfolding(crate::specs::Grammar::after_line))]
pub fn read_later(draft: &mut Draft, line: &[u8], is_ended: bool) -> Result<(), Refused>
    requires { IsScriptDraft (draft_of draft.old) }
    ensures ok { OnOk result (after_line (Some (draft_of draft.old)) (record { bytes = line.now; is_ended = is_ended }) ≡ Ok (Some (draft_of draft.new))) }
    ensures bad { IfErr result (RefusedFor (after_line (Some (draft_of draft.old)) (record { bytes = line.now; is_ended = is_ended }))) }
{
    if has_bad_byte(line) {
        return Err(Refused::Bad(Cause::Bytes));
    }
    if !is_ended {
        return Err(Refused::Bad(Cause::Cut));
    }
    let words = Words::of(line);
    if is_skipped(&words) {
        return Ok(());
    }
    read_words(draft, &words)
}

/// Whether there is no word, or the first one begins with `#`.
#[tactic(auto, unfolding(crate::specs::Lines::is_skipped))]
fn is_skipped(words: &Words<'_>) -> bool
    ensures { result ≡ is_skipped words.now }
{
    words.count() == 0 || begins(b"#", words.word(0))
}

#[tactic(auto, unfolding(crate::specs::Grammar::later_line))]
fn read_words(draft: &mut Draft, words: &Words<'_>) -> Result<(), Refused>
    requires { IsScriptDraft (draft_of draft.old) }
    ensures ok { OnOk result (later_line (draft_of draft.old) words.now ≡ Ok (draft_of draft.new)) }
    ensures bad { IfErr result (RefusedFor (later_line (draft_of draft.old) words.now)) }
{
    if is_word(words.word(0), b"machine") {
        return Err(Refused::Bad(Cause::Machine));
    }
    let form = match read_form(words) {
        Some(form) => form,
        None => return Err(Refused::Bad(Cause::Word)),
    };
    match read_order(form, words) {
        Some(order) => obey(draft, order),
        None => Err(Refused::Bad(Cause::Number)),
    }
}

/// Adds what an order asks for, or tells its first cause.
#[tactic(auto, unfolding(crate::specs::Grammar::ordered))]
fn obey(draft: &mut Draft, order: Order) -> Result<(), Refused>
    requires { IsScriptDraft (draft_of draft.old) }
    ensures ok { OnOk result (ordered (draft_of draft.old) order ≡ Ok (draft_of draft.new)) }
    ensures bad { IfErr result (RefusedFor (ordered (draft_of draft.old) order)) }
{
    if !has_actor(draft.setup, order) {
        return Err(Refused::Bad(Cause::Actor));
    }
    if !is_aligned(order) {
        return Err(Refused::Bad(Cause::Align));
    }
    if !has_room(draft, order) {
        return Err(Refused::Bad(Cause::Limit));
    }
    add_order(draft, order)?;
    Ok(())
}
