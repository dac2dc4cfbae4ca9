//! Lines of entries.

ghost use Rattle.std.specs.Prelude.{◌≡◌, None, Some, IfOk, IfSome, MatchOption};
ghost use Rattle.gm_history.specs.Cuts.{split_at};
ghost use Rattle.gm_history.specs.Patterns.{ended};
ghost use Rattle.gm_history.specs.Whats.{bare_of, bare_line_of, begin_of, word_span_of, spans_of, what_of};

use crate::calls::read_call;
use crate::cuts::{first_piece, strip};
use crate::effects::read_effect;
use crate::faults::read_fault_line;
use crate::fields::{span, span_of, word};
use crate::replies::read_reply_line;
use gm_base::{NoMemory, Span};
use gm_flat::{Exit, Spans, What};
use std::alloc::Global;

/// What a line says, if nothing stands after it.
pub fn ended(rest: &[u8], what: What) -> Option<What>
    ensures { result ≡ ended what rest.now }
{
    if rest.is_empty() { Some(what) } else { None }
}

#[tactic(auto, unfolding(crate::specs::Whats::bare_of))]
fn read_bare(bare: &[u8], what: What, line: &[u8]) -> Option<What>
    ensures { result ≡ bare_of bare.now what line.now }
{
    let last = word(bare, line)?;
    ended(last.rest, what)
}

/// What a line of one word says.
#[tactic(auto, unfolding(crate::specs::Whats::bare_line_of))]
fn read_bare_line(line: &[u8]) -> Option<What>
    ensures { result ≡ bare_line_of line.now }
{
    if let Some(what) = read_bare(b"enter", What::Enter, line) {
        return Some(what);
    }
    if let Some(what) = read_bare(b"flush", What::Flush, line) {
        return Some(what);
    }
    if let Some(what) = read_bare(b"retry", What::Retry, line) {
        return Some(what);
    }
    if let Some(what) = read_bare(b"acked", What::Acked, line) {
        return Some(what);
    }
    if let Some(what) = read_bare(b"end", What::End, line) {
        return Some(what);
    }
    if let Some(what) = read_bare(b"gone", What::Gone, line) {
        return Some(what);
    }
    let why = Exit::NoFrame;
    read_bare(b"exit errno=12", What::Left { why }, line)
}

/// The span of a word.
#[tactic(auto, unfolding(crate::specs::Whats::word_span_of))]
fn read_span(word: &[u8]) -> Option<Span>
    ensures { result ≡ word_span_of word.now }
{
    let span = span(word)?;
    if span.rest.is_empty() {
        Some(span_of(span.value))
    } else {
        None
    }
}

/// The spans of words, of which there is at least one.
fn read_spans(alloc: Global, words: &[u8]) -> Result<Option<Spans>, NoMemory>
    ensures list { IfOk result (λ spans. MatchOption spans (spans_of (split_at 32 words.now) ≡ None) (λ s. spans_of (split_at 32 words.now) ≡ Some s.list)) }
    ensures room { IfOk result (λ spans. IfSome spans (λ s. s.spare ≡ 0)) }
{
    let mut spans = Spans::new(alloc, 0)?;
    let mut rest = words;
    loop {
        let next = first_piece(rest, 32);
        match read_span(next.piece) {
            Some(span) => spans.push(span)?,
            None => return Ok(None),
        }
        match next.rest {
            Some(more) => rest = more,
            None => return Ok(Some(spans)),
        }
    }
}

/// What a line says that tells the begin of a bracket.
#[tactic(auto, unfolding(crate::specs::Whats::begin_of))]
fn read_begin(alloc: Global, line: &[u8]) -> Result<Option<What>, NoMemory>
    ensures { IfOk result (λ what. what ≡ begin_of line.now) }
{
    let first = first_piece(line, 32);
    match strip(b"begin", first.piece) {
        Some(rest) => {
            if !rest.is_empty() {
                return Ok(None);
            }
        }
        None => return Ok(None),
    }
    let spans = match first.rest {
        Some(words) => read_spans(alloc, words)?,
        None => Some(Spans::new(alloc, 0)?),
    };
    match spans {
        Some(spans) => Ok(Some(What::Begin { spans })),
        None => Ok(None),
    }
}

/// What the end of an entry's line says.
#[tactic(auto, unfolding(crate::specs::Whats::what_of))]
pub fn read_what(alloc: Global, line: &[u8]) -> Result<Option<What>, NoMemory>
    ensures { IfOk result (λ what. what ≡ what_of line.now) }
{
    if let Some(what) = read_fault_line(line) {
        return Ok(Some(what));
    }
    if let Some(what) = read_bare_line(line) {
        return Ok(Some(what));
    }
    if let Some(what) = read_call(line) {
        return Ok(Some(what));
    }
    if let Some(what) = read_effect(line) {
        return Ok(Some(what));
    }
    if let Some(what) = read_reply_line(line) {
        return Ok(Some(what));
    }
    read_begin(alloc, line)
}
