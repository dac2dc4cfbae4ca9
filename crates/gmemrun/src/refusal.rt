//! The line that says why a script or a history was refused.

ghost use Rattle.std.specs.Prelude.{◌≡◌};
ghost use Rattle.gm_io.specs.Adds.{Adds, outlet};
ghost use Rattle.gm_io.specs.Causes.{HasCause};
ghost use Rattle.gm_io.specs.Held.{Wrote};
ghost use Rattle.gmemrun.specs.Refusal.{bad_history_text, cause_text, refusal_by, refusal_text};

use gm_io::{Failed, Gathered, Sink};
use gm_script::Cause;
use gm_text::{Piece, put_pieces};

fn cause_word(cause: Cause) -> &'static [u8]
    ensures { result.now ≡ cause_text cause }
{
    match cause {
        Cause::Bytes => b"bytes",
        Cause::Cut => b"cut",
        Cause::Machine => b"machine",
        Cause::Word => b"word",
        Cause::Number => b"number",
        Cause::Actor => b"actor",
        Cause::Align => b"align",
        Cause::Limit => b"limit",
    }
}

/// Appends the line of a script's bad line and its cause. Where the sink fails, a front of it was appended.
pub fn write_refusal<K: Sink>(sink: &mut K, line: u64, cause: Cause) -> Result<(), Failed>
    ensures wrote { Wrote (K.held sink.old) (K.held sink.new) (refusal_text line cause) result }
    ensures cause { HasCause (K.faults sink.old) (K.faults sink.new) result }
{
    write_bad_line(sink, line, cause_word(cause))
}

/// Appends the line of a history's bad line. Where the sink fails, a front of it was appended.
pub fn write_bad_history<K: Sink>(sink: &mut K, line: u64) -> Result<(), Failed>
    ensures wrote { Wrote (K.held sink.old) (K.held sink.new) (bad_history_text line) result }
    ensures cause { HasCause (K.faults sink.old) (K.faults sink.new) result }
{
    write_bad_line(sink, line, b"history")
}

fn write_bad_line<K: Sink>(sink: &mut K, line: u64, word: &[u8]) -> Result<(), Failed>
    ensures wrote { Wrote (K.held sink.old) (K.held sink.new) (refusal_by line word.now) result }
    ensures cause { HasCause (K.faults sink.old) (K.faults sink.new) result }
{
    let mut out = Gathered::new();
    match put_bad_line(sink, &mut out, line, word) {
        Ok(()) => {}
        Err(failed) => return Err(failed),
    }
    out.put(sink)
}

fn put_bad_line<K: Sink>(
    sink: &mut K,
    out: &mut Gathered,
    line: u64,
    word: &[u8],
) -> Result<(), Failed>
    ensures { Adds (outlet (K.held sink.old) out.old (K.faults sink.old)) (outlet (K.held sink.new) out.new (K.faults sink.new)) (refusal_by line word.now) result }
{
    put_pieces(
        sink,
        out,
        &[
            Piece::Word(b"bad line="),
            Piece::Number(line),
            Piece::Word(b" cause="),
            Piece::Word(word),
            Piece::Word(b"\n"),
        ],
    )
}
