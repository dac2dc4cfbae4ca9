//! The line that tells what a generated script came to.

ghost use Rattle.std.specs.Prelude.{◌≡◌, length};
ghost use Rattle.gm_io.specs.Adds.{Adds, outlet};
ghost use Rattle.gm_io.specs.Causes.{HasCause};
ghost use Rattle.gm_io.specs.Held.{Wrote};
ghost use Rattle.gm_summary.specs.Summary.{summary_by, summary_text};

use crate::totals::{Totals, totals_of};
use gm_flat::Entry;
use gm_io::{Failed, Gathered, Sink};
use gm_text::{Piece, put_pieces};

/// Appends the line of a script's number, its turns and the entries of its history, `bulk number=N turns=T entries=E
/// touches=A exits=B retries=C frees=D`. Where the sink fails, a front of it was appended. It takes no memory.
#[tactic(auto, unfolding(crate::specs::Summary::summary_text))]
pub fn write_summary<K: Sink>(
    sink: &mut K,
    number: u64,
    turns: u64,
    entries: &[Entry],
) -> Result<(), Failed>
    ensures wrote { Wrote (K.held sink.old) (K.held sink.new) (summary_text number turns entries.now) result }
    ensures cause { HasCause (K.faults sink.old) (K.faults sink.new) result }
{
    let totals = totals_of(entries);
    let mut digits = itoa::Buffer::new();
    let frees = digits.format(totals.frees);
    write_line(
        sink,
        number,
        turns,
        entries.len() as u64,
        totals,
        frees.as_bytes(),
    )
}

fn write_line<K: Sink>(
    sink: &mut K,
    number: u64,
    turns: u64,
    entries: u64,
    totals: Totals,
    frees: &[u8],
) -> Result<(), Failed>
    ensures wrote { Wrote (K.held sink.old) (K.held sink.new) (summary_by number turns entries totals frees.now) result }
    ensures cause { HasCause (K.faults sink.old) (K.faults sink.new) result }
{
    let mut out = Gathered::new();
    match put_line(sink, &mut out, number, turns, entries, totals, frees) {
        Ok(()) => {}
        Err(failed) => return Err(failed),
    }
    out.put(sink)
}

fn put_line<K: Sink>(
    sink: &mut K,
    out: &mut Gathered,
    number: u64,
    turns: u64,
    entries: u64,
    totals: Totals,
    frees: &[u8],
) -> Result<(), Failed>
    ensures { Adds (outlet (K.held sink.old) out.old (K.faults sink.old)) (outlet (K.held sink.new) out.new (K.faults sink.new)) (summary_by number turns entries totals frees.now) result }
{
    put_pieces(
        sink,
        out,
        &[
            Piece::Word(b"bulk number="),
            Piece::Number(number),
            Piece::Word(b" turns="),
            Piece::Number(turns),
            Piece::Word(b" entries="),
            Piece::Number(entries),
            Piece::Word(b" touches="),
            Piece::Number(totals.touches),
            Piece::Word(b" exits="),
            Piece::Number(totals.exits),
            Piece::Word(b" retries="),
            Piece::Number(totals.retries),
            Piece::Word(b" frees="),
            Piece::Word(frees),
            Piece::Word(b"\n"),
        ],
    )
}
