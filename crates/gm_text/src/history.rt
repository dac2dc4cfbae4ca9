//! Lines and whole histories.

ghost use Rattle.std.specs.Prelude.{◌≡◌, ◌∷◌, ◌++◌, [], codes, OnOk};
ghost use Rattle.std.specs.Fmt.{decimal};
ghost use Rattle.gm_io.specs.Adds.{Adds, outlet};
ghost use Rattle.gm_io.specs.Causes.{HasCause};
ghost use Rattle.gm_io.specs.Held.{Wrote};
ghost use Rattle.gm_text.specs.Text.{joined, actor_letter, actor_number, entry_text, entries_text, machine_text, history_text};

use crate::entries::put_what;
use crate::pieces::{Piece, put_pieces};
use crate::words::{huge_word, letter_of, number_of};
use gm_base::{Actor, Setup};
use gm_flat::Entry;
use gm_io::{Failed, Gathered, Sink};

fn put_head<K: Sink>(
    sink: &mut K,
    out: &mut Gathered,
    turn: u64,
    actor: Actor,
) -> Result<(), Failed>
    ensures { Adds (outlet (K.held sink.old) out.old (K.faults sink.old)) (outlet (K.held sink.new) out.new (K.faults sink.new)) (joined (decimal turn ∷ codes " " ∷ actor_letter actor ∷ decimal (actor_number actor) ∷ codes " " ∷ [])) result }
{
    put_text!(sink, out; Number turn, Word letter_of(actor), Number number_of(actor), Word b" ")
}

fn put_entry<K: Sink>(sink: &mut K, out: &mut Gathered, entry: &Entry) -> Result<(), Failed>
    ensures { Adds (outlet (K.held sink.old) out.old (K.faults sink.old)) (outlet (K.held sink.new) out.new (K.faults sink.new)) (entry_text entry.now) result }
{
    put!(put_head(sink, out, entry.turn, entry.actor));
    put!(put_what(sink, out, &entry.what));
    out.add(sink, b"\n")
}

fn put_entries<K: Sink>(sink: &mut K, out: &mut Gathered, entries: &[Entry]) -> Result<(), Failed>
    ensures { Adds (outlet (K.held sink.old) out.old (K.faults sink.old)) (outlet (K.held sink.new) out.new (K.faults sink.new)) (entries_text entries.now) result }
{
    for entry in entries {
        put!(put_entry(sink, out, entry));
    }
    Ok(())
}

fn put_setup<K: Sink>(sink: &mut K, out: &mut Gathered, setup: Setup) -> Result<(), Failed>
    ensures { Adds (outlet (K.held sink.old) out.old (K.faults sink.old)) (outlet (K.held sink.new) out.new (K.faults sink.new)) (machine_text setup) result }
{
    put_text!(
        sink, out;
        Word b"machine frames=", Number setup.frames as u64, Word b" user=", Number setup.user as u64,
        Word b" vcpus=", Number setup.vcpus as u64, Word b" callers=", Number setup.callers as u64,
        Word b" huge=", Word huge_word(setup.huge), Word b"\n"
    )
}

fn put_history<K: Sink>(
    sink: &mut K,
    out: &mut Gathered,
    setup: Setup,
    entries: &[Entry],
    turns: u64,
) -> Result<(), Failed>
    ensures { Adds (outlet (K.held sink.old) out.old (K.faults sink.old)) (outlet (K.held sink.new) out.new (K.faults sink.new)) (history_text setup entries.now turns) result }
{
    put!(out.add(sink, b"gmem-history 2\n"));
    put!(put_setup(sink, out, setup));
    put!(put_entries(sink, out, entries));
    put_text!(sink, out; Word b"end turns=", Number turns, Word b" entries=", Number entries.len() as u64, Word b"\n")
}

/// Appends an entry's line to what the sink holds. Where the sink fails, a front of the line was appended.
pub fn write_entry<K: Sink>(sink: &mut K, entry: &Entry) -> Result<(), Failed>
    ensures wrote { Wrote (K.held sink.old) (K.held sink.new) (entry_text entry.now) result }
    ensures cause { HasCause (K.faults sink.old) (K.faults sink.new) result }
{
    let mut out = Gathered::new();
    put!(put_entry(sink, &mut out, entry));
    out.put(sink)
}

/// Appends the text of a history: its setup, its entries with the oldest first, and the count of turns. It puts at
/// most once for each 16 KiB where the sink takes all that it is offered, and takes no memory. Where the sink fails,
/// a front of the text was appended.
pub fn write_history<K: Sink>(
    sink: &mut K,
    setup: Setup,
    entries: &[Entry],
    turns: u64,
) -> Result<(), Failed>
    ensures wrote { Wrote (K.held sink.old) (K.held sink.new) (history_text setup entries.now turns) result }
    ensures cause { HasCause (K.faults sink.old) (K.faults sink.new) result }
{
    let mut out = Gathered::new();
    put!(put_history(sink, &mut out, setup, entries, turns));
    out.put(sink)
}
