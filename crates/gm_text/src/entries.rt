//! What actors do in their turns.

ghost use Rattle.std.specs.Prelude.{◌++◌, ◌∷◌, [], codes};
ghost use Rattle.std.specs.Fmt.{decimal};
ghost use Rattle.gm_io.specs.Adds.{Adds, outlet};
ghost use Rattle.gm_flat.specs.declared.entry.What.TheVariants.{Touch, Install, Page as PageTurn, Free};
ghost use Rattle.gm_text.specs.Text.{joined, access_text, backing_text, get_text, exit_text, level_text, span_text, spans_text, what_text};

use crate::calls::{put_call, put_reply};
use crate::effects::put_effect;
use crate::pieces::{Piece, put_pieces};
use crate::words::{kind_word, level_word};
use gm_base::{Access, Folio, Kind, Level, Op, Page, Span};
use gm_flat::{Backing, Exit, What};
use gm_io::{Failed, Gathered, Sink};

fn put_missed<K: Sink>(sink: &mut K, out: &mut Gathered, access: Access) -> Result<(), Failed>
    ensures { Adds (outlet (K.held sink.old) out.old (K.faults sink.old)) (outlet (K.held sink.new) out.new (K.faults sink.new)) (codes "miss " ++ access_text access) result }
{
    put_access!(sink, out, access; b"miss read private ", b"miss read shared ", b"miss write private ", b"miss write shared ")
}

fn put_touched<K: Sink>(sink: &mut K, out: &mut Gathered, access: Access) -> Result<(), Failed>
    ensures { Adds (outlet (K.held sink.old) out.old (K.faults sink.old)) (outlet (K.held sink.new) out.new (K.faults sink.new)) (codes "touch " ++ access_text access) result }
{
    put_access!(sink, out, access; b"touch read private ", b"touch read shared ", b"touch write private ", b"touch write shared ")
}

// After a space.
fn put_backing<K: Sink>(sink: &mut K, out: &mut Gathered, backing: Backing) -> Result<(), Failed>
    ensures { Adds (outlet (K.held sink.old) out.old (K.faults sink.old)) (outlet (K.held sink.new) out.new (K.faults sink.new)) (codes " " ++ backing_text backing) result }
{
    match backing {
        Backing::User(page) => put_text!(sink, out; Word b" user=", Number page),
        Backing::Folio(folio) => {
            put_text!(sink, out; Word b" serial=", Number folio.serial, Word b" frame=", Number folio.frame as u64)
        }
    }
}

// The end of a touch's text.
fn put_read<K: Sink>(
    sink: &mut K,
    out: &mut Gathered,
    level: Level,
    value: u64,
    fill: u64,
) -> Result<(), Failed>
    ensures { Adds (outlet (K.held sink.old) out.old (K.faults sink.old)) (outlet (K.held sink.new) out.new (K.faults sink.new)) (joined (codes " level=" ∷ level_text level ∷ codes " value=" ∷ decimal value ∷ codes " fill=" ∷ decimal fill ∷ [])) result }
{
    match level {
        Level::Small => {
            put_text!(sink, out; Word b" level=4k value=", Number value, Word b" fill=", Number fill)
        }
        Level::Block => {
            put_text!(sink, out; Word b" level=2m value=", Number value, Word b" fill=", Number fill)
        }
    }
}

fn put_get<K: Sink>(
    sink: &mut K,
    out: &mut Gathered,
    backing: Backing,
    fresh: u16,
) -> Result<(), Failed>
    ensures { Adds (outlet (K.held sink.old) out.old (K.faults sink.old)) (outlet (K.held sink.new) out.new (K.faults sink.new)) (get_text backing fresh) result }
{
    match backing {
        Backing::User(page) => put_text!(sink, out; Word b"get user=", Number page),
        Backing::Folio(folio) => {
            put_text!(sink, out; Word b"get serial=", Number folio.serial, Word b" frame=", Number folio.frame as u64, Word b" fresh=", Number fresh as u64)
        }
    }
}

fn put_exit<K: Sink>(sink: &mut K, out: &mut Gathered, why: Exit) -> Result<(), Failed>
    ensures { Adds (outlet (K.held sink.old) out.old (K.faults sink.old)) (outlet (K.held sink.new) out.new (K.faults sink.new)) (exit_text why) result }
{
    match why {
        Exit::Fault { flags, gpa, size } => {
            put_text!(sink, out; Word b"exit reason=39 errno=14 flags=", Number flags, Word b" gpa=", Number gpa, Word b" size=", Number size)
        }
        Exit::Mmio { gpa } => put_text!(sink, out; Word b"exit reason=6 gpa=", Number gpa),
        Exit::NoFrame => out.add(sink, b"exit errno=12"),
    }
}

fn put_span<K: Sink>(sink: &mut K, out: &mut Gathered, span: Span) -> Result<(), Failed>
    ensures { Adds (outlet (K.held sink.old) out.old (K.faults sink.old)) (outlet (K.held sink.new) out.new (K.faults sink.new)) (span_text span) result }
{
    put_text!(sink, out; Word b" ", Number span.lo(), Word b"-", Number span.hi())
}

fn put_spans<K: Sink>(sink: &mut K, out: &mut Gathered, spans: &[Span]) -> Result<(), Failed>
    ensures { Adds (outlet (K.held sink.old) out.old (K.faults sink.old)) (outlet (K.held sink.new) out.new (K.faults sink.new)) (spans_text spans.now) result }
{
    for span in spans {
        put!(put_span(sink, out, *span));
    }
    Ok(())
}

fn put_begin<K: Sink>(sink: &mut K, out: &mut Gathered, spans: &[Span]) -> Result<(), Failed>
    ensures { Adds (outlet (K.held sink.old) out.old (K.faults sink.old)) (outlet (K.held sink.new) out.new (K.faults sink.new)) (codes "begin" ++ spans_text spans.now) result }
{
    put!(out.add(sink, b"begin"));
    put_spans(sink, out, spans)
}

fn put_touch<K: Sink>(
    sink: &mut K,
    out: &mut Gathered,
    access: Access,
    backing: Backing,
    level: Level,
    value: u64,
    fill: u64,
) -> Result<(), Failed>
    ensures { Adds (outlet (K.held sink.old) out.old (K.faults sink.old)) (outlet (K.held sink.new) out.new (K.faults sink.new)) (what_text (Touch access backing level value fill)) result }
{
    put!(put_touched(sink, out, access));
    put!(put_backing(sink, out, backing));
    put_read(sink, out, level, value, fill)
}

fn put_install<K: Sink>(
    sink: &mut K,
    out: &mut Gathered,
    page: Page,
    level: Level,
) -> Result<(), Failed>
    ensures { Adds (outlet (K.held sink.old) out.old (K.faults sink.old)) (outlet (K.held sink.new) out.new (K.faults sink.new)) (what_text (Install page level)) result }
{
    put_text!(sink, out; Word b"install page=", Number page.number(), Word b" level=", Word level_word(level))
}

fn put_page<K: Sink>(
    sink: &mut K,
    out: &mut Gathered,
    index: u64,
    folio: Folio,
    pages: u16,
) -> Result<(), Failed>
    ensures { Adds (outlet (K.held sink.old) out.old (K.faults sink.old)) (outlet (K.held sink.new) out.new (K.faults sink.new)) (what_text (PageTurn index folio pages)) result }
{
    put!(put_text!(sink, out; Word b"page index=", Number index));
    put_folio(sink, out, folio, pages)
}

// The end of a page's text.
fn put_folio<K: Sink>(
    sink: &mut K,
    out: &mut Gathered,
    folio: Folio,
    pages: u16,
) -> Result<(), Failed>
    ensures { Adds (outlet (K.held sink.old) out.old (K.faults sink.old)) (outlet (K.held sink.new) out.new (K.faults sink.new)) (joined (codes " serial=" ∷ decimal folio.serial ∷ codes " frame=" ∷ decimal folio.frame ∷ codes " pages=" ∷ decimal pages ∷ [])) result }
{
    put_text!(sink, out; Word b" serial=", Number folio.serial, Word b" frame=", Number folio.frame as u64, Word b" pages=", Number pages as u64)
}

fn put_free<K: Sink>(
    sink: &mut K,
    out: &mut Gathered,
    folio: Folio,
    pages: u32,
) -> Result<(), Failed>
    ensures { Adds (outlet (K.held sink.old) out.old (K.faults sink.old)) (outlet (K.held sink.new) out.new (K.faults sink.new)) (what_text (Free folio pages)) result }
{
    put_text!(sink, out; Word b"free serial=", Number folio.serial, Word b" frame=", Number folio.frame as u64, Word b" pages=", Number pages as u64)
}

pub fn put_what<K: Sink>(sink: &mut K, out: &mut Gathered, what: &What) -> Result<(), Failed>
    ensures { Adds (outlet (K.held sink.old) out.old (K.faults sink.old)) (outlet (K.held sink.new) out.new (K.faults sink.new)) (what_text what.now) result }
{
    match what {
        What::Enter => out.add(sink, b"enter"),
        What::Flush => out.add(sink, b"flush"),
        What::Miss { access } => put_missed(sink, out, *access),
        What::Sample { at } => put_text!(sink, out; Word b"sample at=", Number *at),
        What::Look {
            at,
            slot,
            attr,
            file,
        } => {
            put_text!(sink, out; Word b"look at=", Number *at, Word b" slot=", Maybe *slot, Word b" attr=", Word kind_word(*attr), Word b" file=", Maybe *file)
        }
        What::Get { backing, fresh } => put_get(sink, out, *backing, *fresh),
        What::Install { page, level } => put_install(sink, out, *page, *level),
        What::Retry => out.add(sink, b"retry"),
        What::Touch {
            access,
            backing,
            level,
            value,
            fill,
        } => put_touch(sink, out, *access, *backing, *level, *value, *fill),
        What::Left { why } => put_exit(sink, out, *why),
        What::Judge { call } => put_call(sink, out, *call),
        What::Begin { spans } => put_begin(sink, out, spans.list()),
        What::Acked => out.add(sink, b"acked"),
        What::Change { effect } => put_effect(sink, out, *effect),
        What::Page {
            index,
            folio,
            pages,
        } => put_page(sink, out, *index, *folio, *pages),
        What::End => out.add(sink, b"end"),
        What::Answer { reply } => put_reply(sink, out, *reply),
        What::Free { folio, pages } => put_free(sink, out, *folio, *pages),
        What::Gone => out.add(sink, b"gone"),
    }
}
