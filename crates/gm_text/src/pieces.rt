//! Texts made of words and numbers.

ghost use Rattle.std.specs.Prelude.{◌≡◌};
ghost use Rattle.std.specs.Fmt.{decimal};
ghost use Rattle.gm_io.specs.Adds.{Adds, outlet};
ghost use Rattle.gm_text.specs.Pieces.{text_of, piece_text};

use gm_io::{Failed, Gathered, Sink};

/// A word or a number of a text.
#[derive(Clone, Copy)]
pub enum Piece<'a> {
    /// A number, in decimal digits without leading zeros.
    Number(u64),
    /// Bytes as they are.
    Word(&'a [u8]),
    /// A number, or a hyphen where there is none.
    Maybe(Option<u32>),
}

/// Appends the pieces one after another. Where the sink fails, a front of their text was appended.
#[inline(always)]
pub fn put_pieces<K: Sink>(
    sink: &mut K,
    out: &mut Gathered,
    pieces: &[Piece<'_>],
) -> Result<(), Failed>
    ensures { Adds (outlet (K.held sink.old) out.old (K.faults sink.old)) (outlet (K.held sink.new) out.new (K.faults sink.new)) (text_of pieces.now) result }
{
    for piece in pieces {
        put!(put_piece(sink, out, *piece));
    }
    Ok(())
}

#[inline(always)]
fn put_piece<K: Sink>(sink: &mut K, out: &mut Gathered, piece: Piece<'_>) -> Result<(), Failed>
    ensures { Adds (outlet (K.held sink.old) out.old (K.faults sink.old)) (outlet (K.held sink.new) out.new (K.faults sink.new)) (piece_text piece.entry) result }
{
    match piece {
        Piece::Word(word) => out.add(sink, word),
        Piece::Number(n) => put_number(sink, out, n),
        Piece::Maybe(Some(n)) => put_number(sink, out, u64::from(n)),
        Piece::Maybe(None) => out.add(sink, b"-"),
    }
}

// Many numbers of a text have one digit, as those of most actors.
#[inline(never)]
fn put_number<K: Sink>(sink: &mut K, out: &mut Gathered, n: u64) -> Result<(), Failed>
    ensures { Adds (outlet (K.held sink.old) out.old (K.faults sink.old)) (outlet (K.held sink.new) out.new (K.faults sink.new)) (decimal n) result }
{
    if n < 10 {
        out.add(sink, &[b'0' + n as u8])
    } else {
        put_digits(sink, out, n)
    }
}

#[inline(never)]
fn put_digits<K: Sink>(sink: &mut K, out: &mut Gathered, n: u64) -> Result<(), Failed>
    ensures { Adds (outlet (K.held sink.old) out.old (K.faults sink.old)) (outlet (K.held sink.new) out.new (K.faults sink.new)) (decimal n) result }
{
    let mut digits = itoa::Buffer::new();
    out.add(sink, digits.format(n).as_bytes())
}
