//! What calls change.

ghost use Rattle.gm_io.specs.Adds.{Adds, outlet};
ghost use Rattle.gm_text.specs.Text.{effect_text};

use crate::pieces::{Piece, put_pieces};
use crate::words::{bit_word, kind_word};
use gm_flat::Effect;
use gm_io::{Failed, Gathered, Sink};

pub fn put_effect<K: Sink>(sink: &mut K, out: &mut Gathered, effect: Effect) -> Result<(), Failed>
    ensures { Adds (outlet (K.held sink.old) out.old (K.faults sink.old)) (outlet (K.held sink.new) out.new (K.faults sink.new)) (effect_text effect) result }
{
    match effect {
        Effect::File { file, pages, block } => {
            put_text!(sink, out; Word b"change file ", Number file as u64, Word b" pages=", Number pages, Word b" block=", Word bit_word(block))
        }
        Effect::Slot {
            slot,
            base,
            pages,
            user,
            flags,
            file,
            index,
        } => {
            put_text!(
                sink, out;
                Word b"change slot ", Number slot as u64, Word b" base=", Number base, Word b" pages=", Number pages,
                Word b" user=", Number user, Word b" flags=", Number flags as u64, Word b" file=", Maybe file,
                Word b" index=", Number index
            )
        }
        Effect::Mark { slot } => put_text!(sink, out; Word b"change mark ", Number slot as u64),
        Effect::NoSlot { slot } => put_text!(sink, out; Word b"change noslot ", Number slot as u64),
        Effect::Move { slot, base } => {
            put_text!(sink, out; Word b"change move ", Number slot as u64, Word b" base=", Number base)
        }
        Effect::Attr { span, kind } => {
            put_text!(sink, out; Word b"change attr ", Number span.lo(), Word b"-", Number span.hi(), Word b" ", Word kind_word(kind))
        }
        Effect::Cut { file, lo, hi } => {
            put_text!(sink, out; Word b"change cut ", Number file as u64, Word b" ", Number lo, Word b"-", Number hi)
        }
        Effect::Shut { file } => put_text!(sink, out; Word b"change shut ", Number file as u64),
        Effect::Word { page, word, value } => {
            put_text!(sink, out; Word b"change word page=", Number page, Word b" word=", Number word as u64, Word b" value=", Number value)
        }
    }
}
