//! Lines of what calls change.

ghost use Rattle.std.specs.Prelude.{◌≡◌};
ghost use Rattle.gm_history.specs.Whats.{file_of, filed_slot_of, plain_slot_of, mark_of, noslot_of, move_of, attr_of, cut_line_of, shut_of, word_of, effect_of};

use crate::entries::ended;
use crate::fields::{
    bit_after, kind_after, number_after, small_after, span_after, span_of, tiny_after, word,
};
use gm_flat::{Effect, What};

#[tactic(auto, unfolding(crate::specs::Whats::file_of))]
fn read_file(line: &[u8]) -> Option<What>
    ensures { result ≡ file_of line.now }
{
    let file = small_after(b"change file ", line)?;
    let pages = number_after(b" pages=", file.rest)?;
    let block = bit_after(b" block=", pages.rest)?;
    ended(
        block.rest,
        What::Change {
            effect: Effect::File {
                file: file.value,
                pages: pages.value,
                block: block.value,
            },
        },
    )
}

#[tactic(auto, unfolding(crate::specs::Whats::filed_slot_of))]
fn read_filed_slot(line: &[u8]) -> Option<What>
    ensures { result ≡ filed_slot_of line.now }
{
    let slot = small_after(b"change slot ", line)?;
    let base = number_after(b" base=", slot.rest)?;
    let pages = number_after(b" pages=", base.rest)?;
    let user = number_after(b" user=", pages.rest)?;
    let flags = small_after(b" flags=", user.rest)?;
    let file = small_after(b" file=", flags.rest)?;
    let index = number_after(b" index=", file.rest)?;
    ended(
        index.rest,
        What::Change {
            effect: Effect::Slot {
                slot: slot.value,
                base: base.value,
                pages: pages.value,
                user: user.value,
                flags: flags.value,
                file: Some(file.value),
                index: index.value,
            },
        },
    )
}

#[tactic(auto, unfolding(crate::specs::Whats::plain_slot_of))]
fn read_plain_slot(line: &[u8]) -> Option<What>
    ensures { result ≡ plain_slot_of line.now }
{
    let slot = small_after(b"change slot ", line)?;
    let base = number_after(b" base=", slot.rest)?;
    let pages = number_after(b" pages=", base.rest)?;
    let user = number_after(b" user=", pages.rest)?;
    let flags = small_after(b" flags=", user.rest)?;
    let last = word(b" file=- index=0", flags.rest)?;
    ended(
        last.rest,
        What::Change {
            effect: Effect::Slot {
                slot: slot.value,
                base: base.value,
                pages: pages.value,
                user: user.value,
                flags: flags.value,
                file: None,
                index: 0,
            },
        },
    )
}

#[tactic(auto, unfolding(crate::specs::Whats::mark_of))]
fn read_mark(line: &[u8]) -> Option<What>
    ensures { result ≡ mark_of line.now }
{
    let slot = small_after(b"change mark ", line)?;
    ended(
        slot.rest,
        What::Change {
            effect: Effect::Mark { slot: slot.value },
        },
    )
}

#[tactic(auto, unfolding(crate::specs::Whats::noslot_of))]
fn read_noslot(line: &[u8]) -> Option<What>
    ensures { result ≡ noslot_of line.now }
{
    let slot = small_after(b"change noslot ", line)?;
    ended(
        slot.rest,
        What::Change {
            effect: Effect::NoSlot { slot: slot.value },
        },
    )
}

#[tactic(auto, unfolding(crate::specs::Whats::move_of))]
fn read_move(line: &[u8]) -> Option<What>
    ensures { result ≡ move_of line.now }
{
    let slot = small_after(b"change move ", line)?;
    let base = number_after(b" base=", slot.rest)?;
    ended(
        base.rest,
        What::Change {
            effect: Effect::Move {
                slot: slot.value,
                base: base.value,
            },
        },
    )
}

#[tactic(auto, unfolding(crate::specs::Whats::attr_of))]
fn read_attr(line: &[u8]) -> Option<What>
    ensures { result ≡ attr_of line.now }
{
    let span = span_after(b"change attr ", line)?;
    let kind = kind_after(b" ", span.rest)?;
    ended(
        kind.rest,
        What::Change {
            effect: Effect::Attr {
                span: span_of(span.value),
                kind: kind.value,
            },
        },
    )
}

#[tactic(auto, unfolding(crate::specs::Whats::cut_line_of))]
fn read_cut_line(line: &[u8]) -> Option<What>
    ensures { result ≡ cut_line_of line.now }
{
    let file = small_after(b"change cut ", line)?;
    let lo = number_after(b" ", file.rest)?;
    let hi = number_after(b"-", lo.rest)?;
    ended(
        hi.rest,
        What::Change {
            effect: Effect::Cut {
                file: file.value,
                lo: lo.value,
                hi: hi.value,
            },
        },
    )
}

#[tactic(auto, unfolding(crate::specs::Whats::shut_of))]
fn read_shut(line: &[u8]) -> Option<What>
    ensures { result ≡ shut_of line.now }
{
    let file = small_after(b"change shut ", line)?;
    ended(
        file.rest,
        What::Change {
            effect: Effect::Shut { file: file.value },
        },
    )
}

#[tactic(auto, unfolding(crate::specs::Whats::word_of))]
fn read_word(line: &[u8]) -> Option<What>
    ensures { result ≡ word_of line.now }
{
    let page = number_after(b"change word page=", line)?;
    let word = tiny_after(b" word=", page.rest)?;
    let value = number_after(b" value=", word.rest)?;
    ended(
        value.rest,
        What::Change {
            effect: Effect::Word {
                page: page.value,
                word: word.value,
                value: value.value,
            },
        },
    )
}

/// What a line says that tells a change.
#[tactic(auto, unfolding(crate::specs::Whats::effect_of))]
pub fn read_effect(line: &[u8]) -> Option<What>
    ensures { result ≡ effect_of line.now }
{
    if let Some(what) = read_file(line) {
        return Some(what);
    }
    if let Some(what) = read_filed_slot(line) {
        return Some(what);
    }
    if let Some(what) = read_plain_slot(line) {
        return Some(what);
    }
    if let Some(what) = read_mark(line) {
        return Some(what);
    }
    if let Some(what) = read_noslot(line) {
        return Some(what);
    }
    if let Some(what) = read_move(line) {
        return Some(what);
    }
    if let Some(what) = read_attr(line) {
        return Some(what);
    }
    if let Some(what) = read_cut_line(line) {
        return Some(what);
    }
    if let Some(what) = read_shut(line) {
        return Some(what);
    }
    read_word(line)
}
