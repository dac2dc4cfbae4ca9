//! Calls that need no slot and no file: create, poke and peek.

ghost use Rattle.std.specs.Prelude.{◌≡◌, ◌<◌, List, [], length, ℕ};
ghost use Rattle.gm_base.specs.declared.numbers.TheConstants.{PAGE_WORDS};
ghost use Rattle.gm_flat.specs.Calls.{Plan, Reads, Short, page_of, word_in};
ghost use Rattle.gm_flat.specs.Effects.{U32_LIMIT};
ghost use Rattle.gm_flat.specs.FlatState.{Flat};
ghost use Rattle.gm_flat.specs.declared.effect.Effect.TheVariants.{Word};
ghost use Rattle.gm_ioctl.specs.InRange.{WordInRange};
ghost use Rattle.gm_ioctl.specs.Remaining.{new_file};
ghost use Rattle.gm_calls.specs.Judgements.{Tells};
ghost use Rattle.gm_calls.specs.Lent.{LentStand};

use crate::judged::Judged;
use crate::parts::Parts;
use gm_base::{BLOCK, PAGE_BYTES, WORD_BYTES};
use gm_flat::Effect;

/// A file is made with the number of files that were made before it.
pub(crate) fn judge_create(parts: &Parts<'_>, size: u64, flags: u64) -> Judged
    requires { length parts.now.files.now < U32_LIMIT }
    ensures { (f : Flat) → LentStand parts.now f → Tells parts.now.user.now (new_file size flags f) result [] }
{
    let number = parts.files.len() as u32;
    let made = Effect::File {
        file: number,
        pages: size / PAGE_BYTES,
        block: flags == BLOCK,
    };
    Judged::Short(made, u64::from(number))
}

/// A poke writes a word of user memory.
pub(crate) fn judge_poke(address: u64, value: u64) -> Judged
    ensures { (user : List (List ℕ)) → Tells user (Short (Word (page_of address) (word_in address) value) 0) result [] }
{
    let written = Effect::Word {
        page: address / PAGE_BYTES,
        word: word_number(address),
        value,
    };
    Judged::Short(written, 0)
}

/// A peek answers a word of user memory.
pub(crate) fn judge_peek(parts: &Parts<'_>, address: u64) -> Judged
    requires user { length parts.now.user.now ≡ parts.now.setup.user }
    requires range { WordInRange parts.now.setup.user address }
    ensures { Tells parts.now.user.now (Reads (page_of address) (word_in address)) result [] }
{
    // Read for what its type says: the page is below a number of 32 bits.
    let _user = parts.setup.user;
    let page = (address / PAGE_BYTES) as u32;
    Judged::Same(parts.user.read(page, word_number(address)))
}

/// The number of the word at an address among those of its page.
fn word_number(address: u64) -> u16
    ensures word { result ≡ word_in address }
    ensures bound { result < PAGE_WORDS }
{
    (address % PAGE_BYTES / WORD_BYTES) as u16
}
