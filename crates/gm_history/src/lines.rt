//! Lines of entries, in both versions.

ghost use Rattle.std.specs.Prelude.{◌≡◌, List, IfOk, IfSome};
ghost use Rattle.gm_history.specs.Frames.{Knows};
ghost use Rattle.gm_history.specs.Given.{after_giving, giving_of};
ghost use Rattle.gm_history.specs.Lines.{entry_in};
ghost use Rattle.gm_history.specs.OldWhats.{what_in};
ghost use Rattle.gm_history.specs.declared.given.Run.{Run};

use crate::entries::read_what;
use crate::fields::{actor_after, number_after, word};
use crate::frames::Frames;
use crate::old::read_old_what;
use crate::version::Version;
use gm_base::NoMemory;
use gm_flat::{Entry, What};
use std::alloc::Global;

/// What the end of an entry's line says.
fn read_what_in(
    alloc: Global,
    version: Version,
    frames: &mut Frames,
    line: &[u8],
) -> Result<Option<What>, NoMemory>
    ensures what { (runs : List Run) → Knows version frames.old runs → IfOk result (λ what. what ≡ what_in version runs line.now) }
    ensures known { (runs : List Run) → Knows version frames.old runs → IfOk result (λ what. IfSome what (λ w. Knows version frames.new (after_giving (giving_of w) runs))) }
{
    match version {
        Version::One => read_old_what(alloc, frames, line),
        Version::Two => read_what(alloc, line),
    }
}

/// The entry of a line. None where the line is that of no entry. In version 1 the frames that it gives are known then.
#[tactic(auto, unfolding(crate::specs::Lines::entry_in))]
pub fn read_entry(
    alloc: Global,
    version: Version,
    frames: &mut Frames,
    line: &[u8],
) -> Result<Option<Entry>, NoMemory>
    ensures entry { (runs : List Run) → Knows version frames.old runs → IfOk result (λ entry. entry ≡ entry_in version runs line.now) }
    ensures known { (runs : List Run) → Knows version frames.old runs → IfOk result (λ entry. IfSome entry (λ e. Knows version frames.new (after_giving (giving_of e.what) runs))) }
{
    let turn = match number_after(b"", line) {
        Some(turn) => turn,
        None => return Ok(None),
    };
    let actor = match actor_after(b" ", turn.rest) {
        Some(actor) => actor,
        None => return Ok(None),
    };
    let space = match word(b" ", actor.rest) {
        Some(space) => space,
        None => return Ok(None),
    };
    match read_what_in(alloc, version, frames, space.rest)? {
        Some(what) => Ok(Some(Entry {
            turn: turn.value,
            actor: actor.value,
            what,
        })),
        None => Ok(None),
    }
}
