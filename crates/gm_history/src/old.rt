//! Lines of version 1.

ghost use Rattle.std.specs.Prelude.{◌≡◌, List, IfOk, IfSome};
ghost use Rattle.gm_history.specs.Frames.{TellsFrames, starts_of};
ghost use Rattle.gm_history.specs.Given.{after_giving, giving_of};
ghost use Rattle.gm_history.specs.OldWhats.{if_kept, old_touch_of, old_what_of};
ghost use Rattle.gm_history.specs.declared.given.Run.{Run};

use crate::cuts::strip;
use crate::entries::read_what;
use crate::faults::{access, access_of, touch_on};
use crate::fields::number_after;
use crate::frames::Frames;
use crate::given::{Giving, giving_of};
use gm_base::{Folio, NoMemory};
use gm_flat::{Backing, What};
use std::alloc::Global;

/// A touch of a folio, which tells its serial alone. None where no line before gave the serial a frame.
#[tactic(auto, unfolding(crate::specs::OldWhats::old_touch_of))]
fn read_old_touch(frames: &Frames, line: &[u8]) -> Option<What>
    ensures { (runs : List Run) → TellsFrames (starts_of frames.now.starts) runs → result ≡ old_touch_of runs line.now }
{
    let access = access(strip(b"touch ", line)?)?;
    let serial = number_after(b" serial=", access.rest)?;
    let frame = frames.frame(serial.value)?;
    let folio = Folio {
        serial: serial.value,
        frame,
    };
    touch_on(access_of(access.value), Backing::Folio(folio), serial.rest)
}

/// What a line of both versions says. None where version 1 has no such line.
fn keep(frames: &mut Frames, what: What) -> Result<Option<What>, NoMemory>
    ensures what { IfOk result (λ kept. kept ≡ if_kept (giving_of what) what) }
    ensures known { (runs : List Run) → TellsFrames (starts_of frames.old.starts) runs → IfOk result (λ kept. IfSome kept (λ w. TellsFrames (starts_of frames.new.starts) (after_giving (giving_of w) runs))) }
{
    match giving_of(&what) {
        Giving::Refused => Ok(None),
        Giving::NoSerial => Ok(Some(what)),
        Giving::Serials(run) => {
            frames.give(run)?;
            Ok(Some(what))
        }
    }
}

/// What the end of an entry's line says in version 1. The frames that it gives are known then.
#[tactic(auto, unfolding(crate::specs::OldWhats::old_what_of))]
pub fn read_old_what(
    alloc: Global,
    frames: &mut Frames,
    line: &[u8],
) -> Result<Option<What>, NoMemory>
    ensures what { (runs : List Run) → TellsFrames (starts_of frames.old.starts) runs → IfOk result (λ what. what ≡ old_what_of runs line.now) }
    ensures known { (runs : List Run) → TellsFrames (starts_of frames.old.starts) runs → IfOk result (λ what. IfSome what (λ w. TellsFrames (starts_of frames.new.starts) (after_giving (giving_of w) runs))) }
{
    match read_what(alloc, line)? {
        Some(what) => keep(frames, what),
        None => Ok(read_old_touch(frames, line)),
    }
}
