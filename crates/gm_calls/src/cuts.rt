//! Punches and closes.

ghost use Rattle.std.specs.Prelude.{◌≡◌, ◌≤◌, []};
ghost use Rattle.gm_base.specs.declared.numbers.TheConstants.{PAGE_LIMIT, SLOT_IDS};
ghost use Rattle.gm_flat.specs.Calls.{close_plan};
ghost use Rattle.gm_flat.specs.FlatState.{Flat};
ghost use Rattle.gm_ioctl.specs.InRange.{OffsetsInRange};
ghost use Rattle.gm_ioctl.specs.Remaining.{cut_range};
ghost use Rattle.gm_calls.specs.Judgements.{Tells};
ghost use Rattle.gm_calls.specs.Lent.{LentStand};

use crate::judged::Judged;
use crate::parts::Parts;
use crate::spanned::put_parts;
use gm_base::{Errno, PAGE_BYTES, PAGE_LIMIT};
use gm_flat::{Effect, Spans};

/// A punch is the cut of a file in use.
pub(crate) fn judge_punch(
    parts: &Parts<'_>,
    fd: u32,
    offset: u64,
    length: u64,
    spans: &mut Spans,
) -> Judged
    requires state { (f : Flat) × LentStand parts.now f }
    requires range { OffsetsInRange offset length }
    requires room { SLOT_IDS ≤ spans.old.spare }
    requires empty { spans.old.list ≡ [] }
    ensures { (f : Flat) → LentStand parts.now f → Tells parts.now.user.now (cut_range fd offset length f) result spans.new.list }
{
    match parts.file(fd) {
        None => Judged::Refused(Errno::BadF),
        Some(file) => {
            let lo = offset / PAGE_BYTES;
            let hi = (offset + length) / PAGE_BYTES;
            put_parts(parts.slots, fd, file, lo, hi, spans);
            Judged::Bracket(Effect::Cut { file: fd, lo, hi })
        }
    }
}

/// A close shuts a file in use.
pub(crate) fn judge_close(parts: &Parts<'_>, fd: u32, spans: &mut Spans) -> Judged
    requires state { (f : Flat) × LentStand parts.now f }
    requires room { SLOT_IDS ≤ spans.old.spare }
    requires empty { spans.old.list ≡ [] }
    ensures { (f : Flat) → LentStand parts.now f → Tells parts.now.user.now (close_plan fd f) result spans.new.list }
{
    match parts.file(fd) {
        None => Judged::Refused(Errno::BadF),
        Some(file) => {
            put_parts(parts.slots, fd, file, 0, PAGE_LIMIT, spans);
            Judged::Bracket(Effect::Shut { file: fd })
        }
    }
}
