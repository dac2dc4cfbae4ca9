//! What a call comes to.

ghost use Rattle.std.specs.Prelude.{◌≡◌, ◌≤◌, ◌<◌, [], length};
ghost use Rattle.gm_base.specs.declared.numbers.TheConstants.{SLOT_IDS};
ghost use Rattle.gm_flat.specs.Calls.{plan};
ghost use Rattle.gm_flat.specs.Effects.{U32_LIMIT};
ghost use Rattle.gm_flat.specs.FlatState.{Flat};
ghost use Rattle.gm_ioctl.specs.InRange.{InRange};
ghost use Rattle.gm_ioctl.specs.Remaining.{state_plan};
ghost use Rattle.gm_calls.specs.Judgements.{Tells};
ghost use Rattle.gm_calls.specs.Lent.{LentStand};

use crate::attributes::judge_attrs;
use crate::cuts::{judge_close, judge_punch};
use crate::judged::Judged;
use crate::paged::{judge_allocate, judge_populate};
use crate::parts::Parts;
use crate::regions::judge_region;
use crate::words::{judge_create, judge_peek, judge_poke};
use gm_base::Ioctl;
use gm_flat::Spans;
use gm_ioctl::check;

/// What a call comes to: the answer of the first row of its table that holds. The spans are those of a bracket, in order
/// of index where a punch or a close has several; any other answer leaves them empty. It takes no memory.
pub fn judge(parts: &Parts<'_>, ioctl: &Ioctl, spans: &mut Spans) -> Judged
    requires state { (f : Flat) × LentStand parts.now f }
    requires files { length parts.now.files.now < U32_LIMIT }
    requires user { length parts.now.user.now ≡ parts.now.setup.user }
    requires room { SLOT_IDS ≤ spans.old.spare }
    requires empty { spans.old.list ≡ [] }
    ensures { (f : Flat) → LentStand parts.now f → Tells parts.now.user.now (plan parts.now.setup ioctl.now f) result spans.new.list }
{
    match check(ioctl, parts.setup.user) {
        Err(errno) => Judged::Refused(errno),
        Ok(()) => judge_by_state(parts, ioctl, spans),
    }
}

/// The rows that need the state, for a call whose arguments have passed.
fn judge_by_state(parts: &Parts<'_>, ioctl: &Ioctl, spans: &mut Spans) -> Judged
    requires state { (f : Flat) × LentStand parts.now f }
    requires files { length parts.now.files.now < U32_LIMIT }
    requires user { length parts.now.user.now ≡ parts.now.setup.user }
    requires room { SLOT_IDS ≤ spans.old.spare }
    requires empty { spans.old.list ≡ [] }
    requires range { InRange parts.now.setup.user ioctl.now }
    ensures { (f : Flat) → LentStand parts.now f → Tells parts.now.user.now (state_plan parts.now.setup ioctl.now f) result spans.new.list }
{
    match *ioctl {
        Ioctl::Create { size, flags } => judge_create(parts, size, flags),
        Ioctl::Region2(region) => judge_region(parts, &region, spans),
        Ioctl::Attrs {
            address,
            size,
            attributes,
            ..
        } => judge_attrs(parts, address, size, attributes, spans),
        Ioctl::Punch { fd, offset, length } => judge_punch(parts, fd, offset, length, spans),
        Ioctl::Allocate { fd, offset, length } => judge_allocate(parts, fd, offset, length),
        Ioctl::Close { fd } => judge_close(parts, fd, spans),
        Ioctl::Populate { gpa, pages, user } => judge_populate(parts, gpa, pages, user),
        Ioctl::Poke { address, value } => judge_poke(address, value),
        Ioctl::Peek { address } => judge_peek(parts, address),
    }
}
