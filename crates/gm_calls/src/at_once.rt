//! What a call changes in the turn in which it is judged.

ghost use Rattle.std.specs.Prelude.{◌≡◌, ◌<◌, List, ℕ, length};
ghost use Rattle.gm_base.specs.Extent.{Extent};
ghost use Rattle.gm_flat.specs.Calls.{Plan, plan, slot_plan};
ghost use Rattle.gm_flat.specs.Effects.{U32_LIMIT};
ghost use Rattle.gm_flat.specs.FlatState.{Flat};
ghost use Rattle.gm_flat.specs.Slots.{slot_by_id};
ghost use Rattle.gm_ioctl.specs.InRange.{InRange, RegionInRange};
ghost use Rattle.gm_ioctl.specs.Remaining.{state_plan};
ghost use Rattle.gm_calls.specs.AtOnce.{effect_at_once};
ghost use Rattle.gm_calls.specs.Judgements.{Tells};
ghost use Rattle.gm_calls.specs.Lent.{LentStand};

use crate::judged::Judged;
use crate::parts::Parts;
use crate::regions::judge_binding;
use crate::words::{judge_create, judge_poke};
use gm_base::{Ioctl, Region};
use gm_flat::Effect;
use gm_ioctl::check;
use gm_slots::Change;

/// The change that the call would make in the turn in which it is judged: that of a new file, a new slot or a poke. None
/// exactly where it would make none there. It needs no spans and takes no memory.
pub fn change_at_once(parts: &Parts<'_>, ioctl: &Ioctl) -> Option<Effect>
    requires state { (f : Flat) × LentStand parts.now f }
    requires files { length parts.now.files.now < U32_LIMIT }
    ensures { (f : Flat) → LentStand parts.now f → result ≡ effect_at_once (plan parts.now.setup ioctl.now f) }
{
    match check(ioctl, parts.setup.user) {
        Err(_) => None,
        Ok(()) => change_by_state(parts, ioctl),
    }
}

// By the rows that need the state, for a call whose arguments have passed.
fn change_by_state(parts: &Parts<'_>, ioctl: &Ioctl) -> Option<Effect>
    requires state { (f : Flat) × LentStand parts.now f }
    requires files { length parts.now.files.now < U32_LIMIT }
    requires range { InRange parts.now.setup.user ioctl.now }
    ensures { (f : Flat) → LentStand parts.now f → result ≡ effect_at_once (state_plan parts.now.setup ioctl.now f) }
{
    match *ioctl {
        Ioctl::Create { size, flags } => effect_of(&judge_create(parts, size, flags)),
        Ioctl::Region2(region) => slot_at_once(parts, &region),
        Ioctl::Poke { address, value } => effect_of(&judge_poke(address, value)),
        Ioctl::Attrs { .. } => None,
        Ioctl::Punch { .. } => None,
        Ioctl::Allocate { .. } => None,
        Ioctl::Close { .. } => None,
        Ioctl::Populate { .. } => None,
        Ioctl::Peek { .. } => None,
    }
}

// The slot that a region makes, if it makes one.
fn slot_at_once(parts: &Parts<'_>, region: &Region) -> Option<Effect>
    requires state { (f : Flat) × LentStand parts.now f }
    requires range { RegionInRange parts.now.setup.user region.now }
    ensures { (f : Flat) → LentStand parts.now f → result ≡ effect_at_once (slot_plan region.now f (slot_by_id f.slots region.now.slot)) }
{
    match parts.slots.judge(region) {
        Ok(Change::Make) => effect_of(&judge_binding(parts, region)),
        Ok(Change::Nothing) => None,
        Ok(Change::Delete) => None,
        Ok(Change::Move) => None,
        Err(_) => None,
    }
}

// The change that was judged to come at once, if one was.
fn effect_of(judged: &Judged) -> Option<Effect>
    ensures { (user : List (List ℕ)) (p : Plan) (spans : List Extent) → Tells user p judged.now spans → result ≡ effect_at_once p }
{
    match judged {
        Judged::Short(effect, _) => Some(*effect),
        Judged::Refused(_) => None,
        Judged::Same(_) => None,
        Judged::Bracket(_) => None,
        Judged::Pages(_) => None,
    }
}
