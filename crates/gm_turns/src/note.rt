//! The one place in which entries are written.

ghost use Rattle.std.specs.Prelude.{◌≡◌, ◌<◌, ◌-◌, ◌^◌};
ghost use Rattle.gm_turns.specs.Ready.{noted};

use crate::parts::Core;
use gm_base::Actor;
use gm_flat::{Entry, What};

/// Writes an entry of the turn that is being taken.
pub fn note(core: &mut Core, actor: Actor, what: What)
    requires room { 0 < core.old.log.spare }
    requires turns { core.old.turns < 2 ^ 64 - 1 }
    ensures { core.new ≡ noted core.old actor what }
{
    let turn = core.turns + 1;
    core.log.append(Entry { turn, actor, what });
}
