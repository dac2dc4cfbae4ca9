//! Looks at what was shown before.

ghost use Rattle.std.specs.Prelude.{◌≡◌, IfOk};
ghost use Rattle.gm_flat.specs.Attribute.{attr_of};
ghost use Rattle.gm_flat.specs.Slots.{slot_over};
ghost use Rattle.gm_views.specs.Shows.{shown_after};

use crate::attributes::ShownAttributes;
use crate::shown::Change;
use crate::slots::ShownSlots;
use gm_base::{NoMemory, Page};
use gm_flat::Looked;
use std::alloc::Global;

/// Looks a page up in the view after these changes of the opening, the oldest first. It takes memory of its own, and
/// costs a walk over them. The look says that it was taken at this position. `NoMemory` always where the changes are
/// 2^31 or more.
pub fn look_after(
    alloc: Global,
    changes: &[Change],
    at: u64,
    page: Page,
) -> Result<Looked, NoMemory>
    ensures { IfOk result (λ look. look ≡ record { at = at; slot = slot_over (shown_after changes.now).slots page; attr = attr_of page (shown_after changes.now).calls }) }
{
    let Ok(room) = u32::try_from(changes.len()) else {
        return Err(NoMemory);
    };
    let mut slots = ShownSlots::new(alloc)?;
    let mut attributes = ShownAttributes::new(alloc, room)?;
    for change in changes {
        if let Some(effect) = &change.effect {
            slots.follow(effect);
            attributes.follow(effect);
        }
    }
    Ok(Looked {
        at,
        slot: slots.find(page),
        attr: attributes.kind(page),
    })
}
