//! What is done with the value that is published.

ghost use Rattle.std.specs.Prelude.{◌≡◌, ◌+◌, ◌≤◌, [], IfOk};
ghost use Rattle.gm_flat.specs.Attribute.{attr_of};
ghost use Rattle.gm_flat.specs.Slots.{slot_over};
ghost use Rattle.gm_views.specs.Follows.{sight_calls, sight_slots};
ghost use Rattle.gm_views.specs.Shows.{applied, content_of, sight_of};
ghost use Rattle.gm_views.specs.Sights.{opening};

use super::{Change, Content, Shown};
use crate::attributes::ShownAttributes;
use crate::slots::ShownSlots;
use gm_base::{Kind, NoMemory, Page};
use gm_flat::SlotView;
use left_right::Absorb;
use std::alloc::{AllocError, Global};

impl Shown {
    /// The view of an empty history, with room for so many changes.
    pub(crate) fn new(alloc: Global, room: u32) -> Result<Shown, NoMemory>
        ensures { IfOk result (λ s. content_of s ≡ record { number = 0; room = room; sight = opening }) }
    {
        let slots = ShownSlots::new(alloc)?;
        let attributes = ShownAttributes::new(alloc, room)?;
        Ok(Shown {
            number: 0,
            room,
            position: 0,
            seq: 0,
            count: 0,
            hull: None,
            slots,
            attributes,
        })
    }

    /// The slot over a page.
    pub(crate) fn slot_at(&self, page: Page) -> Option<SlotView>
        ensures { result ≡ slot_over (sight_of self.now).slots page }
    {
        self.slots.find(page)
    }

    /// The attribute of a page.
    pub(crate) fn kind_at(&self, page: Page) -> Kind
        ensures { result ≡ attr_of page (sight_of self.now).calls }
    {
        self.attributes.kind(page)
    }
}

impl Absorb<Change> for Shown {
    type State = Content;

    ghost state = { content_of };

    ghost applied = { applied };

    ghost never_fails = { Unit {0} };

    /// A change that finds no room changes nothing, so that absorbing can't fail.
    fn absorb_first(&mut self, change: &Change, _other: &Shown) -> Result<(), AllocError> {
        if self.room > 0 {
            if let Some(effect) = &change.effect {
                self.slots.follow(effect);
                self.attributes.follow(effect);
            }
            self.room -= 1;
            self.number += 1;
            self.position = change.position;
            self.seq = change.seq;
            self.count = change.count;
            self.hull = change.hull;
        }
        Ok(())
    }

    fn absorb_second(&mut self, change: Change, other: &Shown) -> Result<(), Change> {
        match self.absorb_first(&change, other) {
            Ok(()) => Ok(()),
            Err(_) => Err(change),
        }
    }
}
