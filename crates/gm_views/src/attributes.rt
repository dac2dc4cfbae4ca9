//! The attributes of a view.

ghost use Rattle.std.specs.Prelude.{◌≡◌, ◌+◌, ◌<◌, ◌≤◌, [], ◌∷◌, IfOk, reverse};
ghost use Rattle.gm_flat.specs.Attribute.{attr_of};
ghost use Rattle.gm_views.specs.Follows.{calls_after};

use crate::sights::AttrCall;
use gm_attr::Attrs;
use gm_base::{Kind, NoMemory, Page};
use gm_flat::Effect;
use std::alloc::Global;
use std::marker::Model;

/// The attribute of each page, with room for a number of calls.
#[derive(Drop)]
pub(crate) struct ShownAttributes {
    attrs: Attrs,
    // The calls, the oldest first. That two copies agree is an equation of these, since `attrs` only answers by them.
    calls: Vec<AttrCall>,
    // `Vec` doesn't promise that a push keeps its capacity, so the room is counted here.
    room: u32,
}

impl Model for ShownAttributes {
    ghost use Rattle.std.specs.Prelude.{◌+◌, ◌≤◌, reverse, vec_len, vec_capacity};
    ghost use Rattle.gm_attr.specs.Kinds.{Tells};
    ghost use Rattle.gm_views.specs.Follows.{AttributesSeen};

    ghost Value = { AttributesSeen };

    ghost view = { λ a. record { calls = reverse a.calls.items; room = a.room } };

    ghost invariant = { λ a. Tells a.attrs (reverse a.calls.items) × (vec_len a.calls + a.room ≤ vec_capacity a.calls) × (a.room ≤ a.attrs.call_spare) };
}

impl ShownAttributes {
    /// Every page is shared, with room for so many calls.
    pub(crate) fn new(alloc: Global, room: u32) -> Result<ShownAttributes, NoMemory>
        ensures { IfOk result (λ a. a ≡ record { calls = []; room = room }) }
    {
        let mut attrs = Attrs::new(alloc)?;
        attrs.reserve(room)?;
        let calls = Vec::with_capacity(alloc, room as usize)?;
        Ok(ShownAttributes { attrs, calls, room })
    }

    /// The attribute of a page.
    pub(crate) fn kind(&self, page: Page) -> Kind
        ensures { result ≡ attr_of page self.now.calls }
    {
        if self.attrs.is_private(page) {
            Kind::Private
        } else {
            Kind::Shared
        }
    }

    /// Follows an effect. It takes no memory.
    pub(crate) fn follow(&mut self, effect: &Effect)
        requires { 0 < self.old.room }
        ensures calls { self.new.calls ≡ calls_after effect.now self.old.calls }
        ensures room { self.old.room ≤ self.new.room + 1 }
    {
        if let Effect::Attr { span, kind } = *effect {
            self.attrs.set(span, kind);
            self.calls.push_reserved(AttrCall { span, kind });
            self.room -= 1;
        }
    }
}
