//! The state.

ghost use Rattle.std.specs.Prelude.{◌≡◌, IfOk};
ghost use Rattle.gm_base.specs.declared.values.Setup.{Setup};
ghost use Rattle.gm_flat.specs.Attribute.{attr_of};
ghost use Rattle.gm_flat.specs.Slots.{slot_by_id, slot_over};
ghost use Rattle.gm_state.specs.Stand.{Memory, StateIs, at_start};

use gm_attr::Attrs;
use gm_base::{Kind, NoMemory, Page, Setup};
use gm_calls::Parts;
use gm_file::Folios;
use gm_flat::SlotView;
use gm_slots::Slots;
use gm_store::Store;
use gm_words::Bank;
use std::alloc::Global;
use std::marker::Model;

/// The slots, the attributes, user memory, the store of files and frames, and the folios that the last change left to be
/// freed.
#[derive(Drop)]
pub struct State {
    pub(crate) alloc: Global,
    // Whether blocks are allowed. Where they are, those of the slots are tracked.
    pub(crate) huge: bool,
    pub(crate) slots: Slots,
    pub(crate) attrs: Attrs,
    pub(crate) user: Bank,
    pub(crate) store: Store,
    pub(crate) freed: Folios,
}

impl Model for State {
    ghost use Rattle.gm_state.specs.Views.{StateView};

    ghost Value = { StateView };

    ghost view = { λ s. record { huge = s.huge; slots = s.slots; attrs = s.attrs; user = s.user; store = s.store; freed = s.freed } };
}

impl State {
    /// No slot, no file, every page shared, user memory zero and every frame free.
    pub fn new(alloc: Global, setup: Setup) -> Result<State, NoMemory>
        ensures is { IfOk result (λ st. StateIs setup st at_start) }
        ensures generation { IfOk result (λ st. st.slots.generation ≡ 0) }
    {
        let user = Bank::new(alloc, setup.user)?;
        let _pages = user.pages();
        Ok(State {
            alloc,
            huge: setup.huge,
            slots: Slots::new(alloc)?,
            attrs: Attrs::new(alloc)?,
            user,
            store: Store::new(alloc, setup.frames)?,
            freed: Folios::new(alloc, 0)?,
        })
    }

    /// What calls are judged by.
    pub fn parts(&self, setup: Setup) -> Parts<'_>
        ensures slots { result.slots.now ≡ self.now.slots }
        ensures files { result.files.now ≡ self.now.store.files }
        ensures attrs { result.attrs.now ≡ self.now.attrs }
        ensures user { result.user.now ≡ self.now.user }
        ensures setup { result.setup ≡ setup }
    {
        Parts {
            slots: &self.slots,
            files: self.store.files(),
            attrs: &self.attrs,
            user: &self.user,
            setup,
        }
    }

    /// The slot over a page.
    pub fn find(&self, page: Page) -> Option<SlotView>
        ensures { (s : Setup) (m : Memory) → StateIs s self.now m → result ≡ slot_over m.stored.flat.slots page }
    {
        self.slots.find(page)
    }

    /// The slot with an id.
    pub fn by_id(&self, id: u32) -> Option<SlotView>
        ensures { (s : Setup) (m : Memory) → StateIs s self.now m → result ≡ slot_by_id m.stored.flat.slots id }
    {
        self.slots.by_id(id)
    }

    /// The attribute of a page.
    pub fn kind(&self, page: Page) -> Kind
        ensures { (s : Setup) (m : Memory) → StateIs s self.now m → result ≡ attr_of page m.stored.flat.attrs }
    {
        if self.attrs.is_private(page) {
            Kind::Private
        } else {
            Kind::Shared
        }
    }
}
