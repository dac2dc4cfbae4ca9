//! How large a leaf may be.

ghost use Rattle.std.specs.Prelude.{◌≡◌, ◌+◌, ◌*◌, ◌/◌, ◌≤◌, ◌%◌, Some, false, true, IsTrue, MatchBool, ◌↔◌};
ghost use Rattle.gm_attr.specs.Kinds.{AllHave, SomeOther, is_tracked, kind_at};
ghost use Rattle.gm_base.specs.declared.numbers.TheConstants.{BLOCK_PAGES, PAGE_LIMIT};
ghost use Rattle.gm_base.specs.declared.values.Setup.{Setup};
ghost use Rattle.gm_flat.specs.Mappings.{block_of};
ghost use Rattle.gm_flat.specs.RightLevel.{IsConsecutive};
ghost use Rattle.gm_flat.specs.Slots.{slot_over};
ghost use Rattle.gm_laws.specs.SlotsStand.{SlotsStand};
ghost use Rattle.gm_state.specs.Levels.{IsLevel, LiesUnder};
ghost use Rattle.gm_state.specs.Stand.{Memory, StateIs};

use crate::state::State;
use gm_base::{BLOCK_PAGES, Kind, Level, Page, Span};
use gm_fault::level;
use gm_flat::SlotView;

// The block of a page.
fn block_of(page: Page) -> Span
    ensures { result ≡ block_of page }
{
    let first = BLOCK_PAGES * (page.number() / BLOCK_PAGES);
    match Span::new(first, first + BLOCK_PAGES) {
        Some(span) => span,
        None => unreachable!(),
    }
}

impl State {
    /// The level of a leaf that holds a page: a block exactly where the rule of levels says so. What is cheap to tell is
    /// asked first, and the frames of a block's folios last.
    pub fn level(&self, huge: bool, page: Page, range: Option<Span>) -> Level
        requires { (s : Setup) × (m : Memory) × StateIs s self.now m }
        ensures { (s : Setup) (m : Memory) → StateIs s self.now m → SlotsStand m.stored.flat → IsLevel result huge page m.stored.flat range }
    {
        if !huge {
            return Level::Small;
        }
        match self.slots.find(page) {
            Some(slot) => {
                if slot.invalid {
                    Level::Small
                } else {
                    self.level_under(slot, page, range)
                }
            }
            None => Level::Small,
        }
    }

    // The level under the slot over the page, where the machine allows blocks.
    fn level_under(&self, slot: SlotView, page: Page, range: Option<Span>) -> Level
        requires is { (s : Setup) × (m : Memory) × StateIs s self.now m }
        requires over { slot_over self.now.slots.slots page ≡ Some slot }
        requires unmarked { slot.invalid ≡ false }
        ensures { (s : Setup) (m : Memory) → StateIs s self.now m → SlotsStand m.stored.flat → IsLevel result true page m.stored.flat range }
    {
        match level(true, &slot, page, false, true, range) {
            Level::Small => Level::Small,
            Level::Block => {
                let kind = self.kind(page);
                if self.is_mixed(page, kind) {
                    return Level::Small;
                }
                let block = block_of(page);
                if self.is_whole(slot, kind, block.lo()) {
                    Level::Block
                } else {
                    Level::Small
                }
            }
        }
    }

    // Whether the block of a page, which has this kind, has a page of the other. Where blocks are allowed it lies
    // wholly in a slot, so it has a flag that tells it.
    fn is_mixed(&self, page: Page, kind: Kind) -> bool
        requires tracked { self.now.huge ≡ true → is_tracked self.now.attrs (page / BLOCK_PAGES) ≡ true }
        requires kind { kind ≡ kind_at self.now.attrs page }
        ensures { MatchBool result (SomeOther (kind_at self.now.attrs) (block_of page) kind) (AllHave (kind_at self.now.attrs) (block_of page) kind) }
    {
        if self.huge {
            self.attrs.mixed(page.number() / BLOCK_PAGES)
        } else {
            !self.attrs.same(block_of(page), kind)
        }
    }

    // Whether the pages of the block from this one on, which lie under the slot, are backed by consecutive places from a
    // multiple of 512 on.
    fn is_whole(&self, slot: SlotView, kind: Kind, first: u64) -> bool
        requires aligned { first % BLOCK_PAGES ≡ 0 }
        requires from { slot.base ≤ first }
        requires to { first + BLOCK_PAGES ≤ slot.base + slot.pages }
        requires indexes { slot.index + slot.pages ≤ PAGE_LIMIT }
        ensures { (s : Setup) (m : Memory) → StateIs s self.now m → LiesUnder slot kind first m.stored.flat → IsTrue result ↔ IsConsecutive (record { lo = first; hi = first + BLOCK_PAGES }) m.stored.flat }
    {
        match (kind, slot.file) {
            (Kind::Shared, _) => slot.user % BLOCK_PAGES == slot.base % BLOCK_PAGES,
            (Kind::Private, Some(file)) => {
                let index = slot.index + (first - slot.base);
                self.store.block_frame(file, index).is_some()
            }
            (Kind::Private, None) => false,
        }
    }
}
