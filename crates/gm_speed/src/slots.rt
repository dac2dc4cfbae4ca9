//! The slots.

ghost use Rattle.std.specs.Prelude.{◌≡◌, ◌*◌, ◌<◌, ◌≤◌, IfOk};
ghost use Rattle.gm_slots.specs.Changes.{Passed};
ghost use Rattle.gm_speed.specs.declared.order.TheConstants.{LARGEST};
ghost use Rattle.gm_speed.specs.declared.slots.TheConstants.{SLOTS};

use crate::order::{LARGEST, Order};
use gm_base::{COUNTER_LIMIT, NoMemory, PAGE_BYTES, Page, Region};
use gm_slots::{Change, Slots};
use std::alloc::Global;

// How many slots there are, and the pages of each: together one for each index.
const SLOTS: u32 = 16;

const SLOT_PAGES: u64 = 4096;

/// Finds the slot over one page after another, among 16: one operation each.
pub fn run_slots(alloc: Global, order: Order, count: u32) -> Result<u32, NoMemory>
    requires { count ≤ LARGEST }
    ensures { IfOk result (λ done. done ≤ count) }
{
    let slots = made_slots(alloc)?;
    let mut done = 0;
    for step in 0..count {
        if let Some(page) = Page::new(u64::from(order.place(step))) {
            if slots.find(page).is_some() {
                done += 1;
            }
        }
    }
    Ok(done)
}

// The slots, one beside another from page 0 on.
fn made_slots(alloc: Global) -> Result<Slots, NoMemory> {
    let mut slots = Slots::new(alloc)?;
    for id in 0..SLOTS {
        let region = region_of(id);
        if slots.generation() < COUNTER_LIMIT {
            if slots.judge(&region) == Ok(Change::Make) {
                slots.apply(&region, Change::Make);
            }
        }
    }
    Ok(slots)
}

// The call that makes a slot.
fn region_of(id: u32) -> Region
    requires { id < SLOTS }
    ensures { Passed result }
{
    let bytes = SLOT_PAGES * PAGE_BYTES;
    Region {
        slot: id,
        flags: 0,
        gpa: u64::from(id) * bytes,
        size: bytes,
        user: 0,
        fd: 0,
        offset: 0,
    }
}
