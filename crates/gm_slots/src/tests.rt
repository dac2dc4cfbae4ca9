ghost use Rattle.std.specs.Prelude.{◌<◌};
ghost use Rattle.gm_base.specs.declared.numbers.TheConstants.{SLOT_IDS};
ghost use Rattle.gm_slots.specs.Changes.{Passed};

use super::*;
use gm_base::{COUNTER_LIMIT, Errno, PAGE_LIMIT, Page, Region, SLOT_IDS};
use std::test::Fail;

fn crosses_threads<T: Send + Sync>() {}

#[test]
fn values_cross_threads() {
    crosses_threads::<Change>();
    crosses_threads::<Slots>();
}

#[test]
fn a_slot_that_meets_another(rt: HostRuntime) -> Result<(), Fail> {
    let mut slots = Slots::new(rt.alloc()).ok().ok_or("memory")?;
    let first = Region {
        slot: 0,
        flags: 0,
        gpa: 0,
        size: 16384,
        user: 0,
        fd: 0,
        offset: 0,
    };
    let change = slots.judge(&first).ok().ok_or("a change")?;
    assert_eq!(rt; change, Change::Make);
    slots.apply(&first, change);
    let second = Region {
        slot: 1,
        flags: 0,
        gpa: 12288,
        size: 4096,
        user: 0,
        fd: 0,
        offset: 0,
    };
    assert_eq!(rt; slots.judge(&second), Err(Errno::Exist));
    assert_eq!(rt; slots.generation(), 1);
    Ok(())
}

#[test]
fn the_last_page_and_the_last_id(rt: HostRuntime) -> Result<(), Fail> {
    let mut slots = Slots::new(rt.alloc()).ok().ok_or("memory")?;
    let last = Region {
        slot: 4095,
        flags: 4,
        gpa: 18_446_744_073_709_543_424,
        size: 4096,
        user: 0,
        fd: 7,
        offset: 8192,
    };
    let change = slots.judge(&last).ok().ok_or("a change")?;
    slots.apply(&last, change);
    let page = Page::new(PAGE_LIMIT - 2).ok_or("a page")?;
    let slot = slots.find(page).ok_or("a slot")?;
    assert_eq!(rt; slot.file, Some(7));
    assert_eq!(rt; slot.index, 2);
    assert_eq!(rt; slots.find(Page::new(0).ok_or("a page")?), None);
    slots.shut(7);
    let slot = slots.by_id(4095).ok_or("a slot")?;
    assert_eq!(rt; slot.file, None);
    assert_eq!(rt; slots.by_id(4096), None);
    Ok(())
}

#[test]
fn a_marked_slot_moves(rt: HostRuntime) -> Result<(), Fail> {
    let mut slots = Slots::new(rt.alloc()).ok().ok_or("memory")?;
    let first = Region {
        slot: 5,
        flags: 0,
        gpa: 0,
        size: 4096,
        user: 0,
        fd: 0,
        offset: 0,
    };
    slots.apply(&first, Change::Make);
    slots.mark(5);
    let zero = Page::new(0).ok_or("a page")?;
    let marked = slots.find(zero).ok_or("a slot")?;
    assert!(rt; marked.invalid && slots.by_id(5) == Some(marked));
    assert_eq!(rt; slots.generation(), 2);
    let second = Region { gpa: 8192, ..first };
    let change = slots.judge(&second).ok().ok_or("a change")?;
    assert_eq!(rt; change, Change::Move);
    slots.apply(&second, change);
    assert_eq!(rt; slots.find(zero), None);
    let moved = slots.by_id(5).ok_or("a slot")?;
    assert!(rt; moved.base == 2 && !moved.invalid);
    assert_eq!(rt; slots.generation(), 3);
    Ok(())
}

// The first page of a slot. They don't rise with the ids, and a page is free behind each.
fn base_of(id: u32) -> u32
    ensures { result < 8192 }
{
    (id ^ 2730) % SLOT_IDS * 2
}

// The call that gives a slot one page, or with 0 pages deletes it.
fn call_on(id: u32, base: u32, pages: u32) -> Region
    requires { id < SLOT_IDS }
    ensures { Passed result }
{
    Region {
        slot: id,
        flags: 0,
        gpa: u64::from(base) * 4096,
        size: u64::from(pages) * 4096,
        user: 0,
        fd: 0,
        offset: 0,
    }
}

fn make_all(slots: &mut Slots) -> Result<(), Fail> {
    for id in 0..SLOT_IDS {
        let region = call_on(id, base_of(id), 1);
        let change = slots.judge(&region).ok().ok_or("a change")?;
        if slots.generation() >= COUNTER_LIMIT {
            return Err(Fail::from("the generation"));
        }
        slots.apply(&region, change);
    }
    Ok(())
}

fn delete_all(slots: &mut Slots) -> Result<(), Fail> {
    for id in 0..SLOT_IDS {
        let region = call_on(id, 0, 0);
        let change = slots.judge(&region).ok().ok_or("a change")?;
        if slots.generation() >= COUNTER_LIMIT {
            return Err(Fail::from("the generation"));
        }
        slots.apply(&region, change);
    }
    Ok(())
}

#[test]
fn as_many_slots_as_ids(rt: HostRuntime) -> Result<(), Fail> {
    let mut slots = Slots::new(rt.alloc()).ok().ok_or("memory")?;
    make_all(&mut slots)?;
    assert_eq!(rt; slots.generation(), 4096);
    for id in 0..SLOT_IDS {
        let base = base_of(id);
        let slot = slots.by_id(id).ok_or("a slot")?;
        assert_eq!(rt; (slot.id, slot.base), (id, u64::from(base)));
        let page = Page::new(u64::from(base)).ok_or("a page")?;
        assert_eq!(rt; slots.find(page), Some(slot));
        let next = Page::new(u64::from(base) + 1).ok_or("a page")?;
        assert_eq!(rt; slots.find(next), None);
        assert_eq!(rt; slots.judge(&call_on(id, base + 1, 1)), Ok(Change::Move));
        let other = base_of((id + 1) % SLOT_IDS);
        assert_eq!(rt; slots.judge(&call_on(id, other, 1)), Err(Errno::Exist));
    }
    delete_all(&mut slots)?;
    assert_eq!(rt; slots.by_id(17), None);
    assert_eq!(rt; slots.find(Page::new(0).ok_or("a page")?), None);
    assert_eq!(rt; slots.generation(), 8192);
    Ok(())
}
