use crate::acting::turns;
use gm_base::{Actor, Folio, Page};
use gm_flat::SlotView;
use gm_machine::Machine;
use std::panic::Expect;
use std::process::Abort;

/// A file of two pages and a slot over it, which both go.
pub const ONE_FILE: &[u8] = b"machine frames=4 user=4 vcpus=1 callers=1 huge=off
c0 create 8192 0
c0 region 7 4 0 8192 0 0 0
c0 allocate 0 4096 4096
c0 close 0
c0 region 7 0 0 0 0 0 0
";

// The slot over the file's two pages.
const BOUND: SlotView = SlotView {
    id: 7,
    base: 0,
    pages: 2,
    user: 0,
    flags: 4,
    file: Some(0),
    index: 0,
    invalid: false,
};

// The same without its file.
const UNBOUND: SlotView = SlotView {
    id: 7,
    base: 0,
    pages: 2,
    user: 0,
    flags: 4,
    file: None,
    index: 0,
    invalid: false,
};

// The same while it is to go.
const MARKED: SlotView = SlotView {
    id: 7,
    base: 0,
    pages: 2,
    user: 0,
    flags: 4,
    file: None,
    index: 0,
    invalid: true,
};

// The slot with the id 7, which is the one over the second page; none is over the third or has another id.
fn has_slot(rt: &impl Abort, machine: &Machine, slot: Option<SlotView>) {
    let second = Page::new(1).expect(rt, "a page");
    let third = Page::new(2).expect(rt, "a page");
    assert_eq!(rt; machine.slot_by_id(7), slot);
    assert_eq!(rt; machine.slot(second), slot);
    assert_eq!(rt; machine.slot_by_id(0), None);
    assert_eq!(rt; machine.slot(third), None);
}

// Whether the file is in use, and what is cached of its second page. Nothing is of the first, and no other file is
// there.
fn has_file(rt: &impl Abort, machine: &Machine, used: bool, cached: Option<Folio>) {
    assert_eq!(rt; machine.file_in_use(0), used);
    assert_eq!(rt; machine.cached(0, 1), cached);
    assert_eq!(rt; machine.cached(0, 0), None);
    assert!(rt; !machine.file_in_use(1));
}

/// The calls of `ONE_FILE`: at the start, after the file, the slot, the page and the end of the file, with the slot
/// marked, and without it. Of each: how many turns come before, the slot then, whether the file is in use, and what is
/// cached of it.
pub fn try_file(rt: &impl Abort, machine: &mut Machine) {
    let folio = Some(Folio {
        serial: 0,
        frame: 0,
    });
    for (count, slot, used, cached) in [
        (0, None, false, None),
        (1, None, true, None),
        (1, Some(BOUND), true, None),
        (3, Some(BOUND), true, folio),
        (5, Some(UNBOUND), false, None),
        (2, Some(MARKED), false, None),
        (2, None, false, None),
    ] {
        turns(rt, machine, Actor::Caller(0), count);
        has_slot(rt, machine, slot);
        has_file(rt, machine, used, cached);
    }
}
