use super::*;
use gm_base::{Access, Kind, Level, Op, PAGE_LIMIT, Page, Span};
use gm_flat::{Exit, Looked, SlotView};
use std::test::Fail;

fn crosses_threads<T: Send + Sync>() {}

#[test]
fn types_cross_threads() {
    crosses_threads::<Route>();
    crosses_threads::<Ticket>();
}

#[test]
fn the_ends_of_the_ranges(rt: HostRuntime) -> Result<(), Fail> {
    let slot = SlotView {
        id: 4095,
        base: PAGE_LIMIT - 512,
        pages: 512,
        user: 0,
        flags: 6,
        file: Some(3),
        index: 7,
        invalid: false,
    };
    let marked = SlotView {
        invalid: true,
        ..slot
    };
    let last = Page::new(PAGE_LIMIT - 1).ok_or("a page")?;
    let mmio = Exit::Mmio {
        gpa: 18_446_744_073_709_551_608,
    };
    for (slot, attr, op, kind, route) in [
        (
            slot,
            Kind::Private,
            Op::Read,
            Kind::Private,
            Route::File(3, 518),
        ),
        (slot, Kind::Shared, Op::Read, Kind::Shared, Route::User(511)),
        (
            slot,
            Kind::Shared,
            Op::Write(1),
            Kind::Shared,
            Route::Exit(mmio),
        ),
        (marked, Kind::Shared, Op::Read, Kind::Shared, Route::Again),
        (marked, Kind::Private, Op::Read, Kind::Shared, Route::Again),
    ] {
        let looked = Looked {
            at: 0,
            slot: Some(slot),
            attr,
        };
        assert_eq!(rt; decide(&looked, &Access::new(last, 511, op, kind)), route);
    }
    let before = Span::new(0, PAGE_LIMIT - 512);
    let beside = Span::new(0, PAGE_LIMIT - 511);
    assert_eq!(rt; level(true, &slot, last, false, true, before), Level::Block);
    assert_eq!(rt; level(true, &slot, last, false, true, beside), Level::Small);
    assert_eq!(rt; level(true, &slot, last, true, true, None), Level::Small);
    Ok(())
}
