use super::*;
use gm_base::{Folio, PAGE_LIMIT};
use std::test::Fail;

fn crosses_threads<T: Send + Sync>() {}

fn folio(serial: u64, frame: u32) -> Folio {
    Folio { serial, frame }
}

fn range(lo: u64, hi: u64, slot: u32) -> BoundRange {
    BoundRange { lo, hi, slot }
}

#[test]
fn values_cross_threads() {
    crosses_threads::<Bound>();
    crosses_threads::<File>();
    crosses_threads::<Folios>();
}

#[test]
fn a_page_and_two_ranges(rt: HostRuntime) -> Result<(), Fail> {
    let mut file = File::new(rt.alloc(), 4, false).ok().ok_or("memory")?;
    file.reserve(1, 2).ok().ok_or("memory")?;
    file.put(2, folio(0, 0));
    assert_eq!(rt; file.cached(2), Some(folio(0, 0)));
    assert_eq!(rt; file.next_free(2, 4), Some(3));
    assert_eq!(rt; file.next_free(2, 3), None);
    assert_eq!(rt; file.bind(0, 2, 1), Ok(()));
    assert_eq!(rt; file.bind(1, 3, 2), Err(Bound { slot: 1 }));
    assert_eq!(rt; file.bound_in(1, 4, 0), Some((0, 2, 1)));
    file.unbind(1);
    assert_eq!(rt; file.bound_in(1, 4, 0), None);
    assert_eq!(rt; (file.pages(), file.is_block()), (4, false));
    Ok(())
}

#[test]
fn a_cut_takes_its_page(rt: HostRuntime) -> Result<(), Fail> {
    let mut file = File::new(rt.alloc(), 4, false).ok().ok_or("memory")?;
    let mut out = Folios::new(rt.alloc(), 1).ok().ok_or("memory")?;
    file.reserve(1, 0).ok().ok_or("memory")?;
    file.put(2, folio(0, 0));
    file.cut(0, 4, &mut out);
    assert_eq!(rt; out.list(), [(2, folio(0, 0))].as_slice());
    assert_eq!(rt; file.cached(2), None);
    out.clear();
    assert_eq!(rt; out.list().len(), 0);
    Ok(())
}

#[test]
fn cached_indexes_are_counted(rt: HostRuntime) -> Result<(), Fail> {
    let mut file = File::new(rt.alloc(), 4, false).ok().ok_or("memory")?;
    file.reserve(1, 0).ok().ok_or("memory")?;
    file.put(2, folio(0, 0));
    assert_eq!(rt; (file.count_in(0, 4), file.count_in(3, 4)), (1, 0));
    Ok(())
}

#[test]
fn the_ends_of_the_indexes(rt: HostRuntime) -> Result<(), Fail> {
    let last = PAGE_LIMIT - 1;
    let mut file = File::new(rt.alloc(), PAGE_LIMIT, true)
        .ok()
        .ok_or("memory")?;
    file.reserve(1, 2).ok().ok_or("memory")?;
    file.put(last, folio(7, 3));
    assert_eq!(rt; file.next_free(last, u64::MAX), Some(PAGE_LIMIT));
    assert_eq!(rt; file.next_free(u64::MAX - 1, u64::MAX), Some(u64::MAX - 1));
    assert_eq!(rt; file.next_free(5, 5), None);
    assert_eq!(rt; file.bind(last, PAGE_LIMIT, 511), Ok(()));
    assert_eq!(rt; file.bind(0, 1, 0), Ok(()));
    for (lo, hi, at, found) in [
        (0, PAGE_LIMIT, 0, Some((0, 1, 0))),
        (0, PAGE_LIMIT, 1, Some((last, PAGE_LIMIT, 511))),
        (0, PAGE_LIMIT, 2, None),
        (0, last, 1, None),
        (1, u64::MAX, 0, Some((last, PAGE_LIMIT, 511))),
        (1, last, 0, None),
        (last, last, 0, None),
        (0, u64::MAX, u32::MAX, None),
    ] {
        assert_eq!(rt; file.bound_in(lo, hi, at), found, "{lo} to {hi}");
    }
    Ok(())
}

#[test]
fn ranges_within_others(rt: HostRuntime) -> Result<(), Fail> {
    let mut file = File::new(rt.alloc(), 8, false).ok().ok_or("memory")?;
    file.reserve(0, 3).ok().ok_or("memory")?;
    assert_eq!(rt; file.bound_within(0, 8), [].as_slice());
    assert_eq!(rt; file.bind(6, 8, 9), Ok(()));
    assert_eq!(rt; file.bind(0, 2, 5), Ok(()));
    assert_eq!(rt; file.bind(2, 3, 1), Ok(()));
    let all = [range(0, 2, 5), range(2, 3, 1), range(6, 8, 9)];
    for (lo, hi, first, end) in [
        (0, 8, 0, 3),
        (0, u64::MAX, 0, 3),
        (1, 3, 0, 2),
        (1, 2, 0, 1),
        (2, 6, 1, 2),
        (2, 7, 1, 3),
        (3, 6, 0, 0),
        (7, 8, 2, 3),
        (8, u64::MAX, 0, 0),
        (1, 1, 0, 0),
        (7, 1, 0, 0),
    ] {
        assert_eq!(rt;
            Some(file.bound_within(lo, hi)),
            all.get(first..end),
            "{lo} to {hi}"
        );
    }
    Ok(())
}
