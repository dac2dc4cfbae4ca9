use super::*;
use gm_base::{PAGE_LIMIT, Span};
use std::test::Fail;

fn crosses_threads<T: Send + Sync>() {}

#[test]
fn values_cross_threads() {
    crosses_threads::<RunMap>();
}

fn span(lo: u64, hi: u64) -> Result<Span, Fail> {
    Ok(Span::new(lo, hi).ok_or("a span")?)
}

#[test]
fn pages_of_one_call(rt: HostRuntime) -> Result<(), Fail> {
    let mut map = RunMap::new(rt.alloc()).ok().ok_or("memory")?;
    map.reserve(1).ok().ok_or("memory")?;
    map.set(span(3, 5)?, true);
    assert_eq!(rt; map.get(3), true);
    assert_eq!(rt; map.get(5), false);
    assert_eq!(rt; map.all_same(span(3, 5)?), Some(true));
    assert_eq!(rt; map.all_same(span(2, 4)?), None);
    Ok(())
}

#[test]
fn the_ends_of_the_pages(rt: HostRuntime) -> Result<(), Fail> {
    let mut map = RunMap::new(rt.alloc()).ok().ok_or("memory")?;
    map.reserve(1).ok().ok_or("memory")?;
    map.set(span(PAGE_LIMIT - 1, PAGE_LIMIT)?, true);
    for (page, value) in [
        (0, false),
        (PAGE_LIMIT - 2, false),
        (PAGE_LIMIT - 1, true),
        (PAGE_LIMIT, false),
        (u64::MAX, false),
    ] {
        assert_eq!(rt; map.get(page), value, "{page}");
    }
    Ok(())
}

/// A plain list of calls, and whether the latest that holds the page is true.
fn latest(calls: &[(u64, u64, bool)], page: u64) -> bool {
    let mut value = false;
    for call in calls {
        if call.0 <= page && page < call.1 {
            value = call.2;
        }
    }
    value
}

#[test]
fn a_long_sequence_agrees_with_a_list(rt: HostRuntime) -> Result<(), Fail> {
    let mut map = RunMap::new(rt.alloc()).ok().ok_or("memory")?;
    let mut calls = Vec::new(rt.alloc());
    let mut seed: u64 = 7;
    for _ in 0..300 {
        seed = seed.wrapping_mul(6_364_136_223_846_793_005).wrapping_add(1);
        let lo = (seed >> 33) % 100;
        let hi = lo + 1 + (seed >> 50) % 20;
        let value = (seed >> 45) % 2 == 0;
        map.reserve(1).ok().ok_or("memory")?;
        map.set(span(lo, hi)?, value);
        calls.push((lo, hi, value)).ok().ok_or("memory")?;
        for page in 0..121 {
            assert_eq!(rt; map.get(page), latest(&calls, page), "{page}");
        }
    }
    Ok(())
}
