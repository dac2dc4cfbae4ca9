use super::*;
use gm_base::{PAGE_LIMIT, Page, Span};
use std::test::Fail;

fn crosses_threads<T: Send + Sync>() {}

#[test]
fn types_cross_threads() {
    crosses_threads::<Inval>();
}

#[test]
fn the_ends_of_the_ranges(rt: HostRuntime) -> Result<(), Fail> {
    let low = Span::new(0, 1).ok_or("a span")?;
    let high = Span::new(PAGE_LIMIT - 1, PAGE_LIMIT).ok_or("a span")?;
    let last = Page::new(PAGE_LIMIT - 1).ok_or("a page")?;
    let mut inval = Inval::new();
    inval.begin(&[]);
    assert_eq!(rt; inval.hull(), None);
    inval.begin(&[low]);
    inval.begin(&[high]);
    assert_eq!(rt; inval.hull(), Some(low.cover(high)));
    assert!(rt; inval.stale(0, last) && inval.meets(high));
    inval.end();
    inval.end();
    inval.end();
    assert!(rt; inval.hull() == None && inval.count() == 0 && inval.seq() == 3);
    assert!(rt; inval.stale(2, last) && !inval.stale(3, last));
    Ok(())
}
