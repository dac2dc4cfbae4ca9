ghost use Rattle.std.specs.Prelude.{◌≡◌, ◌≤◌, IfOk, true};
ghost use Rattle.gm_attr.specs.Kinds.{is_tracked};

use super::*;
use crate::blocks::block_span;
use gm_base::{Kind, PAGE_LIMIT, Page, Span};
use std::alloc::Global;
use std::test::Fail;

fn crosses_threads<T: Send + Sync>() {}

fn span(lo: u64, hi: u64) -> Result<Span, Fail> {
    Ok(Span::new(lo, hi).ok_or("a span")?)
}

fn page(number: u64) -> Result<Page, Fail> {
    Ok(Page::new(number).ok_or("a page")?)
}

#[test]
fn values_cross_threads() {
    crosses_threads::<Attrs>();
}

#[test]
fn a_block_with_one_private_page(rt: HostRuntime) -> Result<(), Fail> {
    let mut attrs = Attrs::new(rt.alloc()).ok().ok_or("memory")?;
    attrs.reserve(1).ok().ok_or("memory")?;
    attrs.reserve_blocks(1).ok().ok_or("memory")?;
    attrs.track(block_span(0));
    assert_eq!(rt; attrs.mixed(0), false);
    attrs.set(span(511, 512)?, Kind::Private);
    assert_eq!(rt; attrs.is_private(page(511)?), true);
    assert_eq!(rt; attrs.mixed(0), true);
    Ok(())
}

/// The first two blocks are tracked, every page is shared, and there is room for two calls.
fn two_blocks(alloc: Global) -> Result<Attrs, Fail>
    ensures room { IfOk result (λ attrs. 2 ≤ attrs.call_spare) }
    ensures first { IfOk result (λ attrs. is_tracked attrs 0 ≡ true) }
    ensures second { IfOk result (λ attrs. is_tracked attrs 1 ≡ true) }
{
    let mut attrs = Attrs::new(alloc).ok().ok_or("memory")?;
    attrs.reserve(2).ok().ok_or("memory")?;
    attrs.reserve_blocks(2).ok().ok_or("memory")?;
    attrs.track(block_span(0));
    attrs.track(block_span(1));
    Ok(attrs)
}

#[test]
fn two_blocks_that_a_call_cuts(rt: HostRuntime) -> Result<(), Fail> {
    let mut attrs = two_blocks(rt.alloc())?;
    attrs.set(span(500, 600)?, Kind::Private);
    assert_eq!(rt; (attrs.mixed(0), attrs.mixed(1)), (true, true));
    attrs.set(span(0, PAGE_LIMIT)?, Kind::Private);
    assert_eq!(rt; (attrs.mixed(0), attrs.mixed(1)), (false, false));
    Ok(())
}

#[test]
fn the_ends_of_the_pages(rt: HostRuntime) -> Result<(), Fail> {
    let last = PAGE_LIMIT - 1;
    let mut attrs = Attrs::new(rt.alloc()).ok().ok_or("memory")?;
    attrs.reserve(3).ok().ok_or("memory")?;
    attrs.set(span(0, PAGE_LIMIT)?, Kind::Private);
    assert_eq!(rt; attrs.same(span(0, PAGE_LIMIT)?, Kind::Private), true);
    attrs.set(span(last, PAGE_LIMIT)?, Kind::Shared);
    attrs.set(span(0, 1)?, Kind::Shared);
    attrs.untrack(span(0, PAGE_LIMIT)?);
    for (number, is_private) in [(0, false), (1, true), (last - 1, true), (last, false)] {
        assert_eq!(rt; attrs.is_private(page(number)?), is_private, "{number}");
    }
    for (lo, hi, kind, answer) in [
        (0, 1, Kind::Shared, true),
        (0, 2, Kind::Shared, false),
        (0, 2, Kind::Private, false),
        (1, last, Kind::Private, true),
        (1, PAGE_LIMIT, Kind::Private, false),
        (last, PAGE_LIMIT, Kind::Shared, true),
    ] {
        assert_eq!(rt; attrs.same(span(lo, hi)?, kind), answer, "{lo} to {hi}");
    }
    Ok(())
}
