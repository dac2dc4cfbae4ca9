ghost use Rattle.std.specs.Prelude.{◌≡◌, true};

use super::*;
use gm_base::{Kind, Leaf, Level, PAGE_LIMIT, Page, Place, Span};
use std::test::Fail;

fn crosses_threads<T: Send + Sync>() {}

fn leaf(first: u64, level: Level) -> Leaf
    ensures { result ≡ record { first = first; level = level; kind = Kind.Shared; place = Place.User 0; writable = true } }
{
    Leaf {
        first,
        level,
        kind: Kind::Shared,
        place: Place::User(0),
        writable: true,
    }
}

#[test]
fn types_cross_threads() {
    crosses_threads::<Table>();
}

#[test]
fn a_page_takes_the_block_over_it(rt: HostRuntime) -> Result<(), Fail> {
    let mut table = Table::new(rt.alloc()).ok().ok_or("memory")?;
    table.reserve().ok().ok_or("memory")?;
    table.install(leaf(0, Level::Block));
    let last = Page::new(511).ok_or("a page")?;
    assert_eq!(rt; table.walk(last), Some(leaf(0, Level::Block)));
    assert_eq!(rt; table.zap(Span::new(5, 6).ok_or("a span")?), 1);
    assert_eq!(rt; table.walk(Page::new(0).ok_or("a page")?), None);
    Ok(())
}

#[test]
fn the_ends_of_the_ranges(rt: HostRuntime) -> Result<(), Fail> {
    let mut table = Table::new(rt.alloc()).ok().ok_or("memory")?;
    let page = Page::new(PAGE_LIMIT - 1).ok_or("a page")?;
    table.reserve().ok().ok_or("memory")?;
    table.install(leaf(PAGE_LIMIT - 1, Level::Small));
    table.reserve().ok().ok_or("memory")?;
    table.install(leaf(PAGE_LIMIT - 512, Level::Block));
    table.reserve().ok().ok_or("memory")?;
    table.install(leaf(0, Level::Small));
    assert_eq!(rt;
        table.walk(page),
        Some(leaf(PAGE_LIMIT - 512, Level::Block))
    );
    assert_eq!(rt; table.zap(Span::new(0, PAGE_LIMIT).ok_or("a span")?), 2);
    assert_eq!(rt; table.walk(page), None);
    Ok(())
}
