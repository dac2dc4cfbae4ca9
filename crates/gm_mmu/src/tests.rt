ghost use Rattle.std.specs.Prelude.{◌≡◌, true, false};

use super::*;
use gm_base::{Access, Kind, Leaf, Level, Op, PAGE_LIMIT, Page, Place, Span};
use gm_tlb::Fill;
use std::test::Fail;

fn crosses_threads<T: Send + Sync>() {}

fn small(first: u64) -> Leaf
    ensures { result ≡ record { first = first; level = Level.Small; kind = Kind.Shared; place = Place.User 0; writable = false } }
{
    Leaf {
        first,
        level: Level::Small,
        kind: Kind::Shared,
        place: Place::User(0),
        writable: false,
    }
}

#[test]
fn types_cross_threads() {
    crosses_threads::<Mmu>();
}

#[test]
fn a_bracket_takes_the_leaf(rt: HostRuntime) -> Result<(), Fail> {
    let mut mmu = Mmu::new(rt.alloc(), 1).ok().ok_or("memory")?;
    let page = Page::new(0).ok_or("a page")?;
    let access = Access::new(page, 0, Op::Read, Kind::Shared);
    let fill = Fill {
        leaf: small(0),
        at: 7,
    };
    mmu.reserve().ok().ok_or("memory")?;
    mmu.install(small(0));
    assert_eq!(rt; mmu.serve(0, &access, 7), Some(fill));
    assert_eq!(rt; mmu.begin(&[Span::new(0, 1).ok_or("a span")?]), 1);
    assert_eq!(rt; mmu.serve(0, &access, 8), None);
    assert!(rt; mmu.pending(0) && mmu.stale(0, page));
    Ok(())
}

#[test]
fn the_last_page_and_the_last_vcpu(rt: HostRuntime) -> Result<(), Fail> {
    let mut mmu = Mmu::new(rt.alloc(), 16).ok().ok_or("memory")?;
    let page = Page::new(PAGE_LIMIT - 1).ok_or("a page")?;
    let access = Access::new(page, 511, Op::Read, Kind::Shared);
    let fill = Fill {
        leaf: small(PAGE_LIMIT - 1),
        at: u64::MAX,
    };
    mmu.fill(15, fill);
    assert_eq!(rt; mmu.serve(15, &access, 0), Some(fill));
    assert_eq!(rt; mmu.serve(14, &access, 0), None);
    Ok(())
}

#[test]
fn the_last_vcpu_is_asked(rt: HostRuntime) -> Result<(), Fail> {
    let mut mmu = Mmu::new(rt.alloc(), 16).ok().ok_or("memory")?;
    mmu.enter(15);
    assert_eq!(rt; mmu.begin(&[]), 1);
    assert!(rt; mmu.inside(15) && mmu.all_in(1) == Some(15));
    mmu.flush(15);
    mmu.end();
    assert!(rt; mmu.all_in(1) == None && mmu.seq() == 1 && mmu.hull() == None);
    Ok(())
}
