use super::*;
use gm_base::{Access, Kind, Leaf, Level, Op, Page, Place};
use std::test::Fail;

fn crosses_threads<T: Send + Sync>() {}

fn small(first: u64) -> Leaf {
    Leaf {
        first,
        level: Level::Small,
        kind: Kind::Shared,
        place: Place::User(first),
        writable: false,
    }
}

fn read(page: Page) -> Access {
    Access::new(page, 0, Op::Read, Kind::Shared)
}

#[test]
fn types_cross_threads() {
    crosses_threads::<Fill>();
    crosses_threads::<Ring>();
    crosses_threads::<Tlb>();
}

#[test]
fn the_oldest_of_257_goes(rt: HostRuntime) -> Result<(), Fail> {
    let mut tlb = Tlb::new(rt.alloc()).ok().ok_or("memory")?;
    for first in 0..257 {
        let leaf = small(first);
        tlb.fill(Fill { leaf, at: first });
    }
    let zero = Page::new(0).ok_or("a page")?;
    let one = Page::new(1).ok_or("a page")?;
    assert_eq!(rt; tlb.hit(&read(zero)), None);
    assert_eq!(rt;
        tlb.hit(&read(one)),
        Some(Fill {
            leaf: small(1),
            at: 1
        })
    );
    tlb.flush();
    assert_eq!(rt; tlb.hit(&read(one)), None);
    Ok(())
}

#[test]
fn a_request_waits_for_who_is_inside(rt: HostRuntime) -> Result<(), Fail> {
    let mut ring = Ring::new(rt.alloc(), 1).ok().ok_or("memory")?;
    assert_eq!(rt; ring.ask(), 1);
    assert!(rt; ring.pending(0) && ring.all_in(1) == None);
    ring.done(0);
    assert!(rt; !ring.pending(0));
    ring.enter(0);
    assert_eq!(rt; ring.ask(), 2);
    assert!(rt; ring.inside(0) && ring.all_in(1) == None && ring.all_in(2) == Some(0));
    ring.leave(0);
    assert!(rt; !ring.inside(0) && ring.all_in(2) == None);
    Ok(())
}
