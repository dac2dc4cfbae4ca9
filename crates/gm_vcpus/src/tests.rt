use super::*;
use gm_base::{Access, Kind, Op, Page};
use gm_flat::{Backing, Looked, Sampled};
use std::test::Fail;

fn crosses_threads<T: Send + Sync>() {}

#[test]
fn types_cross_threads() {
    crosses_threads::<Vcpus>();
    crosses_threads::<Stage>();
}

#[test]
fn a_fault_from_miss_to_install(rt: HostRuntime) -> Result<(), Fail> {
    let mut vcpus = Vcpus::new(rt.alloc(), 2).ok().ok_or("memory")?;
    let page = Page::new(7).ok_or("a page")?;
    let access = Access::new(page, 1, Op::Write(5), Kind::Shared);
    let sampled = Sampled { at: 3, seq: 0 };
    let looked = Looked {
        at: 4,
        slot: None,
        attr: Kind::Shared,
    };
    vcpus.miss(1, access, 3);
    assert_eq!(rt; vcpus.asked(1), Some((access, 3)));
    vcpus.sample(1, sampled);
    vcpus.look(1, looked);
    vcpus.get(1, Backing::User(9));
    let ticket = vcpus.fault(1).ok_or("a fault")?;
    assert_eq!(rt; ticket.access, access);
    assert_eq!(rt;
        stage_of(&ticket),
        Stage::Got(sampled, looked, Backing::User(9))
    );
    vcpus.settle(1);
    vcpus.touch(1);
    vcpus.leave(1);
    assert_eq!(rt; vcpus.fault(1), None);
    assert_eq!(rt; vcpus.ended(1), 1);
    assert_eq!(rt; vcpus.is_gone(0), false);
    assert_eq!(rt; vcpus.is_gone(1), true);
    Ok(())
}
