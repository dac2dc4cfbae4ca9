use super::*;
use gm_base::{Errno, Ioctl, Region};

// The pages of user memory in these cases.
const USER_PAGES: u32 = 4;

fn create(size: u64, flags: u64) -> Ioctl {
    Ioctl::Create { size, flags }
}

fn attrs(address: u64, size: u64, attributes: u64, flags: u64) -> Ioctl {
    Ioctl::Attrs {
        address,
        size,
        attributes,
        flags,
    }
}

fn punch(offset: u64, length: u64) -> Ioctl {
    Ioctl::Punch {
        fd: 9,
        offset,
        length,
    }
}

fn region(flags: u32, gpa: u64, size: u64, user: u64, offset: u64) -> Ioctl {
    Ioctl::Region2(Region {
        slot: 4095,
        flags,
        gpa,
        size,
        user,
        fd: 9,
        offset,
    })
}

fn slot(slot: u32) -> Ioctl {
    Ioctl::Region2(Region {
        slot,
        flags: 0,
        gpa: 0,
        size: 4096,
        user: 0,
        fd: 0,
        offset: 0,
    })
}

fn populate(gpa: u64, pages: u64, user: u64) -> Ioctl {
    Ioctl::Populate { gpa, pages, user }
}

#[test]
fn the_ends_of_the_ranges(rt: HostRuntime) {
    let top = 18_446_744_073_709_547_520;
    let half = 9_223_372_036_854_775_808;
    let passing = [
        create(4096, 1),
        create(half - 4096, 0),
        slot(4095),
        region(4, top - 4096, 4096, 12288, top - 4096),
        region(2, 4096, 0, 16384, 1),
        attrs(top - 4096, 4096, 8, 0),
        attrs(0, 4096, 0, 0),
        punch(half - 8192, 4096),
        populate(top, 1, top),
        Ioctl::Close { fd: 4_294_967_295 },
        Ioctl::Poke {
            address: 16376,
            value: 7,
        },
        Ioctl::Peek { address: 0 },
    ];
    for call in passing {
        assert_eq!(rt; check(&call, USER_PAGES), Ok(()));
    }
    let refused = [
        create(0, 0),
        create(half, 0),
        create(4097, 0),
        create(4096, 2),
        slot(4096),
        region(6, 0, 4096, 0, 0),
        region(1, 0, 4096, 0, 0),
        region(0, 1, 4096, 0, 0),
        region(0, 0, 4096, 8, 0),
        region(4, 0, 4096, 0, 1),
        region(0, top, 4096, 0, 0),
        region(4, 0, 4096, 0, top),
        region(0, 0, 8192, 12288, 0),
        attrs(0, 4096, 9, 0),
        attrs(0, 4096, 16, 0),
        attrs(0, 4096, 8, 1),
        attrs(0, 0, 8, 0),
        attrs(top, 4096, 8, 0),
        attrs(1, 4096, 8, 0),
        punch(0, 0),
        punch(half - 4096, 4096),
        punch(top, top),
        punch(8, 4096),
        Ioctl::Allocate {
            fd: 9,
            offset: 0,
            length: 4095,
        },
        populate(0, 0, 0),
        populate(8, 1, 0),
        populate(0, 1, 8),
        Ioctl::Poke {
            address: 16384,
            value: 7,
        },
        Ioctl::Peek { address: 16380 },
    ];
    for call in refused {
        assert_eq!(rt; check(&call, USER_PAGES), Err(Errno::Inval));
    }
}
