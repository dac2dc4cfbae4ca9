//! The calls, with their arguments as they were given.

/// The arguments of a change of a slot.
#[derive(Clone, Copy, Debug, PartialEq, Eq)]
pub struct Region {
    pub slot: u32,
    pub flags: u32,
    pub gpa: u64,
    pub size: u64,
    pub user: u64,
    pub fd: u32,
    pub offset: u64,
}

/// A call. Addresses, sizes, offsets and lengths are bytes.
#[derive(Clone, Copy, Debug, PartialEq, Eq)]
pub enum Ioctl {
    Create {
        size: u64,
        flags: u64,
    },
    Region2(Region),
    Attrs {
        address: u64,
        size: u64,
        attributes: u64,
        flags: u64,
    },
    Punch {
        fd: u32,
        offset: u64,
        length: u64,
    },
    Allocate {
        fd: u32,
        offset: u64,
        length: u64,
    },
    Close {
        fd: u32,
    },
    Populate {
        gpa: u64,
        pages: u64,
        user: u64,
    },
    Poke {
        address: u64,
        value: u64,
    },
    Peek {
        address: u64,
    },
}
