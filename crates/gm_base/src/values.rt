//! Plain values.

ghost use Rattle.std.specs.Prelude.{◌≡◌, ◌↔◌, IsTrue};
ghost use Rattle.gm_base.specs.Values.{number_of, pages_of};

use std::alloc::{AllocError, AllocFailed};

/// Memory ran out.
#[derive(Clone, Copy, Debug, PartialEq, Eq)]
pub struct NoMemory;

impl From<AllocError> for NoMemory {
    fn from(_error: AllocError) -> NoMemory {
        NoMemory
    }
}

impl<T: Drop> From<AllocFailed<T>> for NoMemory {
    fn from(_error: AllocFailed<T>) -> NoMemory {
        NoMemory
    }
}

/// The kind of an access, of a page's attribute or of a leaf.
#[derive(Clone, Copy, Debug, PartialEq, Eq)]
pub enum Kind {
    Private,
    Shared,
}

/// What an access does to its word. A write has the value.
#[derive(Clone, Copy, Debug, PartialEq, Eq)]
pub enum Op {
    Read,
    Write(u64),
}

/// The errors of calls.
#[derive(Clone, Copy, Debug, PartialEq, Eq)]
pub enum Errno {
    NoEnt,
    BadF,
    NoMem,
    Fault,
    Exist,
    Inval,
}

impl Errno {
    /// The number of the error, as in the kernel's errno.h.
    pub fn number(self) -> u32
        ensures { result ≡ number_of self }
    {
        match self {
            Errno::NoEnt => 2,
            Errno::BadF => 9,
            Errno::NoMem => 12,
            Errno::Fault => 14,
            Errno::Exist => 17,
            Errno::Inval => 22,
        }
    }
}

/// Who takes a turn, by its number among its kind.
#[derive(Clone, Copy, Debug, PartialEq, Eq)]
pub enum Actor {
    Vcpu(u32),
    Caller(u32),
}

/// The size of a leaf: one page, or a block of 512.
#[derive(Clone, Copy, Debug, PartialEq, Eq)]
pub enum Level {
    Small,
    Block,
}

impl Level {
    /// How many pages a leaf of this size covers.
    pub fn pages(self) -> u64
        ensures { result ≡ pages_of self }
    {
        match self {
            Level::Small => 1,
            Level::Block => 512,
        }
    }
}

/// What a machine is made with: counts of frames, user pages, vCPUs and callers, and whether it installs 2 MiB leaves.
#[derive(Clone, Copy, Debug, PartialEq, Eq)]
pub struct Setup {
    pub frames: u32,
    pub user: u32,
    pub vcpus: u32,
    pub callers: u32,
    pub huge: bool,
}

/// One frame in one use. Serials count the uses of all frames.
#[derive(Clone, Copy, Debug, PartialEq, Eq)]
pub struct Folio {
    pub serial: u64,
    pub frame: u32,
}

/// What a leaf maps its first page to: a user page or a frame.
#[derive(Clone, Copy, Debug, PartialEq, Eq)]
pub enum Place {
    User(u64),
    Frame(u32),
}
