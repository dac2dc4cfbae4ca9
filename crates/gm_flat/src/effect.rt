//! What entries tell of pages, exits, answers and changes.

use gm_base::{Errno, Folio, Kind, Span};

/// What backs a guest page: a user page by its number, or a folio.
#[derive(Clone, Copy, Debug, PartialEq, Eq)]
pub enum Backing {
    User(u64),
    Folio(Folio),
}

/// How an access left the guest: by a memory fault (`KVM_EXIT_MEMORY_FAULT`, with EFAULT), by MMIO
/// (`KVM_EXIT_MMIO`), or for want of a frame (ENOMEM). Addresses and sizes are bytes.
#[derive(Clone, Copy, Debug, PartialEq, Eq)]
pub enum Exit {
    Fault { flags: u64, gpa: u64, size: u64 },
    Mmio { gpa: u64 },
    NoFrame,
}

/// A call's answer.
#[derive(Clone, Copy, Debug, PartialEq, Eq)]
pub enum Reply {
    Good(u64),
    Bad(Errno),
}

/// What a call changes. Bases, user pages, indexes and counts are pages.
#[derive(Clone, Copy, Debug, PartialEq, Eq)]
pub enum Effect {
    /// A file is made.
    File {
        file: u32,
        pages: u64,
        block: bool,
    },
    /// A slot is made. Without a file its index is 0.
    Slot {
        slot: u32,
        base: u64,
        pages: u64,
        user: u64,
        flags: u32,
        file: Option<u32>,
        index: u64,
    },
    /// A slot is marked, before it is deleted or moves: a fault that finds it so retries.
    Mark {
        slot: u32,
    },
    /// A slot is deleted.
    NoSlot {
        slot: u32,
    },
    /// A slot moves to a new base, and is marked no more.
    Move {
        slot: u32,
        base: u64,
    },
    /// The pages of a span get an attribute.
    Attr {
        span: Span,
        kind: Kind,
    },
    /// The cached pages of the indexes from `lo` on and below `hi` leave the cache.
    Cut {
        file: u32,
        lo: u64,
        hi: u64,
    },
    /// A file is shut: its pages leave the cache, and its slots stay without a file.
    Shut {
        file: u32,
    },
    /// A word of user memory is written.
    Word {
        page: u64,
        word: u16,
        value: u64,
    },
}
