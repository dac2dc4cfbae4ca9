//! Entries.

use crate::effect::{Backing, Effect, Exit, Reply};
use crate::spans::Spans;
use gm_base::{Access, Actor, Folio, Ioctl, Kind, Level, Page};

/// What an actor did in a turn. Turns are numbered from 1.
#[derive(Clone, Debug, Drop)]
pub struct Entry {
    pub turn: u64,
    pub actor: Actor,
    pub what: What,
}

/// The kinds of entry. An `at` and a `fill` are positions in the history, from 0.
#[derive(Clone, Debug, Drop)]
pub enum What {
    /// A vCPU enters the guest.
    Enter,
    /// A vCPU empties its buffer.
    Flush,
    /// No fill and no leaf serves the access, and the vCPU leaves the guest.
    Miss {
        access: Access,
    },
    /// A fault samples the sequence.
    Sample {
        at: u64,
    },
    /// A fault looks up the slot over its page, the slot's file and the page's attribute.
    Look {
        at: u64,
        slot: Option<u32>,
        attr: Kind,
        file: Option<u32>,
    },
    /// A fault gets its backing. `fresh` folios were added for it: 0, 1 or 512.
    Get {
        backing: Backing,
        fresh: u16,
    },
    /// A fault installs a leaf for the page of its access.
    Install {
        page: Page,
        level: Level,
    },
    /// A fault is stale and ends; its command comes again.
    Retry,
    /// An access reads or writes its word by the fill at position `fill`.
    Touch {
        access: Access,
        backing: Backing,
        level: Level,
        value: u64,
        fill: u64,
    },
    /// An access leaves the guest. The text calls it `exit`.
    Left {
        why: Exit,
    },
    /// A call is judged.
    Judge {
        call: Ioctl,
    },
    /// A bracket begins over spans.
    Begin {
        spans: Spans,
    },
    /// Every vCPU inside the guest has flushed since the bracket began.
    Acked,
    /// A call makes its change.
    Change {
        effect: Effect,
    },
    /// An allocation or a population adds `pages` folios, 1 or 512, from an index on.
    Page {
        index: u64,
        folio: Folio,
        pages: u16,
    },
    /// A bracket ends.
    End,
    /// A call is answered.
    Answer {
        reply: Reply,
    },
    /// Folios are freed, `pages` of them with serials and frames that rise by one.
    Free {
        folio: Folio,
        pages: u32,
    },
    /// An actor has no command left.
    Gone,
}
