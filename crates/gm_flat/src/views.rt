//! What a fault sees of slots and attributes.

use gm_base::Kind;

/// A slot. Its base, user page, index and count are pages. The file is None where the slot has none or it was closed.
/// It is invalid where it is marked, since it is to go or to move.
#[derive(Clone, Copy, Debug, PartialEq, Eq)]
pub struct SlotView {
    pub id: u32,
    pub base: u64,
    pub pages: u64,
    pub user: u64,
    pub flags: u32,
    pub file: Option<u32>,
    pub index: u64,
    pub invalid: bool,
}

/// A sequence, and the position at which it was true.
#[derive(Clone, Copy, Debug, PartialEq, Eq)]
pub struct Sampled {
    pub at: u64,
    pub seq: u64,
}

/// The slot over a page and the page's attribute, and the position at which they were true.
#[derive(Clone, Copy, Debug, PartialEq, Eq)]
pub struct Looked {
    pub at: u64,
    pub slot: Option<SlotView>,
    pub attr: Kind,
}

/// A sample and a look of one fault.
#[derive(Clone, Copy, Debug, PartialEq, Eq)]
pub struct Sighting {
    pub sampled: Sampled,
    pub looked: Looked,
}
