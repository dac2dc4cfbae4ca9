//! Leaves of the stage-two table.

ghost use Rattle.std.specs.Prelude.{◌≡◌};
ghost use Rattle.gm_base.specs.Leaf.{covers, meets_leaf, serves};

use crate::access::Access;
use crate::numbers::BLOCK_PAGES;
use crate::span::Span;
use crate::values::{Kind, Level, Op, Place};

/// A mapping of one page or of one block: its first page, its size, its kind, what its first page maps to, and
/// whether it may be written.
#[derive(Clone, Copy, Debug, PartialEq, Eq)]
pub struct Leaf {
    pub first: u64,
    pub level: Level,
    pub kind: Kind,
    pub place: Place,
    pub writable: bool,
}

impl Leaf {
    /// Whether the page of this number is one of the leaf's.
    #[inline(always)]
    pub fn covers(&self, page: u64) -> bool
        ensures { result ≡ covers self.now page }
    {
        match self.level {
            Level::Small => self.first == page,
            Level::Block => self.first <= page && page - self.first < BLOCK_PAGES,
        }
    }

    /// Whether a page of the span is one of the leaf's.
    pub fn meets(&self, span: Span) -> bool
        ensures { result ≡ meets_leaf self.now span }
    {
        let (lo, hi) = (span.lo(), span.hi());
        self.first < hi && (lo <= self.first || lo - self.first < self.level.pages())
    }

    /// Whether the access can go by the leaf: it covers the page, has the kind, and may be written for a write.
    #[inline(always)]
    pub fn serves(&self, access: Access) -> bool
        ensures { result ≡ serves self.now access }
    {
        // Most leaves don't cover a page, so that is looked at first.
        if !self.covers(access.page().number()) {
            return false;
        }
        let is_same_kind = match (self.kind, access.kind()) {
            (Kind::Private, Kind::Private) | (Kind::Shared, Kind::Shared) => true,
            _ => false,
        };
        let permits = match access.op() {
            Op::Read => true,
            Op::Write(_) => self.writable,
        };
        is_same_kind && permits
    }
}
