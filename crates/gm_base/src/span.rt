//! Spans of pages.

ghost use Rattle.std.specs.Prelude.{◌≡◌, ◌<◌, ◌≤◌, IsSome, IfSome, ◌↔◌};
ghost use Rattle.gm_base.specs.Extent.{holds, meets, cover};

use crate::numbers::PAGE_LIMIT;
use std::marker::Model;

/// The pages from `lo` on and below `hi`: at least one, all below 2^52.
#[derive(Clone, Copy, Debug, PartialEq, Eq)]
pub struct Span {
    lo: u64,
    hi: u64,
}

impl Model for Span {
    ghost use Rattle.std.specs.Prelude.{ℕ, ◌<◌, ◌≤◌};
    ghost use Rattle.gm_base.specs.declared.numbers.TheConstants.{PAGE_LIMIT};
    ghost use Rattle.gm_base.specs.Extent.{Extent};

    ghost Value = { Extent };

    ghost view = { λ span. record { lo = span.lo; hi = span.hi } };

    ghost invariant = { λ span. (span.lo < span.hi) × (span.hi ≤ PAGE_LIMIT) };

    ghost inverse = { λ e. record { lo = e.lo; hi = e.hi } };
}

impl Span {
    /// The span from `lo` on and below `hi`. None exactly where it has no page, or one of 2^52 or more.
    pub fn new(lo: u64, hi: u64) -> Option<Span>
        ensures when { IsSome result ↔ ((lo < hi) × (hi ≤ PAGE_LIMIT)) }
        ensures span { IfSome result (λ span. (span.lo ≡ lo) × (span.hi ≡ hi)) }
    {
        if lo < hi && hi <= PAGE_LIMIT {
            Some(Span { lo, hi })
        } else {
            None
        }
    }

    /// The first page's number.
    pub fn lo(self) -> u64
        ensures lo { result ≡ self.lo }
        ensures below { result < self.hi }
    {
        self.lo
    }

    /// The number after the last page's, at most 2^52.
    pub fn hi(self) -> u64
        ensures hi { result ≡ self.hi }
        ensures above { self.lo < result }
        ensures bound { result ≤ PAGE_LIMIT }
    {
        self.hi
    }

    /// Whether the page of this number is in the span.
    pub fn holds(self, page: u64) -> bool
        ensures { result ≡ holds self page }
    {
        self.lo <= page && page < self.hi
    }

    /// Whether a page lies in both.
    pub fn meets(self, other: Span) -> bool
        ensures { result ≡ meets self other }
    {
        self.lo < other.hi && other.lo < self.hi
    }

    /// The least span that covers both.
    pub fn cover(self, other: Span) -> Span
        ensures { result ≡ cover self other }
    {
        Span {
            lo: self.lo.min(other.lo),
            hi: self.hi.max(other.hi),
        }
    }
}
