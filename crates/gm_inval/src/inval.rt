//! The sequence, the count and the kept range.

ghost use Rattle.std.specs.Prelude.{◌≡◌, ◌+◌, ◌-◌, ◌*◌, ◌^◌, ◌<◌, ◌==◌, None, ◌||◌, not, nat_eq};
ghost use Rattle.gm_base.specs.declared.numbers.TheConstants.{COUNTER_LIMIT};
ghost use Rattle.gm_inval.specs.Range.{begun, open_range, widen, widen_all, range_holds, range_meets, IsLeastOver};

use gm_base::{Page, Span};
use std::marker::Model;

/// A sequence that counts the brackets that ended, a count of those in progress, and the range kept for them: the
/// least one that covers the spans begun since the count was last 0.
#[derive(Debug, Drop)]
pub struct Inval {
    seq: u64,
    count: u32,
    kept: Option<Span>,
}

impl Model for Inval {
    ghost use Rattle.gm_inval.specs.Range.{Progress};

    ghost Value = { Progress };

    ghost view = { λ i. record { seq = i.seq; count = i.count; kept = i.kept } };
}

impl Inval {
    /// Nothing in progress: sequence 0, count 0 and no range.
    pub fn new() -> Inval
        ensures { result ≡ record { seq = 0; count = 0; kept = None } }
    {
        Inval {
            seq: 0,
            count: 0,
            kept: None,
        }
    }

    /// Begins a bracket over the spans. The first of several in progress empties the range; each widens it.
    pub fn begin(&mut self, spans: &[Span])
        requires { self.old.count < 2 ^ 32 - 1 }
        ensures begun { self.new ≡ begun self.old spans.now }
        ensures least { IsLeastOver (open_range self.old) spans.now self.new.kept }
    {
        self.kept = widened(self.hull(), spans);
        self.count += 1;
    }

    /// Ends a bracket. The range stays.
    pub fn end(&mut self)
        requires in_progress { 0 < self.old.count }
        requires room { self.old.seq < COUNTER_LIMIT }
        ensures { self.new ≡ record { seq = self.old.seq + 1; count = self.old.count - 1; kept = self.old.kept } }
    {
        self.seq += 1;
        self.count -= 1;
    }

    /// How many brackets ended.
    pub fn seq(&self) -> u64
        ensures { result ≡ self.now.seq }
    {
        self.seq
    }

    /// How many brackets are in progress.
    pub fn count(&self) -> u32
        ensures { result ≡ self.now.count }
    {
        self.count
    }

    /// The range of the brackets in progress. None where there is none in progress, or where they have no span.
    pub fn hull(&self) -> Option<Span>
        ensures { result ≡ open_range self.now }
    {
        if self.count == 0 { None } else { self.kept }
    }

    /// The range that would be kept if a bracket over the spans began now.
    pub fn hull_with(&self, spans: &[Span]) -> Option<Span>
        ensures { result ≡ widen_all (open_range self.now) spans.now }
    {
        widened(self.hull(), spans)
    }

    /// Whether what was looked up for the page when the sequence was `sampled` may have changed since.
    pub fn stale(&self, sampled: u64, page: Page) -> bool
        ensures { result ≡ (range_holds (open_range self.now) page || not (nat_eq self.now.seq sampled)) }
    {
        let is_in_hull = match self.hull() {
            None => false,
            Some(range) => range.holds(page.number()),
        };
        is_in_hull || self.seq != sampled
    }

    /// Whether the range of the brackets in progress meets the span.
    pub fn meets(&self, span: Span) -> bool
        ensures { result ≡ range_meets (open_range self.now) span }
    {
        match self.hull() {
            None => false,
            Some(range) => range.meets(span),
        }
    }
}

// The range, widened by each span.
#[tactic(auto, using(crate::proofs::Least::widening))]
fn widened(range: Option<Span>, spans: &[Span]) -> Option<Span>
    ensures { result ≡ widen_all range spans.now }
{
    let mut kept = range;
    for span in spans {
        kept = Some(match kept {
            None => *span,
            Some(range) => range.cover(*span),
        });
    }
    kept
}
