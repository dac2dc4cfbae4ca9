//! Maps of the pages at which a value changes.

ghost use Rattle.std.specs.Prelude.{◌≡◌, ℕ, ◌+◌, ◌<◌, ◌≤◌, if◌then◌else◌, None, false};
ghost use Rattle.gm_base.specs.declared.numbers.TheConstants.{PAGE_LIMIT};
ghost use Rattle.gm_base.specs.Extent.{holds};
ghost use Rattle.gm_radix.specs.Entries.{Rises, count_within, lookup};
ghost use Rattle.gm_ranges.specs.Runs.{differ, edges_of, odd, turned, with_turn};

use gm_base::{PAGE_LIMIT, Span};
use gm_radix::Radix;

/// The value that the edges before the page lead to.
pub(crate) fn value_before(edges: &Radix<()>, page: u64) -> bool
    ensures { result ≡ odd (count_within 0 page edges.now.entries) }
{
    is_odd(edges.count_in(0, page))
}

/// Whether a number is odd.
pub(crate) fn is_odd(number: u64) -> bool
    ensures { result ≡ odd number }
{
    number % 2 == 1
}

/// Puts an edge at a page that has none, if the value turns there and it is below the limit. It takes no memory but what
/// is kept.
pub(crate) fn turn(edges: &mut Radix<()>, page: u64, turns: bool)
    requires free { lookup page edges.old.entries ≡ None }
    requires room { 0 < edges.old.spare }
    ensures entries { edges.new.entries ≡ with_turn turns page edges.old.entries }
    ensures spare { edges.old.spare ≤ edges.new.spare + 1 }
{
    if turns && page < PAGE_LIMIT {
        edges.insert_new(page, ());
    }
}

/// Whether two values differ.
pub(crate) fn is_turn(from: bool, to: bool) -> bool
    ensures { result ≡ differ from to }
{
    from != to
}

/// Gives the pages of a span a value. The edges in it go, and at most one stands at each end then.
pub(crate) fn paint(edges: &mut Radix<()>, span: Span, value: bool)
    requires rises { Rises 0 PAGE_LIMIT edges.old.entries }
    requires room { 2 ≤ edges.old.spare }
    ensures rises { Rises 0 PAGE_LIMIT edges.new.entries }
    ensures pages { (page : ℕ) → turned false (edges_of edges.new.entries) page ≡ (if holds span page then value else turned false (edges_of edges.old.entries) page) }
    ensures spare { edges.old.spare ≤ edges.new.spare + 2 }
{
    let (lo, hi) = (span.lo(), span.hi());
    let before = edges.count_in(0, lo);
    let inside = edges.discard(lo, hi + 1);
    turn(edges, lo, is_turn(is_odd(before), value));
    turn(edges, hi, is_turn(is_odd(before + inside), value));
}
