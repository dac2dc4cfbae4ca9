//! Blocks of 512 pages, by number.

ghost use Rattle.std.specs.Prelude.{◌≡◌, ℕ, ◌+◌, ◌-◌, ◌*◌, ◌/◌, ◌<◌, ◌≤◌};
ghost use Rattle.gm_base.specs.declared.numbers.TheConstants.{BLOCK_PAGES, PAGE_LIMIT};
ghost use Rattle.gm_attr.specs.Kinds.{block_extent, end_whole, first_whole};

use gm_base::{BLOCK_PAGES, Span};

/// The pages of a block.
pub(crate) fn block_span(block: u64) -> Span
    requires { BLOCK_PAGES * block < PAGE_LIMIT }
    ensures { result ≡ block_extent block }
{
    let first = BLOCK_PAGES * block;
    match Span::new(first, first + BLOCK_PAGES) {
        Some(span) => span,
        None => unreachable!(),
    }
}

/// The first block that begins in the span or after it.
pub(crate) fn first_whole_block(span: Span) -> u64
    ensures { result ≡ first_whole span }
{
    (span.lo() + (BLOCK_PAGES - 1)) / BLOCK_PAGES
}

/// The block after the last that ends in the span or before it.
pub(crate) fn end_whole_block(span: Span) -> u64
    ensures number { result ≡ end_whole span }
    ensures limit { BLOCK_PAGES * result ≤ PAGE_LIMIT }
{
    span.hi() / BLOCK_PAGES
}

/// The block that holds the span's first page.
pub(crate) fn first_block(span: Span) -> u64
    ensures number { result ≡ span.lo / BLOCK_PAGES }
    ensures limit { BLOCK_PAGES * result < PAGE_LIMIT }
{
    span.lo() / BLOCK_PAGES
}

/// The block that holds the span's last page.
pub(crate) fn last_block(span: Span) -> u64
    ensures number { result ≡ (span.hi - 1) / BLOCK_PAGES }
    ensures limit { BLOCK_PAGES * result < PAGE_LIMIT }
{
    (span.hi() - 1) / BLOCK_PAGES
}
