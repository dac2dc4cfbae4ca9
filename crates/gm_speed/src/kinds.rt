//! The maps from pages to one of two values.

ghost use Rattle.std.specs.Prelude.{◌≡◌, ◌+◌, ◌*◌, ◌<◌, ◌≤◌, IfOk};
ghost use Rattle.gm_speed.specs.declared.order.TheConstants.{LARGEST};

use crate::order::{LARGEST, Order};
use gm_attr::Attrs;
use gm_base::{Kind, NoMemory, Page, Span};
use gm_ranges::RunMap;
use std::alloc::Global;

// The span of one page at twice the index, so that the pages of two indexes don't lie side by side.
fn lone_page(index: u32) -> Span
    requires { index < LARGEST }
    ensures lo { result.lo ≡ 2 * index }
    ensures hi { result.hi ≡ 2 * index + 1 }
{
    let page = 2 * u64::from(index);
    match Span::new(page, page + 1) {
        Some(span) => span,
        None => unreachable!(),
    }
}

/// Sets one page after another in a run map and asks for its value: one operation each.
pub fn run_ranges(alloc: Global, order: Order, count: u32) -> Result<u32, NoMemory>
    requires { count ≤ LARGEST }
    ensures { IfOk result (λ done. done ≡ count) }
{
    let mut map = RunMap::new(alloc)?;
    let mut done = 0;
    for step in 0..count {
        let span = lone_page(order.place(step));
        map.reserve(1)?;
        map.set(span, true);
        if map.get(span.lo()) {
            done += 1;
        }
    }
    Ok(done)
}

/// Makes one page after another private and asks for its kind: one operation each.
pub fn run_attr(alloc: Global, order: Order, count: u32) -> Result<u32, NoMemory>
    requires { count ≤ LARGEST }
    ensures { IfOk result (λ done. done ≡ count) }
{
    let mut attrs = Attrs::new(alloc)?;
    let mut done = 0;
    for step in 0..count {
        let span = lone_page(order.place(step));
        attrs.reserve(1)?;
        attrs.set(span, Kind::Private);
        if let Some(page) = Page::new(span.lo()) {
            if attrs.is_private(page) {
                done += 1;
            }
        }
    }
    Ok(done)
}
