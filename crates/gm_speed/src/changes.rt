//! What follows the changes of mappings: a vCPU's buffer of fills, and the brackets of invalidation.

ghost use Rattle.std.specs.Prelude.{◌≡◌, ◌≤◌, IfOk};
ghost use Rattle.gm_speed.specs.declared.order.TheConstants.{LARGEST};

use crate::order::{LARGEST, Order};
use crate::table::small_leaf;
use gm_base::{Access, Kind, NoMemory, Op, Page, Span};
use gm_inval::Inval;
use gm_tlb::{Fill, Tlb};
use std::alloc::Global;

/// Adds a fill over one page after another and asks which serves a read there: one operation each.
pub fn run_tlb(alloc: Global, order: Order, count: u32) -> Result<u32, NoMemory>
    requires { count ≤ LARGEST }
    ensures { IfOk result (λ done. done ≡ count) }
{
    let mut tlb = Tlb::new(alloc)?;
    let mut done = 0;
    for step in 0..count {
        let first = u64::from(order.place(step));
        tlb.fill(Fill {
            leaf: small_leaf(first),
            at: u64::from(step),
        });
        if let Some(page) = Page::new(first) {
            let access = Access::new(page, 0, Op::Read, Kind::Shared);
            if tlb.hit(&access).is_some() {
                done += 1;
            }
        }
    }
    Ok(done)
}

/// Begins a bracket over one page after another, asks whether the page is stale, and ends the bracket: one operation each.
pub fn run_inval(order: Order, count: u32) -> u32
    requires { count ≤ LARGEST }
    ensures { result ≡ count }
{
    let mut inval = Inval::new();
    let mut done = 0;
    for step in 0..count {
        let index = u64::from(order.place(step));
        if let (Some(page), Some(span)) = (Page::new(index), Span::new(index, index + 1)) {
            let sampled = inval.seq();
            inval.begin(&[span]);
            if inval.stale(sampled, page) {
                done += 1;
            }
            inval.end();
        }
    }
    done
}
