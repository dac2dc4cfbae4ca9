//! The path of a fault: what serves an access, and where the access goes on.

ghost use Rattle.std.specs.Prelude.{◌≡◌, ◌≤◌, IfOk, OnOk, length};
ghost use Rattle.gm_speed.specs.declared.order.TheConstants.{LARGEST};

use crate::order::{LARGEST, Order};
use crate::table::small_leaf;
use gm_base::{Access, Kind, NoMemory, Op, Page};
use gm_fault::{Route, decide};
use gm_flat::{Looked, SlotView};
use gm_mmu::Mmu;
use std::alloc::Global;

/// Installs a leaf over one page after another and asks what serves a read there: one operation each.
pub fn run_mmu(alloc: Global, order: Order, count: u32) -> Result<u32, NoMemory>
    requires { count ≤ LARGEST }
    ensures { IfOk result (λ done. done ≤ count) }
{
    let mut mmu = Mmu::new(alloc, 1)?;
    let mut done = 0;
    for step in 0..count {
        let first = u64::from(order.place(step));
        match mmu.reserve() {
            Ok(()) => {}
            Err(refused) => return Err(refused),
        }
        mmu.install(small_leaf(first));
        if let Some(page) = Page::new(first) {
            let access = Access::new(page, 0, Op::Read, Kind::Shared);
            if mmu.serve(0, &access, u64::from(step)).is_some() {
                done += 1;
            }
        }
    }
    Ok(done)
}

/// Asks where a read of one page after another goes on, under a slot over all of them: one operation each.
pub fn run_fault(order: Order, count: u32) -> u32
    requires { count ≤ LARGEST }
    ensures { result ≤ count }
{
    let slot = SlotView {
        id: 0,
        base: 0,
        pages: u64::from(LARGEST),
        user: 0,
        flags: 0,
        file: None,
        index: 0,
        invalid: false,
    };
    let mut done = 0;
    for step in 0..count {
        let first = u64::from(order.place(step));
        if let Some(page) = Page::new(first) {
            let looked = Looked {
                at: 0,
                slot: Some(slot),
                attr: Kind::Shared,
            };
            let access = Access::new(page, 0, Op::Read, Kind::Shared);
            if decide(&looked, &access) == Route::User(first) {
                done += 1;
            }
        }
    }
    done
}
