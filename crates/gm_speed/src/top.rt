//! Does what is asked for.

ghost use Rattle.std.specs.Prelude.{◌≤◌, IfOk};
ghost use Rattle.gm_speed.specs.declared.order.TheConstants.{LARGEST};

use crate::changes::{run_inval, run_tlb};
use crate::faults::{run_fault, run_mmu};
use crate::files::run_file;
use crate::frames::{run_pool, run_words};
use crate::kinds::{run_attr, run_ranges};
use crate::request::{Part, Request};
use crate::slots::run_slots;
use crate::table::run_table;
use gm_base::NoMemory;
use std::alloc::Global;

/// Does the part's operation as often as asked, and answers how often it was done and seen to be done.
pub fn run(alloc: Global, request: Request) -> Result<u32, NoMemory>
    requires { request.count ≤ LARGEST }
    ensures most { IfOk result (λ done. done ≤ request.count) }
{
    let Request { part, order, count } = request;
    match part {
        Part::Ranges => run_ranges(alloc, order, count),
        Part::Words => run_words(alloc, order, count),
        Part::Pool => run_pool(alloc, count),
        Part::File => run_file(alloc, order, count),
        Part::Attr => run_attr(alloc, order, count),
        Part::Table => run_table(alloc, order, count),
        Part::Tlb => run_tlb(alloc, order, count),
        Part::Inval => Ok(run_inval(order, count)),
        Part::Slots => run_slots(alloc, order, count),
        Part::Mmu => run_mmu(alloc, order, count),
        Part::Fault => Ok(run_fault(order, count)),
    }
}
