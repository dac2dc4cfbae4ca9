//! A file's cache.

ghost use Rattle.std.specs.Prelude.{◌≡◌, ◌+◌, ◌≤◌, [], length, IfOk, OnOk};
ghost use Rattle.gm_speed.specs.declared.order.TheConstants.{LARGEST};

use crate::order::{LARGEST, Order};
use gm_base::{Folio, NoMemory};
use gm_file::{File, Folios};
use std::alloc::Global;

/// Caches a folio at one index after another, one operation each, and then cuts all of them at once. It answers how many
/// were cut.
#[tactic(auto, using(crate::proofs::Lengths::length_within))]
pub fn run_file(alloc: Global, order: Order, count: u32) -> Result<u32, NoMemory>
    requires { count ≤ LARGEST }
    ensures { IfOk result (λ done. done ≤ count) }
{
    let mut file = File::new(alloc, u64::from(LARGEST), false)?;
    let mut folios = Folios::new(alloc, count)?;
    fill(&mut file, order, count)?;
    file.cut(0, u64::from(LARGEST), &mut folios);
    Ok(folios.list().len() as u32)
}

// Caches a folio at each of the first indexes.
#[tactic(auto, using(crate::proofs::Lengths::length_put))]
fn fill(file: &mut File, order: Order, count: u32) -> Result<(), NoMemory>
    requires count { count ≤ LARGEST }
    requires empty { file.old.cached ≡ [] }
    ensures { OnOk result (length file.new.cached ≤ count) }
{
    for step in 0..count {
        let index = u64::from(order.place(step));
        match file.reserve(1, 0) {
            Ok(()) => {}
            Err(refused) => return Err(refused),
        }
        if file.cached(index).is_none() && index < file.pages() {
            let folio = Folio {
                serial: u64::from(step),
                frame: step,
            };
            file.put(index, folio);
        }
    }
    Ok(())
}
