//! The table of leaves.

ghost use Rattle.std.specs.Prelude.{◌≡◌, ◌≤◌, IfOk, true};
ghost use Rattle.gm_base.specs.declared.values.Level.TheVariants.{Small};
ghost use Rattle.gm_base.specs.declared.values.Kind.TheVariants.{Shared};
ghost use Rattle.gm_base.specs.declared.values.Place.TheVariants.{User};
ghost use Rattle.gm_speed.specs.declared.order.TheConstants.{LARGEST};

use crate::order::{LARGEST, Order};
use gm_base::{Kind, Leaf, Level, NoMemory, Page, Place, Span};
use gm_table::Table;
use std::alloc::Global;

/// Installs a leaf over one page after another and walks to it, one operation each, and then zaps all of them at once. It
/// answers how many were zapped, at most as many as were walked to.
pub fn run_table(alloc: Global, order: Order, count: u32) -> Result<u32, NoMemory>
    requires { count ≤ LARGEST }
    ensures { IfOk result (λ done. done ≤ count) }
{
    let mut table = Table::new(alloc)?;
    let walked = fill(&mut table, order, count)?;
    match Span::new(0, u64::from(LARGEST)) {
        Some(all) => Ok(table.zap(all).min(u64::from(walked)) as u32),
        None => Ok(0),
    }
}

// Installs and walks to a leaf over each of the first indexes, and answers how many were found.
fn fill(table: &mut Table, order: Order, count: u32) -> Result<u32, NoMemory>
    requires { count ≤ LARGEST }
    ensures { IfOk result (λ walked. walked ≡ count) }
{
    let mut walked = 0;
    for step in 0..count {
        let first = u64::from(order.place(step));
        match table.reserve() {
            Ok(()) => {}
            Err(refused) => return Err(refused),
        }
        table.install(small_leaf(first));
        if let Some(page) = Page::new(first) {
            if table.walk(page).is_some() {
                walked += 1;
            }
        }
    }
    Ok(walked)
}

/// A shared leaf of one page, which maps to the user page of the same number.
pub(crate) fn small_leaf(first: u64) -> Leaf
    ensures { result ≡ record { first = first; level = Small; kind = Shared; place = User first; writable = true } }
{
    Leaf {
        first,
        level: Level::Small,
        kind: Kind::Shared,
        place: Place::User(first),
        writable: true,
    }
}
