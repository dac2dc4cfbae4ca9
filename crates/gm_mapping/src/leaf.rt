//! The leaf that a fault installs.

ghost use Rattle.std.specs.Prelude.{◌≡◌, ◌<◌, ◌≤◌};
ghost use Rattle.gm_base.specs.declared.numbers.TheConstants.{BLOCK_PAGES};
ghost use Rattle.gm_base.specs.declared.values.Level.TheVariants.{Block};
ghost use Rattle.gm_mapping.specs.Alike.{leaf_of, number_of, place_before, LieAlike};
ghost use Rattle.gm_table.specs.Leaves.{IsInstallable};

use gm_base::{BLOCK_PAGES, Kind, Leaf, Level, Page, Place};
use gm_flat::Backing;

// The place that lies so many pages before that of what a fault got.
fn place_before(backing: Backing, pages: u64) -> Place
    requires inside { pages ≤ number_of backing }
    requires few { pages < BLOCK_PAGES }
    ensures { result ≡ place_before pages backing }
{
    match backing {
        Backing::User(page) => Place::User(page - pages),
        Backing::Folio(folio) => Place::Frame(folio.frame - pages as u32),
    }
}

/// The leaf of this level that holds a page, by what backs that page. Of a block the page and its backing lie equally far
/// from a multiple of 512.
pub fn leaf_of(level: Level, page: Page, kind: Kind, backing: Backing, writable: bool) -> Leaf
    requires { level ≡ Block → LieAlike page backing }
    ensures leaf { result ≡ leaf_of level page kind backing writable }
    ensures installable { IsInstallable result }
{
    let before = match level {
        Level::Small => 0,
        Level::Block => page.number() % BLOCK_PAGES,
    };
    Leaf {
        first: page.number() - before,
        level,
        kind,
        place: place_before(backing, before),
        writable,
    }
}
