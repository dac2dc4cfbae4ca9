//! How much of what a history has.

ghost use Rattle.std.specs.Prelude.{◌≡◌, ◌+◌, ◌-◌, ◌^◌, ◌<◌, ◌≤◌};
ghost use Rattle.gm_summary.specs.Totals.{none, totals_of, with_entry};

use gm_flat::{Entry, What};

/// How many entries of a kind a history has, and how many folios its frees free.
#[derive(Clone, Copy, Debug, PartialEq, Eq)]
pub struct Totals {
    /// Accesses that read or wrote their word.
    pub touches: u64,
    /// Accesses that left the guest.
    pub exits: u64,
    /// Faults that ended as stale.
    pub retries: u64,
    /// Folios that were freed, over all entries of frees.
    pub frees: u128,
}

/// The totals of a history's entries.
pub fn totals_of(entries: &[Entry]) -> Totals
    ensures { result ≡ totals_of none entries.now }
{
    let mut totals = Totals {
        touches: 0,
        exits: 0,
        retries: 0,
        frees: 0,
    };
    for entry in entries {
        totals = with_entry(totals, &entry.what);
    }
    totals
}

// The totals with one entry more.
fn with_entry(totals: Totals, what: &What) -> Totals
    requires touches { totals.touches < 2 ^ 64 - 1 }
    requires exits { totals.exits < 2 ^ 64 - 1 }
    requires retries { totals.retries < 2 ^ 64 - 1 }
    requires frees { totals.frees + 2 ^ 32 < 2 ^ 128 }
    ensures is { result ≡ with_entry totals what.now }
    ensures touches { result.touches ≤ totals.touches + 1 }
    ensures exits { result.exits ≤ totals.exits + 1 }
    ensures retries { result.retries ≤ totals.retries + 1 }
    ensures frees { result.frees ≤ totals.frees + 2 ^ 32 }
{
    match *what {
        What::Touch { .. } => Totals {
            touches: totals.touches + 1,
            ..totals
        },
        What::Left { .. } => Totals {
            exits: totals.exits + 1,
            ..totals
        },
        What::Retry => Totals {
            retries: totals.retries + 1,
            ..totals
        },
        What::Free { pages, .. } => Totals {
            frees: totals.frees + u128::from(pages),
            ..totals
        },
        _ => totals,
    }
}
