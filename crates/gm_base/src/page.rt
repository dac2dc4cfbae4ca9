//! A guest page's number.

ghost use Rattle.std.specs.Prelude.{◌≡◌, ◌<◌, ◌≤◌, MatchOption};

use crate::numbers::PAGE_LIMIT;
use std::marker::Model;

/// The number of a guest page, below 2^52.
#[derive(Clone, Copy, Debug, PartialEq, Eq)]
pub struct Page(u64);

impl Model for Page {
    ghost use Rattle.std.specs.Prelude.{ℕ, ◌<◌};
    ghost use Rattle.gm_base.specs.declared.numbers.TheConstants.{PAGE_LIMIT};

    ghost Value = { ℕ };

    ghost view = { λ page. page.0 };

    ghost invariant = { λ page. page.0 < PAGE_LIMIT };

    ghost inverse = { λ n. record { 0 = n } };
}

impl Page {
    /// The page of this number. None exactly where the number is 2^52 or more.
    pub fn new(number: u64) -> Option<Page>
        ensures { MatchOption result (PAGE_LIMIT ≤ number) (λ page. (page ≡ number) × (number < PAGE_LIMIT)) }
    {
        if number < PAGE_LIMIT {
            Some(Page(number))
        } else {
            None
        }
    }

    /// Its number, below 2^52.
    pub fn number(self) -> u64
        ensures number { result ≡ self }
        ensures bound { result < PAGE_LIMIT }
    {
        self.0
    }
}
