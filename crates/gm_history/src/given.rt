//! What lines of version 1 give: serials with their frames.

ghost use Rattle.std.specs.Prelude.{◌≡◌, ◌+◌, ◌≤◌};
ghost use Rattle.gm_history.specs.Given.{is_in_range, giving_run, giving_block, giving_got, giving_of, GivesInRange};

use gm_base::{BLOCK_PAGES, Folio};
use gm_flat::{Backing, Effect, What};

/// So many serials from one on, with the frames from one on in the same order.
#[derive(Clone, Copy, Debug, PartialEq, Eq)]
pub struct Run {
    pub serial: u64,
    pub frame: u32,
    pub pages: u32,
}

/// What a line gives.
#[derive(Clone, Copy, Debug, PartialEq, Eq)]
pub enum Giving {
    /// No serial.
    NoSerial,
    /// These.
    Serials(Run),
    /// Version 1 has no such line.
    Refused,
}

/// Whether no serial is 2^64 or more, and no frame 2^32 or more.
fn is_in_range(run: Run) -> bool
    ensures { result ≡ is_in_range run }
{
    let pages = u64::from(run.pages);
    (pages == 0 || run.serial <= u64::MAX - (pages - 1))
        && u64::from(run.frame) + pages <= 4_294_967_296
}

fn giving_run(run: Run) -> Giving
    ensures { result ≡ giving_run run }
{
    if is_in_range(run) {
        Giving::Serials(run)
    } else {
        Giving::Refused
    }
}

/// A block of 512 serials, in which this one stands where its frame stands in a block of frames.
fn giving_block(folio: Folio) -> Giving
    ensures { result ≡ giving_block folio }
{
    let ahead = folio.frame % BLOCK_PAGES as u32;
    if u64::from(ahead) > folio.serial {
        return Giving::Refused;
    }
    giving_run(Run {
        serial: folio.serial - u64::from(ahead),
        frame: folio.frame - ahead,
        pages: BLOCK_PAGES as u32,
    })
}

fn giving_got(folio: Folio, fresh: u16) -> Giving
    ensures { result ≡ giving_got folio fresh }
{
    if u64::from(fresh) == BLOCK_PAGES {
        return giving_block(folio);
    }
    giving_run(Run {
        serial: folio.serial,
        frame: folio.frame,
        pages: 1,
    })
}

/// What an entry's line gives, as both versions write it.
pub fn giving_of(what: &What) -> Giving
    ensures giving { result ≡ giving_of what.now }
    ensures range { GivesInRange result }
{
    match what {
        What::Get {
            backing: Backing::Folio(folio),
            fresh,
        } => giving_got(*folio, *fresh),
        What::Page { folio, pages, .. } => giving_run(Run {
            serial: folio.serial,
            frame: folio.frame,
            pages: u32::from(*pages),
        }),
        What::Touch {
            backing: Backing::Folio(_),
            ..
        } => Giving::Refused,
        What::Change {
            effect: Effect::Mark { .. },
        } => Giving::Refused,
        _ => Giving::NoSerial,
    }
}
