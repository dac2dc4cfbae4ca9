//! Lines of pages that calls add, of answers and of frees.

ghost use Rattle.std.specs.Prelude.{◌≡◌};
ghost use Rattle.gm_history.specs.Whats.{added_of, good_of, refused_of, free_of, reply_line_of};

use crate::entries::ended;
use crate::fields::{errno_after, number_after, small_after, tiny_after};
use gm_base::Folio;
use gm_flat::{Reply, What};

#[tactic(auto, unfolding(crate::specs::Whats::added_of))]
fn read_added(line: &[u8]) -> Option<What>
    ensures { result ≡ added_of line.now }
{
    let index = number_after(b"page index=", line)?;
    let serial = number_after(b" serial=", index.rest)?;
    let frame = small_after(b" frame=", serial.rest)?;
    let pages = tiny_after(b" pages=", frame.rest)?;
    ended(
        pages.rest,
        What::Page {
            index: index.value,
            folio: Folio {
                serial: serial.value,
                frame: frame.value,
            },
            pages: pages.value,
        },
    )
}

#[tactic(auto, unfolding(crate::specs::Whats::good_of))]
fn read_good(line: &[u8]) -> Option<What>
    ensures { result ≡ good_of line.now }
{
    let n = number_after(b"answer ok=", line)?;
    ended(
        n.rest,
        What::Answer {
            reply: Reply::Good(n.value),
        },
    )
}

#[tactic(auto, unfolding(crate::specs::Whats::refused_of))]
fn read_refused(line: &[u8]) -> Option<What>
    ensures { result ≡ refused_of line.now }
{
    let errno = errno_after(b"answer errno=", line)?;
    ended(
        errno.rest,
        What::Answer {
            reply: Reply::Bad(errno.value),
        },
    )
}

#[tactic(auto, unfolding(crate::specs::Whats::free_of))]
fn read_free(line: &[u8]) -> Option<What>
    ensures { result ≡ free_of line.now }
{
    let serial = number_after(b"free serial=", line)?;
    let frame = small_after(b" frame=", serial.rest)?;
    let pages = small_after(b" pages=", frame.rest)?;
    ended(
        pages.rest,
        What::Free {
            folio: Folio {
                serial: serial.value,
                frame: frame.value,
            },
            pages: pages.value,
        },
    )
}

/// What a line says that tells added pages, an answer or a free.
#[tactic(auto, unfolding(crate::specs::Whats::reply_line_of))]
pub fn read_reply_line(line: &[u8]) -> Option<What>
    ensures { result ≡ reply_line_of line.now }
{
    if let Some(what) = read_added(line) {
        return Some(what);
    }
    if let Some(what) = read_good(line) {
        return Some(what);
    }
    if let Some(what) = read_refused(line) {
        return Some(what);
    }
    read_free(line)
}
