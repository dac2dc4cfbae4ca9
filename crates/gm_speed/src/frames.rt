//! The words of pages, and the frames.

ghost use Rattle.std.specs.Prelude.{◌≡◌, ◌<◌, ◌≤◌, IfOk, length, true};
ghost use Rattle.gm_speed.specs.declared.order.TheConstants.{LARGEST};

use crate::order::{LARGEST, Order};
use gm_base::NoMemory;
use gm_pool::Pool;
use gm_words::Bank;
use std::alloc::Global;

// The number of the word that is written.
const WORD: u16 = 7;

/// Writes a word of one page after another and reads it: one operation each.
pub fn run_words(alloc: Global, order: Order, count: u32) -> Result<u32, NoMemory>
    requires { count ≤ LARGEST }
    ensures { IfOk result (λ done. done ≡ count) }
{
    let mut bank = Bank::new(alloc, LARGEST)?;
    let mut done = 0;
    for step in 0..count {
        let page = order.place(step);
        if is_kept(&mut bank, page, u64::from(step) + 1) {
            done += 1;
        }
    }
    Ok(done)
}

// Writes the value to a word of the page, and whether it is read there then.
#[tactic(auto, using(crate::proofs::Written::word_back))]
fn is_kept(bank: &mut Bank, page: u32, value: u64) -> bool
    requires { page < length bank.old }
    ensures kept { result ≡ true }
    ensures len { length bank.new ≡ length bank.old }
{
    if page >= bank.pages() {
        return false;
    }
    bank.write(page, WORD, value);
    bank.read(page, WORD) == value
}

/// Takes one frame after another. The order of the indexes makes no difference: the lowest free frame is taken.
pub fn run_pool(alloc: Global, count: u32) -> Result<u32, NoMemory>
    requires { count ≤ LARGEST }
    ensures { IfOk result (λ done. done ≤ count) }
{
    let mut pool = Pool::new(alloc, count)?;
    let mut done = 0;
    for _step in 0..count {
        if pool.take_one().is_some() {
            done += 1;
        }
    }
    Ok(done)
}
