//! Which caller's call in progress holds a lock that another call needs.

ghost use Rattle.std.specs.Prelude.{◌≡◌, ◌<◌, ◌^◌, ℕ, IfNone, IfSome, length, true, false};
ghost use Rattle.gm_callers.specs.Holding.{is_holder, is_wanted, locks_meet};

use crate::caller::Caller;
use gm_calls::LockSet;

/// The least caller but `c` whose call in progress has a lock in common with these.
pub fn least_holder(list: &[Caller], c: u32, locks: &LockSet) -> Option<u32>
    requires { length list.now < 2 ^ 32 }
    ensures some { IfSome result (λ other. is_holder list.now c locks.now other ≡ true) }
    ensures least { IfSome result (λ other. (k : ℕ) → k < other → is_holder list.now c locks.now k ≡ false) }
    ensures none { IfNone result ((k : ℕ) → is_holder list.now c locks.now k ≡ false) }
{
    for other in 0..list.len() {
        if is_one(list, c, locks, other) {
            return Some(other as u32);
        }
    }
    None
}

fn is_one(list: &[Caller], c: u32, locks: &LockSet, other: usize) -> bool
    requires { other < length list.now }
    ensures { result ≡ is_holder list.now c locks.now other }
{
    match &list[other].call {
        Some(x) => other != c as usize && have_common(&x.call.locks, locks),
        None => false,
    }
}

/// Whether the sets have a lock in common.
fn have_common(held: &LockSet, needed: &LockSet) -> bool
    ensures { result ≡ locks_meet held.now needed.now }
{
    (held.slots && needed.slots) || wants(held.first, needed) || wants(held.second, needed)
}

/// Whether the file's lock is in the set.
fn wants(file: Option<u32>, needed: &LockSet) -> bool
    ensures { result ≡ is_wanted file needed.now }
{
    match file {
        Some(file) => needed.first == Some(file) || needed.second == Some(file),
        None => false,
    }
}
