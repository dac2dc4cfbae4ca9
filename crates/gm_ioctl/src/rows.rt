//! The tests that the rows are made of.

ghost use Rattle.std.specs.Prelude.{◌≡◌, ◌+◌, ◌*◌, ◌%◌, ◌^◌, ◌<◌, ◌≤◌, nat_eq, nat_le};
ghost use Rattle.gm_base.specs.declared.numbers.TheConstants.{WORD_BYTES};
ghost use Rattle.gm_flat.specs.Calls.{bad_range, is_paged, OFFSET_LIMIT};
ghost use Rattle.gm_flat.specs.Effects.{U64_LIMIT};
ghost use Rattle.gm_ioctl.specs.Arguments.{past_user};

use gm_base::{PAGE_BYTES, WORD_BYTES};

/// The bytes of a file, and offsets in it, end below this, 2^63.
const FILE_BYTES: u64 = 9_223_372_036_854_775_808;

/// Whether so many bytes are whole pages.
pub(crate) fn is_whole_pages(bytes: u64) -> bool
    ensures { result ≡ is_paged bytes }
{
    bytes % PAGE_BYTES == 0
}

/// Whether so many bytes are whole words.
pub(crate) fn is_whole_words(bytes: u64) -> bool
    ensures { result ≡ nat_eq (bytes % WORD_BYTES) 0 }
{
    bytes % WORD_BYTES == 0
}

/// Whether so many bytes from a place on end at 2^64 or above.
pub(crate) fn ends_past_64_bits(start: u64, bytes: u64) -> bool
    ensures { result ≡ nat_le U64_LIMIT (start + bytes) }
{
    start > u64::MAX - bytes
}

/// Whether a file of so many bytes is too long.
pub(crate) fn is_too_long(bytes: u64) -> bool
    ensures { result ≡ nat_le OFFSET_LIMIT bytes }
{
    FILE_BYTES <= bytes
}

/// Whether so many bytes from an address on end past user memory of so many pages.
pub(crate) fn ends_past_user(user: u32, address: u64, bytes: u64) -> bool
    ensures { result ≡ past_user user address bytes }
{
    let end = PAGE_BYTES * u64::from(user);
    address > end || bytes > end - address
}

/// Whether a range of a file is empty, isn't whole pages, or ends at 2^63 or above.
pub(crate) fn is_bad_range(offset: u64, bytes: u64) -> bool
    ensures { result ≡ bad_range offset bytes }
{
    bytes == 0
        || !(is_whole_pages(offset) && is_whole_pages(bytes))
        || offset >= FILE_BYTES
        || bytes >= FILE_BYTES - offset
}
