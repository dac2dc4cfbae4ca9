//! The refusals, row by row.

ghost use Rattle.std.specs.Prelude.{◌≡◌, IfOk, IfErr, None, Some};
ghost use Rattle.gm_flat.specs.FlatState.{has_flag};
ghost use Rattle.gm_ioctl.specs.Arguments.{argument_refusal, first_refusal, create_rows, region_rows, attrs_rows, range_rows, populate_rows, word_rows};

use crate::rows::{
    ends_past_64_bits, ends_past_user, is_bad_range, is_too_long, is_whole_pages, is_whole_words,
};
use gm_base::{
    BLOCK, Errno, Ioctl, KVM_MEM_GUEST_MEMFD, KVM_MEM_READONLY, KVM_MEMORY_ATTRIBUTE_PRIVATE,
    Region, SLOT_IDS, WORD_BYTES,
};

/// The rows of a call's table that look at its arguments and at the count of user pages alone, and that stand before every
/// row that needs the state. Err has the answer of the first row that holds, which is Inval; Ok comes where none holds.
/// It takes no memory.
pub fn check(ioctl: &Ioctl, user: u32) -> Result<(), Errno>
    ensures ok { IfOk result (λ _. argument_refusal user ioctl.now ≡ None) }
    ensures bad { IfErr result (λ e. argument_refusal user ioctl.now ≡ Some e) }
{
    match ioctl {
        Ioctl::Create { size, flags } => check_create(*size, *flags),
        Ioctl::Region2(region) => check_region(region, user),
        Ioctl::Attrs {
            address,
            size,
            attributes,
            flags,
        } => check_attrs(*address, *size, *attributes, *flags),
        Ioctl::Punch { offset, length, .. } | Ioctl::Allocate { offset, length, .. } => {
            check_range(*offset, *length)
        }
        Ioctl::Close { .. } => Ok(()),
        Ioctl::Populate {
            gpa,
            pages,
            user: from,
        } => check_populate(*gpa, *pages, *from),
        Ioctl::Poke { address, .. } | Ioctl::Peek { address } => check_word(*address, user),
    }
}

/// The rows of create.
fn check_create(size: u64, flags: u64) -> Result<(), Errno>
    ensures ok { IfOk result (λ _. first_refusal (create_rows size flags) ≡ None) }
    ensures bad { IfErr result (λ e. first_refusal (create_rows size flags) ≡ Some e) }
{
    if size == 0 || is_too_long(size) || !is_whole_pages(size) {
        Err(Errno::Inval)
    } else if !(flags == 0 || flags == BLOCK) {
        Err(Errno::Inval)
    } else {
        Ok(())
    }
}

/// The rows of region.
fn check_region(region: &Region, user: u32) -> Result<(), Errno>
    ensures ok { IfOk result (λ _. first_refusal (region_rows user region.now) ≡ None) }
    ensures bad { IfErr result (λ e. first_refusal (region_rows user region.now) ≡ Some e) }
{
    let has_file = is_file_backed(region.flags);
    if !(region.flags == 0
        || region.flags == KVM_MEM_READONLY
        || region.flags == KVM_MEM_GUEST_MEMFD)
    {
        Err(Errno::Inval)
    } else if !(is_whole_pages(region.size)
        && is_whole_pages(region.gpa)
        && is_whole_pages(region.user))
        || (has_file && !is_whole_pages(region.offset))
    {
        Err(Errno::Inval)
    } else if ends_past_64_bits(region.gpa, region.size)
        || (has_file && ends_past_64_bits(region.offset, region.size))
    {
        Err(Errno::Inval)
    } else if ends_past_user(user, region.user, region.size) {
        Err(Errno::Inval)
    } else if region.slot >= SLOT_IDS {
        Err(Errno::Inval)
    } else {
        Ok(())
    }
}

/// Whether the flags ask for a guest_memfd.
fn is_file_backed(flags: u32) -> bool
    ensures { result ≡ has_flag KVM_MEM_GUEST_MEMFD flags }
{
    flags & KVM_MEM_GUEST_MEMFD != 0
}

/// The rows of attrs.
fn check_attrs(address: u64, size: u64, attributes: u64, flags: u64) -> Result<(), Errno>
    ensures ok { IfOk result (λ _. first_refusal (attrs_rows address size attributes flags) ≡ None) }
    ensures bad { IfErr result (λ e. first_refusal (attrs_rows address size attributes flags) ≡ Some e) }
{
    if flags != 0 || !(attributes == 0 || attributes == KVM_MEMORY_ATTRIBUTE_PRIVATE) {
        Err(Errno::Inval)
    } else if size == 0 || ends_past_64_bits(address, size) {
        Err(Errno::Inval)
    } else if !(is_whole_pages(address) && is_whole_pages(size)) {
        Err(Errno::Inval)
    } else {
        Ok(())
    }
}

/// The row of punch and allocate.
fn check_range(offset: u64, length: u64) -> Result<(), Errno>
    ensures ok { IfOk result (λ _. first_refusal (range_rows offset length) ≡ None) }
    ensures bad { IfErr result (λ e. first_refusal (range_rows offset length) ≡ Some e) }
{
    if is_bad_range(offset, length) {
        Err(Errno::Inval)
    } else {
        Ok(())
    }
}

/// The row of populate.
fn check_populate(gpa: u64, pages: u64, from: u64) -> Result<(), Errno>
    ensures ok { IfOk result (λ _. first_refusal (populate_rows gpa pages from) ≡ None) }
    ensures bad { IfErr result (λ e. first_refusal (populate_rows gpa pages from) ≡ Some e) }
{
    if !(is_whole_pages(gpa) && is_whole_pages(from)) || pages == 0 {
        Err(Errno::Inval)
    } else {
        Ok(())
    }
}

/// The row of poke and peek.
fn check_word(address: u64, user: u32) -> Result<(), Errno>
    ensures ok { IfOk result (λ _. first_refusal (word_rows user address) ≡ None) }
    ensures bad { IfErr result (λ e. first_refusal (word_rows user address) ≡ Some e) }
{
    if !is_whole_words(address) || ends_past_user(user, address, WORD_BYTES) {
        Err(Errno::Inval)
    } else {
        Ok(())
    }
}
