//! The locks of a call.

ghost use Rattle.std.specs.Prelude.{◌≡◌, ℕ, ◌&&◌};
ghost use Rattle.gm_flat.specs.Calls.{page_of};
ghost use Rattle.gm_flat.specs.FlatState.{Flat, in_use};
ghost use Rattle.gm_flat.specs.Locks.{takes_slots};
ghost use Rattle.gm_flat.specs.RightLook.{file_of};
ghost use Rattle.gm_flat.specs.Slots.{is_file, slot_over};
ghost use Rattle.gm_calls.specs.Lent.{LentStand};
ghost use Rattle.gm_calls.specs.LockSets.{HasItsLocks, first_file, second_file};

use crate::flags::is_file_backed;
use crate::parts::Parts;
use gm_base::{Ioctl, PAGE_BYTES, Page};
use gm_flat::SlotView;

/// Whether a call needs the lock of slots and attributes, and the files whose locks it needs.
#[derive(Clone, Copy, Debug, PartialEq, Eq)]
pub struct LockSet {
    pub slots: bool,
    pub first: Option<u32>,
    pub second: Option<u32>,
}

/// The locks that a call needs, whether or not its arguments are right. A number that names no file in use has none.
/// It takes no memory.
pub fn locks(parts: &Parts<'_>, ioctl: &Ioctl) -> LockSet
    ensures { (f : Flat) → LentStand parts.now f → HasItsLocks result ioctl.now f }
{
    let slots = needs_slots(ioctl);
    let first = if_used(parts, named_file(parts, ioctl));
    let second = if_used(parts, file_of_its_slot(parts, ioctl));
    LockSet {
        slots,
        first,
        second,
    }
}

/// Whether the call needs the lock of slots and attributes.
fn needs_slots(ioctl: &Ioctl) -> bool
    ensures { result ≡ takes_slots ioctl.now }
{
    match ioctl {
        Ioctl::Region2(_) => true,
        Ioctl::Attrs { .. } => true,
        Ioctl::Close { .. } => true,
        Ioctl::Populate { .. } => true,
        Ioctl::Create { .. } => false,
        Ioctl::Punch { .. } => false,
        Ioctl::Allocate { .. } => false,
        Ioctl::Poke { .. } => false,
        Ioctl::Peek { .. } => false,
    }
}

/// The file that the call names, or for a population that of the slot over its address.
fn named_file(parts: &Parts<'_>, ioctl: &Ioctl) -> Option<u32>
    ensures { result ≡ first_file ioctl.now parts.now.slots.now.slots }
{
    match *ioctl {
        Ioctl::Region2(region) => {
            if is_file_backed(region.flags) {
                Some(region.fd)
            } else {
                None
            }
        }
        Ioctl::Punch { fd, .. } => Some(fd),
        Ioctl::Allocate { fd, .. } => Some(fd),
        Ioctl::Close { fd } => Some(fd),
        Ioctl::Populate { gpa, .. } => file_over(parts, gpa),
        Ioctl::Create { .. } => None,
        Ioctl::Attrs { .. } => None,
        Ioctl::Poke { .. } => None,
        Ioctl::Peek { .. } => None,
    }
}

/// The file of the slot that a region is about.
fn file_of_its_slot(parts: &Parts<'_>, ioctl: &Ioctl) -> Option<u32>
    ensures { result ≡ second_file ioctl.now parts.now.slots.now.slots }
{
    match *ioctl {
        Ioctl::Region2(region) => file_of_slot(parts.slots.by_id(region.slot)),
        Ioctl::Create { .. } => None,
        Ioctl::Attrs { .. } => None,
        Ioctl::Punch { .. } => None,
        Ioctl::Allocate { .. } => None,
        Ioctl::Close { .. } => None,
        Ioctl::Populate { .. } => None,
        Ioctl::Poke { .. } => None,
        Ioctl::Peek { .. } => None,
    }
}

/// The file, where it is in use.
fn if_used(parts: &Parts<'_>, named: Option<u32>) -> Option<u32>
    ensures { (f : Flat) → LentStand parts.now f → (file : ℕ) → is_file result file ≡ (is_file named file && in_use file f.files) }
{
    match named {
        None => None,
        Some(fd) => match parts.file(fd) {
            None => None,
            Some(_) => Some(fd),
        },
    }
}

/// The file of the slot over an address.
fn file_over(parts: &Parts<'_>, gpa: u64) -> Option<u32>
    ensures { result ≡ file_of (slot_over parts.now.slots.now.slots (page_of gpa)) }
{
    match Page::new(gpa / PAGE_BYTES) {
        Some(page) => file_of_slot(parts.slots.find(page)),
        None => unreachable!(),
    }
}

/// The file of a slot, where there is one.
fn file_of_slot(slot: Option<SlotView>) -> Option<u32>
    ensures { result ≡ file_of slot }
{
    match slot {
        Some(slot) => slot.file,
        None => None,
    }
}
