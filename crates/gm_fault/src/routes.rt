//! Where a fault goes on.

ghost use Rattle.std.specs.Prelude.{◌≡◌, IfSome, not, nat_eq, bit_and};
ghost use Rattle.gm_flat.specs.RightLook.{is_marked};
ghost use Rattle.gm_fault.specs.Routes.{IsSlotOver, has_flag, memory_fault, route_of, route_of_private, route_of_shared};

use gm_base::{
    Access, KVM_MEM_GUEST_MEMFD, KVM_MEM_READONLY, KVM_MEMORY_EXIT_FLAG_PRIVATE, Kind, Op,
    PAGE_BYTES,
};
use gm_flat::{Exit, Looked, SlotView};

/// Where an access goes after its look: it leaves the guest, it is backed by a user page, or by the page of a file at an
/// index, or it is tried again. User pages and indexes are pages.
#[derive(Clone, Copy, Debug, PartialEq, Eq)]
pub enum Route {
    Exit(Exit),
    User(u64),
    File(u32, u64),
    Again,
}

/// The route of an access by the slot over its page and the page's attribute. Under a slot that is marked it is tried
/// again, whatever its kind. A kind that isn't the attribute exits by a memory fault. A private access goes to the slot's
/// file, and exits by a memory fault where there is none in use. A shared one goes to the slot's user page, and exits by
/// MMIO where there is no slot, and for a write where the slot is read-only.
pub fn decide(looked: &Looked, access: &Access) -> Route
    requires { IfSome looked.now.slot (IsSlotOver access.now.page) }
    ensures { result ≡ route_of looked.now access.now }
{
    if is_marked(looked.slot) {
        return Route::Again;
    }
    match (looked.attr, access.kind()) {
        (Kind::Private, Kind::Private) => private_route(looked.slot, *access),
        (Kind::Shared, Kind::Shared) => shared_route(looked.slot, *access),
        _ => Route::Exit(memory_fault(*access)),
    }
}

// Whether there is a slot and it is marked.
fn is_marked(slot: Option<SlotView>) -> bool
    ensures { result ≡ is_marked slot }
{
    match slot {
        Some(slot) => slot.invalid,
        None => false,
    }
}

// The route of a private access to a private page.
fn private_route(slot: Option<SlotView>, access: Access) -> Route
    requires { IfSome slot (IsSlotOver access.page) }
    ensures { result ≡ route_of_private slot access }
{
    if let Some(slot) = slot {
        if slot.flags & KVM_MEM_GUEST_MEMFD != 0 {
            if let Some(file) = slot.file {
                return Route::File(file, slot.index + (access.page().number() - slot.base));
            }
        }
    }
    Route::Exit(memory_fault(access))
}

// The route of a shared access to a shared page.
fn shared_route(slot: Option<SlotView>, access: Access) -> Route
    requires { IfSome slot (IsSlotOver access.page) }
    ensures { result ≡ route_of_shared slot access }
{
    if let Some(slot) = slot {
        let is_permitted = match access.op() {
            Op::Read => true,
            Op::Write(_) => slot.flags & KVM_MEM_READONLY == 0,
        };
        if is_permitted {
            return Route::User(slot.user + (access.page().number() - slot.base));
        }
    }
    Route::Exit(Exit::Mmio {
        gpa: access.address(),
    })
}

// The memory fault of the access.
fn memory_fault(access: Access) -> Exit
    ensures { result ≡ memory_fault access }
{
    let flags = match access.kind() {
        Kind::Private => KVM_MEMORY_EXIT_FLAG_PRIVATE,
        Kind::Shared => 0,
    };
    Exit::Fault {
        flags,
        gpa: PAGE_BYTES * access.page().number(),
        size: PAGE_BYTES,
    }
}
