//! Lines of judged calls.

ghost use Rattle.std.specs.Prelude.{◌≡◌};
ghost use Rattle.gm_history.specs.Whats.{create_of, region_of, attrs_of, punch_of, allocate_of, close_of, populate_of, poke_of, peek_of, call_of};

use crate::entries::ended;
use crate::fields::{number_after, small_after};
use gm_base::{Ioctl, Region};
use gm_flat::What;

#[tactic(auto, unfolding(crate::specs::Whats::create_of))]
fn read_create(line: &[u8]) -> Option<What>
    ensures { result ≡ create_of line.now }
{
    let size = number_after(b"judge create ", line)?;
    let flags = number_after(b" ", size.rest)?;
    ended(
        flags.rest,
        What::Judge {
            call: Ioctl::Create {
                size: size.value,
                flags: flags.value,
            },
        },
    )
}

#[tactic(auto, unfolding(crate::specs::Whats::region_of))]
fn read_region(line: &[u8]) -> Option<What>
    ensures { result ≡ region_of line.now }
{
    let slot = small_after(b"judge region ", line)?;
    let flags = small_after(b" ", slot.rest)?;
    let gpa = number_after(b" ", flags.rest)?;
    let size = number_after(b" ", gpa.rest)?;
    let user = number_after(b" ", size.rest)?;
    let fd = small_after(b" ", user.rest)?;
    let offset = number_after(b" ", fd.rest)?;
    ended(
        offset.rest,
        What::Judge {
            call: Ioctl::Region2(Region {
                slot: slot.value,
                flags: flags.value,
                gpa: gpa.value,
                size: size.value,
                user: user.value,
                fd: fd.value,
                offset: offset.value,
            }),
        },
    )
}

#[tactic(auto, unfolding(crate::specs::Whats::attrs_of))]
fn read_attrs(line: &[u8]) -> Option<What>
    ensures { result ≡ attrs_of line.now }
{
    let address = number_after(b"judge attrs ", line)?;
    let size = number_after(b" ", address.rest)?;
    let attributes = number_after(b" ", size.rest)?;
    let flags = number_after(b" ", attributes.rest)?;
    ended(
        flags.rest,
        What::Judge {
            call: Ioctl::Attrs {
                address: address.value,
                size: size.value,
                attributes: attributes.value,
                flags: flags.value,
            },
        },
    )
}

#[tactic(auto, unfolding(crate::specs::Whats::punch_of))]
fn read_punch(line: &[u8]) -> Option<What>
    ensures { result ≡ punch_of line.now }
{
    let fd = small_after(b"judge punch ", line)?;
    let offset = number_after(b" ", fd.rest)?;
    let length = number_after(b" ", offset.rest)?;
    ended(
        length.rest,
        What::Judge {
            call: Ioctl::Punch {
                fd: fd.value,
                offset: offset.value,
                length: length.value,
            },
        },
    )
}

#[tactic(auto, unfolding(crate::specs::Whats::allocate_of))]
fn read_allocate(line: &[u8]) -> Option<What>
    ensures { result ≡ allocate_of line.now }
{
    let fd = small_after(b"judge allocate ", line)?;
    let offset = number_after(b" ", fd.rest)?;
    let length = number_after(b" ", offset.rest)?;
    ended(
        length.rest,
        What::Judge {
            call: Ioctl::Allocate {
                fd: fd.value,
                offset: offset.value,
                length: length.value,
            },
        },
    )
}

#[tactic(auto, unfolding(crate::specs::Whats::close_of))]
fn read_close(line: &[u8]) -> Option<What>
    ensures { result ≡ close_of line.now }
{
    let fd = small_after(b"judge close ", line)?;
    ended(
        fd.rest,
        What::Judge {
            call: Ioctl::Close { fd: fd.value },
        },
    )
}

#[tactic(auto, unfolding(crate::specs::Whats::populate_of))]
fn read_populate(line: &[u8]) -> Option<What>
    ensures { result ≡ populate_of line.now }
{
    let gpa = number_after(b"judge populate ", line)?;
    let pages = number_after(b" ", gpa.rest)?;
    let user = number_after(b" ", pages.rest)?;
    ended(
        user.rest,
        What::Judge {
            call: Ioctl::Populate {
                gpa: gpa.value,
                pages: pages.value,
                user: user.value,
            },
        },
    )
}

#[tactic(auto, unfolding(crate::specs::Whats::poke_of))]
fn read_poke(line: &[u8]) -> Option<What>
    ensures { result ≡ poke_of line.now }
{
    let address = number_after(b"judge poke ", line)?;
    let value = number_after(b" ", address.rest)?;
    ended(
        value.rest,
        What::Judge {
            call: Ioctl::Poke {
                address: address.value,
                value: value.value,
            },
        },
    )
}

#[tactic(auto, unfolding(crate::specs::Whats::peek_of))]
fn read_peek(line: &[u8]) -> Option<What>
    ensures { result ≡ peek_of line.now }
{
    let address = number_after(b"judge peek ", line)?;
    ended(
        address.rest,
        What::Judge {
            call: Ioctl::Peek {
                address: address.value,
            },
        },
    )
}

/// What a line says that tells a judged call.
#[tactic(auto, unfolding(crate::specs::Whats::call_of))]
pub fn read_call(line: &[u8]) -> Option<What>
    ensures { result ≡ call_of line.now }
{
    if let Some(what) = read_create(line) {
        return Some(what);
    }
    if let Some(what) = read_region(line) {
        return Some(what);
    }
    if let Some(what) = read_attrs(line) {
        return Some(what);
    }
    if let Some(what) = read_punch(line) {
        return Some(what);
    }
    if let Some(what) = read_allocate(line) {
        return Some(what);
    }
    if let Some(what) = read_close(line) {
        return Some(what);
    }
    if let Some(what) = read_populate(line) {
        return Some(what);
    }
    if let Some(what) = read_poke(line) {
        return Some(what);
    }
    read_peek(line)
}
