//! Lines of a vCPU's turns.

ghost use Rattle.std.specs.Prelude.{◌≡◌, ◌<◌, None, Some, MatchOption, IfSome};
ghost use Rattle.gm_base.specs.declared.numbers.TheConstants.{PAGE_LIMIT, PAGE_WORDS};
ghost use Rattle.gm_history.specs.Numerals.{got};
ghost use Rattle.gm_history.specs.Whats.{touch_of, miss_of, sample_of, look_of, get_user_of, get_folio_of, install_of, fault_of, mmio_of, fault_line_of, touch_on, aim_of, read_at, write_at, access_at, user_at, folio_at, backing_at};

use crate::cuts::strip;
use crate::entries::ended;
use crate::fields::{
    Place, address_after, kind_after, level_after, maybe_after, number_after, page_after, page_of,
    small_after, tiny_after, word,
};
use crate::numerals::Field;
use gm_base::{Access, Folio, Kind, Op};
use gm_flat::{Backing, Exit, What};

/// What an access aims at, by its numbers.
#[derive(Clone, Copy, Debug, PartialEq, Eq)]
pub struct Aimed {
    pub place: Place,
    pub op: Op,
    pub kind: Kind,
}

pub fn access_of(aimed: Aimed) -> Access
    requires { (aimed.place.page < PAGE_LIMIT) × (aimed.place.word < PAGE_WORDS) }
    ensures { result ≡ aim_of aimed }
{
    Access::new(
        page_of(aimed.place.page),
        aimed.place.word,
        aimed.op,
        aimed.kind,
    )
}

#[tactic(auto, unfolding(crate::specs::Whats::read_at))]
fn read_access(bytes: &[u8]) -> Option<Field<'_, Aimed>>
    ensures value { MatchOption result (read_at bytes.now ≡ None) (λ f. read_at bytes.now ≡ Some (got (aim_of f.value) f.rest.now)) }
    ensures bound { IfSome result (λ f. (f.value.place.page < PAGE_LIMIT) × (f.value.place.word < PAGE_WORDS)) }
{
    let kind = kind_after(b"read ", bytes)?;
    let place = address_after(b" ", kind.rest)?;
    Some(Field {
        value: Aimed {
            place: place.value,
            op: Op::Read,
            kind: kind.value,
        },
        rest: place.rest,
    })
}

#[tactic(auto, unfolding(crate::specs::Whats::write_at))]
fn write_access(bytes: &[u8]) -> Option<Field<'_, Aimed>>
    ensures value { MatchOption result (write_at bytes.now ≡ None) (λ f. write_at bytes.now ≡ Some (got (aim_of f.value) f.rest.now)) }
    ensures bound { IfSome result (λ f. (f.value.place.page < PAGE_LIMIT) × (f.value.place.word < PAGE_WORDS)) }
{
    let kind = kind_after(b"write ", bytes)?;
    let place = address_after(b" ", kind.rest)?;
    let value = number_after(b" ", place.rest)?;
    Some(Field {
        value: Aimed {
            place: place.value,
            op: Op::Write(value.value),
            kind: kind.value,
        },
        rest: value.rest,
    })
}

#[tactic(auto, unfolding(crate::specs::Whats::access_at))]
pub fn access(bytes: &[u8]) -> Option<Field<'_, Aimed>>
    ensures value { MatchOption result (access_at bytes.now ≡ None) (λ f. access_at bytes.now ≡ Some (got (aim_of f.value) f.rest.now)) }
    ensures bound { IfSome result (λ f. (f.value.place.page < PAGE_LIMIT) × (f.value.place.word < PAGE_WORDS)) }
{
    if let Some(access) = read_access(bytes) {
        return Some(access);
    }
    write_access(bytes)
}

#[tactic(auto, unfolding(crate::specs::Whats::user_at))]
fn user_backing(bytes: &[u8]) -> Option<Field<'_, Backing>>
    ensures { MatchOption result (user_at bytes.now ≡ None) (λ f. user_at bytes.now ≡ Some (got f.value f.rest.now)) }
{
    let page = number_after(b"user=", bytes)?;
    Some(Field {
        value: Backing::User(page.value),
        rest: page.rest,
    })
}

#[tactic(auto, unfolding(crate::specs::Whats::folio_at))]
fn folio_backing(bytes: &[u8]) -> Option<Field<'_, Backing>>
    ensures { MatchOption result (folio_at bytes.now ≡ None) (λ f. folio_at bytes.now ≡ Some (got f.value f.rest.now)) }
{
    let serial = number_after(b"serial=", bytes)?;
    let frame = small_after(b" frame=", serial.rest)?;
    let folio = Folio {
        serial: serial.value,
        frame: frame.value,
    };
    Some(Field {
        value: Backing::Folio(folio),
        rest: frame.rest,
    })
}

#[tactic(auto, unfolding(crate::specs::Whats::backing_at))]
fn backing(bytes: &[u8]) -> Option<Field<'_, Backing>>
    ensures { MatchOption result (backing_at bytes.now ≡ None) (λ f. backing_at bytes.now ≡ Some (got f.value f.rest.now)) }
{
    if let Some(backing) = user_backing(bytes) {
        return Some(backing);
    }
    folio_backing(bytes)
}

#[tactic(auto, unfolding(crate::specs::Whats::miss_of))]
fn read_miss(line: &[u8]) -> Option<What>
    ensures { result ≡ miss_of line.now }
{
    let access = access(strip(b"miss ", line)?)?;
    ended(
        access.rest,
        What::Miss {
            access: access_of(access.value),
        },
    )
}

pub fn touch_on(access: Access, backing: Backing, rest: &[u8]) -> Option<What>
    ensures { result ≡ touch_on access backing rest.now }
{
    let level = level_after(b" level=", rest)?;
    let value = number_after(b" value=", level.rest)?;
    let fill = number_after(b" fill=", value.rest)?;
    ended(
        fill.rest,
        What::Touch {
            access,
            backing,
            level: level.value,
            value: value.value,
            fill: fill.value,
        },
    )
}

#[tactic(auto, unfolding(crate::specs::Whats::touch_of))]
fn read_touch(line: &[u8]) -> Option<What>
    ensures { result ≡ touch_of line.now }
{
    let access = access(strip(b"touch ", line)?)?;
    let backing = backing(strip(b" ", access.rest)?)?;
    touch_on(access_of(access.value), backing.value, backing.rest)
}

#[tactic(auto, unfolding(crate::specs::Whats::sample_of))]
fn read_sample(line: &[u8]) -> Option<What>
    ensures { result ≡ sample_of line.now }
{
    let at = number_after(b"sample at=", line)?;
    ended(at.rest, What::Sample { at: at.value })
}

#[tactic(auto, unfolding(crate::specs::Whats::look_of))]
fn read_look(line: &[u8]) -> Option<What>
    ensures { result ≡ look_of line.now }
{
    let at = number_after(b"look at=", line)?;
    let slot = maybe_after(b" slot=", at.rest)?;
    let attr = kind_after(b" attr=", slot.rest)?;
    let file = maybe_after(b" file=", attr.rest)?;
    ended(
        file.rest,
        What::Look {
            at: at.value,
            slot: slot.value,
            attr: attr.value,
            file: file.value,
        },
    )
}

#[tactic(auto, unfolding(crate::specs::Whats::get_user_of))]
fn read_get_user(line: &[u8]) -> Option<What>
    ensures { result ≡ get_user_of line.now }
{
    let page = number_after(b"get user=", line)?;
    ended(
        page.rest,
        What::Get {
            backing: Backing::User(page.value),
            fresh: 0,
        },
    )
}

#[tactic(auto, unfolding(crate::specs::Whats::get_folio_of))]
fn read_get_folio(line: &[u8]) -> Option<What>
    ensures { result ≡ get_folio_of line.now }
{
    let serial = number_after(b"get serial=", line)?;
    let frame = small_after(b" frame=", serial.rest)?;
    let fresh = tiny_after(b" fresh=", frame.rest)?;
    ended(
        fresh.rest,
        What::Get {
            backing: Backing::Folio(Folio {
                serial: serial.value,
                frame: frame.value,
            }),
            fresh: fresh.value,
        },
    )
}

#[tactic(auto, unfolding(crate::specs::Whats::install_of))]
fn read_install(line: &[u8]) -> Option<What>
    ensures { result ≡ install_of line.now }
{
    let page = page_after(b"install page=", line)?;
    let level = level_after(b" level=", page.rest)?;
    ended(
        level.rest,
        What::Install {
            page: page_of(page.value),
            level: level.value,
        },
    )
}

#[tactic(auto, unfolding(crate::specs::Whats::fault_of))]
fn read_fault(line: &[u8]) -> Option<What>
    ensures { result ≡ fault_of line.now }
{
    let flags = number_after(b"exit reason=39 errno=14 flags=", line)?;
    let gpa = number_after(b" gpa=", flags.rest)?;
    let last = word(b" size=4096", gpa.rest)?;
    ended(
        last.rest,
        What::Left {
            why: Exit::Fault {
                flags: flags.value,
                gpa: gpa.value,
                size: 4096,
            },
        },
    )
}

#[tactic(auto, unfolding(crate::specs::Whats::mmio_of))]
fn read_mmio(line: &[u8]) -> Option<What>
    ensures { result ≡ mmio_of line.now }
{
    let gpa = number_after(b"exit reason=6 gpa=", line)?;
    ended(
        gpa.rest,
        What::Left {
            why: Exit::Mmio { gpa: gpa.value },
        },
    )
}

/// What a line says that tells a vCPU's access or a step of its fault.
#[tactic(auto, unfolding(crate::specs::Whats::fault_line_of))]
pub fn read_fault_line(line: &[u8]) -> Option<What>
    ensures { result ≡ fault_line_of line.now }
{
    if let Some(what) = read_touch(line) {
        return Some(what);
    }
    if let Some(what) = read_miss(line) {
        return Some(what);
    }
    if let Some(what) = read_sample(line) {
        return Some(what);
    }
    if let Some(what) = read_look(line) {
        return Some(what);
    }
    if let Some(what) = read_get_user(line) {
        return Some(what);
    }
    if let Some(what) = read_get_folio(line) {
        return Some(what);
    }
    if let Some(what) = read_install(line) {
        return Some(what);
    }
    if let Some(what) = read_fault(line) {
        return Some(what);
    }
    read_mmio(line)
}
