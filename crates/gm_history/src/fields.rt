//! The fields of lines.

ghost use Rattle.std.specs.Prelude.{◌≡◌, ◌<◌, ◌≤◌, None, Some, MatchOption, IfSome, true, false};
ghost use Rattle.gm_base.specs.declared.numbers.TheConstants.{PAGE_WORDS};
ghost use Rattle.gm_history.specs.Numerals.{got};
ghost use Rattle.gm_history.specs.Fields.{U64, U32, U16, PageNumber, Maybe, OfKind, OfLevel, Bit, Huge, OfErrno, OfActor, Address, OfSpan, Nothing, after, errno_by, small_at, tiny_at, page_at, maybe_at, kind_at, level_at, bit_at, huge_at, errno_at, actor_at, address_at, span_at};

use crate::cuts::strip;
use crate::numerals::{Field, number};
use gm_base::{Actor, Errno, Kind, Level, PAGE_BYTES, PAGE_LIMIT, Page, Span, WORD_BYTES};

/// A number below 2^32.
#[tactic(auto, unfolding(crate::specs::Fields::small_at))]
fn small_number(bytes: &[u8]) -> Option<Field<'_, u32>>
    ensures { MatchOption result (small_at bytes.now ≡ None) (λ f. small_at bytes.now ≡ Some (got f.value f.rest.now)) }
{
    let n = number(bytes)?;
    if n.value < 4_294_967_296 {
        return Some(Field {
            value: n.value as u32,
            rest: n.rest,
        });
    }
    None
}

/// A number below 2^16.
#[tactic(auto, unfolding(crate::specs::Fields::tiny_at))]
fn tiny_number(bytes: &[u8]) -> Option<Field<'_, u16>>
    ensures { MatchOption result (tiny_at bytes.now ≡ None) (λ f. tiny_at bytes.now ≡ Some (got f.value f.rest.now)) }
{
    let n = number(bytes)?;
    if n.value < 65536 {
        return Some(Field {
            value: n.value as u16,
            rest: n.rest,
        });
    }
    None
}

/// The number of a guest page.
#[tactic(auto, unfolding(crate::specs::Fields::page_at))]
fn page(bytes: &[u8]) -> Option<Field<'_, u64>>
    ensures value { MatchOption result (page_at bytes.now ≡ None) (λ f. page_at bytes.now ≡ Some (got f.value f.rest.now)) }
    ensures bound { IfSome result (λ f. f.value < PAGE_LIMIT) }
{
    let n = number(bytes)?;
    if n.value < PAGE_LIMIT {
        return Some(n);
    }
    None
}

/// A number below 2^32, or a hyphen.
#[tactic(auto, unfolding(crate::specs::Fields::maybe_at))]
fn maybe(bytes: &[u8]) -> Option<Field<'_, Option<u32>>>
    ensures { MatchOption result (maybe_at bytes.now ≡ None) (λ f. maybe_at bytes.now ≡ Some (got f.value f.rest.now)) }
{
    if let Some(rest) = strip(b"-", bytes) {
        return Some(Field { value: None, rest });
    }
    let n = small_number(bytes)?;
    Some(Field {
        value: Some(n.value),
        rest: n.rest,
    })
}

/// The kind of an access or of an attribute.
#[tactic(auto, unfolding(crate::specs::Fields::kind_at))]
fn kind(bytes: &[u8]) -> Option<Field<'_, Kind>>
    ensures { MatchOption result (kind_at bytes.now ≡ None) (λ f. kind_at bytes.now ≡ Some (got f.value f.rest.now)) }
{
    if let Some(rest) = strip(b"private", bytes) {
        return Some(Field {
            value: Kind::Private,
            rest,
        });
    }
    let rest = strip(b"shared", bytes)?;
    Some(Field {
        value: Kind::Shared,
        rest,
    })
}

/// The level of a leaf.
#[tactic(auto, unfolding(crate::specs::Fields::level_at))]
fn level(bytes: &[u8]) -> Option<Field<'_, Level>>
    ensures { MatchOption result (level_at bytes.now ≡ None) (λ f. level_at bytes.now ≡ Some (got f.value f.rest.now)) }
{
    if let Some(rest) = strip(b"4k", bytes) {
        return Some(Field {
            value: Level::Small,
            rest,
        });
    }
    let rest = strip(b"2m", bytes)?;
    Some(Field {
        value: Level::Block,
        rest,
    })
}

/// A bit.
#[tactic(auto, unfolding(crate::specs::Fields::bit_at))]
fn bit(bytes: &[u8]) -> Option<Field<'_, bool>>
    ensures { MatchOption result (bit_at bytes.now ≡ None) (λ f. bit_at bytes.now ≡ Some (got f.value f.rest.now)) }
{
    if let Some(rest) = strip(b"1", bytes) {
        return Some(Field { value: true, rest });
    }
    let rest = strip(b"0", bytes)?;
    Some(Field { value: false, rest })
}

/// On or off.
#[tactic(auto, unfolding(crate::specs::Fields::huge_at))]
fn switch(bytes: &[u8]) -> Option<Field<'_, bool>>
    ensures { MatchOption result (huge_at bytes.now ≡ None) (λ f. huge_at bytes.now ≡ Some (got f.value f.rest.now)) }
{
    if let Some(rest) = strip(b"on", bytes) {
        return Some(Field { value: true, rest });
    }
    let rest = strip(b"off", bytes)?;
    Some(Field { value: false, rest })
}

/// The error of a number.
fn errno_by(n: u64) -> Option<Errno>
    ensures { result ≡ errno_by n }
{
    match n {
        2 => Some(Errno::NoEnt),
        9 => Some(Errno::BadF),
        12 => Some(Errno::NoMem),
        14 => Some(Errno::Fault),
        17 => Some(Errno::Exist),
        22 => Some(Errno::Inval),
        _ => None,
    }
}

/// An error by its number.
#[tactic(auto, unfolding(crate::specs::Fields::errno_at))]
fn errno(bytes: &[u8]) -> Option<Field<'_, Errno>>
    ensures { MatchOption result (errno_at bytes.now ≡ None) (λ f. errno_at bytes.now ≡ Some (got f.value f.rest.now)) }
{
    let n = number(bytes)?;
    let value = errno_by(n.value)?;
    Some(Field {
        value,
        rest: n.rest,
    })
}

/// An actor: a letter for its kind, and its number.
#[tactic(auto, unfolding(crate::specs::Fields::actor_at, crate::specs::Fields::small_at))]
fn actor(bytes: &[u8]) -> Option<Field<'_, Actor>>
    ensures { MatchOption result (actor_at bytes.now ≡ None) (λ f. actor_at bytes.now ≡ Some (got f.value f.rest.now)) }
{
    if let Some(rest) = strip(b"v", bytes) {
        let n = small_number(rest)?;
        return Some(Field {
            value: Actor::Vcpu(n.value),
            rest: n.rest,
        });
    }
    let rest = strip(b"c", bytes)?;
    let n = small_number(rest)?;
    Some(Field {
        value: Actor::Caller(n.value),
        rest: n.rest,
    })
}

/// A word of a page, by the page's number.
#[derive(Clone, Copy, Debug, PartialEq, Eq)]
pub struct Place {
    pub page: u64,
    pub word: u16,
}

/// The word at an address, which is a multiple of 8.
#[tactic(auto, unfolding(crate::specs::Fields::address_at))]
fn address(bytes: &[u8]) -> Option<Field<'_, Place>>
    ensures value { MatchOption result (address_at bytes.now ≡ None) (λ f. address_at bytes.now ≡ Some (got f.value f.rest.now)) }
    ensures bound { IfSome result (λ f. (f.value.page < PAGE_LIMIT) × (f.value.word < PAGE_WORDS)) }
{
    let n = number(bytes)?;
    if n.value % WORD_BYTES != 0 {
        return None;
    }
    Some(Field {
        value: Place {
            page: n.value / PAGE_BYTES,
            word: (n.value % PAGE_BYTES / WORD_BYTES) as u16,
        },
        rest: n.rest,
    })
}

/// The numbers of a span.
#[derive(Clone, Copy, Debug, PartialEq, Eq)]
pub struct Bounds {
    pub lo: u64,
    pub hi: u64,
}

/// The span from one number to another, the latter not in it.
#[tactic(auto, unfolding(crate::specs::Fields::span_at))]
pub fn span(bytes: &[u8]) -> Option<Field<'_, Bounds>>
    ensures value { MatchOption result (span_at bytes.now ≡ None) (λ f. span_at bytes.now ≡ Some (got (record { lo = f.value.lo; hi = f.value.hi }) f.rest.now)) }
    ensures bound { IfSome result (λ f. (f.value.lo < f.value.hi) × (f.value.hi ≤ PAGE_LIMIT)) }
{
    let lo = number(bytes)?;
    let hi = number(strip(b"-", lo.rest)?)?;
    if lo.value < hi.value && hi.value <= PAGE_LIMIT {
        return Some(Field {
            value: Bounds {
                lo: lo.value,
                hi: hi.value,
            },
            rest: hi.rest,
        });
    }
    None
}

/// The number after a word.
#[tactic(auto, unfolding(crate::specs::Fields::after))]
pub fn number_after<'a>(word: &[u8], bytes: &'a [u8]) -> Option<Field<'a, u64>>
    ensures { MatchOption result (after word.now U64 bytes.now ≡ None) (λ f. after word.now U64 bytes.now ≡ Some (got f.value f.rest.now)) }
{
    number(strip(word, bytes)?)
}

/// The number below 2^32 after a word.
#[tactic(auto, unfolding(crate::specs::Fields::after))]
pub fn small_after<'a>(word: &[u8], bytes: &'a [u8]) -> Option<Field<'a, u32>>
    ensures { MatchOption result (after word.now U32 bytes.now ≡ None) (λ f. after word.now U32 bytes.now ≡ Some (got f.value f.rest.now)) }
{
    small_number(strip(word, bytes)?)
}

/// The number below 2^16 after a word.
#[tactic(auto, unfolding(crate::specs::Fields::after))]
pub fn tiny_after<'a>(word: &[u8], bytes: &'a [u8]) -> Option<Field<'a, u16>>
    ensures { MatchOption result (after word.now U16 bytes.now ≡ None) (λ f. after word.now U16 bytes.now ≡ Some (got f.value f.rest.now)) }
{
    tiny_number(strip(word, bytes)?)
}

/// The page after a word.
#[tactic(auto, unfolding(crate::specs::Fields::after))]
pub fn page_after<'a>(word: &[u8], bytes: &'a [u8]) -> Option<Field<'a, u64>>
    ensures value { MatchOption result (after word.now PageNumber bytes.now ≡ None) (λ f. after word.now PageNumber bytes.now ≡ Some (got f.value f.rest.now)) }
    ensures bound { IfSome result (λ f. f.value < PAGE_LIMIT) }
{
    page(strip(word, bytes)?)
}

/// The number or hyphen after a word.
#[tactic(auto, unfolding(crate::specs::Fields::after))]
pub fn maybe_after<'a>(word: &[u8], bytes: &'a [u8]) -> Option<Field<'a, Option<u32>>>
    ensures { MatchOption result (after word.now Maybe bytes.now ≡ None) (λ f. after word.now Maybe bytes.now ≡ Some (got f.value f.rest.now)) }
{
    maybe(strip(word, bytes)?)
}

/// The kind after a word.
#[tactic(auto, unfolding(crate::specs::Fields::after))]
pub fn kind_after<'a>(word: &[u8], bytes: &'a [u8]) -> Option<Field<'a, Kind>>
    ensures { MatchOption result (after word.now OfKind bytes.now ≡ None) (λ f. after word.now OfKind bytes.now ≡ Some (got f.value f.rest.now)) }
{
    kind(strip(word, bytes)?)
}

/// The level after a word.
#[tactic(auto, unfolding(crate::specs::Fields::after))]
pub fn level_after<'a>(word: &[u8], bytes: &'a [u8]) -> Option<Field<'a, Level>>
    ensures { MatchOption result (after word.now OfLevel bytes.now ≡ None) (λ f. after word.now OfLevel bytes.now ≡ Some (got f.value f.rest.now)) }
{
    level(strip(word, bytes)?)
}

/// The bit after a word.
#[tactic(auto, unfolding(crate::specs::Fields::after))]
pub fn bit_after<'a>(word: &[u8], bytes: &'a [u8]) -> Option<Field<'a, bool>>
    ensures { MatchOption result (after word.now Bit bytes.now ≡ None) (λ f. after word.now Bit bytes.now ≡ Some (got f.value f.rest.now)) }
{
    bit(strip(word, bytes)?)
}

/// Whether `on` stands after a word.
#[tactic(auto, unfolding(crate::specs::Fields::after))]
pub fn switch_after<'a>(word: &[u8], bytes: &'a [u8]) -> Option<Field<'a, bool>>
    ensures { MatchOption result (after word.now Huge bytes.now ≡ None) (λ f. after word.now Huge bytes.now ≡ Some (got f.value f.rest.now)) }
{
    switch(strip(word, bytes)?)
}

/// The error after a word.
#[tactic(auto, unfolding(crate::specs::Fields::after))]
pub fn errno_after<'a>(word: &[u8], bytes: &'a [u8]) -> Option<Field<'a, Errno>>
    ensures { MatchOption result (after word.now OfErrno bytes.now ≡ None) (λ f. after word.now OfErrno bytes.now ≡ Some (got f.value f.rest.now)) }
{
    errno(strip(word, bytes)?)
}

/// The actor after a word.
#[tactic(auto, unfolding(crate::specs::Fields::after))]
pub fn actor_after<'a>(word: &[u8], bytes: &'a [u8]) -> Option<Field<'a, Actor>>
    ensures { MatchOption result (after word.now OfActor bytes.now ≡ None) (λ f. after word.now OfActor bytes.now ≡ Some (got f.value f.rest.now)) }
{
    actor(strip(word, bytes)?)
}

/// The address after a word.
#[tactic(auto, unfolding(crate::specs::Fields::after))]
pub fn address_after<'a>(word: &[u8], bytes: &'a [u8]) -> Option<Field<'a, Place>>
    ensures value { MatchOption result (after word.now Address bytes.now ≡ None) (λ f. after word.now Address bytes.now ≡ Some (got f.value f.rest.now)) }
    ensures bound { IfSome result (λ f. (f.value.page < PAGE_LIMIT) × (f.value.word < PAGE_WORDS)) }
{
    address(strip(word, bytes)?)
}

/// The span after a word.
#[tactic(auto, unfolding(crate::specs::Fields::after))]
pub fn span_after<'a>(word: &[u8], bytes: &'a [u8]) -> Option<Field<'a, Bounds>>
    ensures value { MatchOption result (after word.now OfSpan bytes.now ≡ None) (λ f. after word.now OfSpan bytes.now ≡ Some (got (record { lo = f.value.lo; hi = f.value.hi }) f.rest.now)) }
    ensures bound { IfSome result (λ f. (f.value.lo < f.value.hi) × (f.value.hi ≤ PAGE_LIMIT)) }
{
    span(strip(word, bytes)?)
}

/// A word without a field.
#[tactic(auto, unfolding(crate::specs::Fields::after))]
pub fn word<'a>(word: &[u8], bytes: &'a [u8]) -> Option<Field<'a, ()>>
    ensures { MatchOption result (after word.now Nothing bytes.now ≡ None) (λ f. after word.now Nothing bytes.now ≡ Some (got f.value f.rest.now)) }
{
    let rest = strip(word, bytes)?;
    Some(Field { value: (), rest })
}

/// The page of a number.
pub fn page_of(number: u64) -> Page
    requires { number < PAGE_LIMIT }
    ensures { result ≡ number }
{
    match Page::new(number) {
        Some(page) => page,
        None => unreachable!(),
    }
}

/// The span of these numbers.
pub fn span_of(bounds: Bounds) -> Span
    requires { (bounds.lo < bounds.hi) × (bounds.hi ≤ PAGE_LIMIT) }
    ensures { result ≡ record { lo = bounds.lo; hi = bounds.hi } }
{
    match Span::new(bounds.lo, bounds.hi) {
        Some(span) => span,
        None => unreachable!(),
    }
}
