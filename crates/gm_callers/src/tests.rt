ghost use Rattle.std.specs.Prelude.{◌≡◌, IfOk, length};

use super::*;
use gm_base::{Ioctl, Kind, NoMemory, Span};
use gm_calls::{Call, Judged, LockSet};
use gm_flat::{Effect, Spans};
use std::alloc::Global;
use std::test::Fail;

fn crosses_threads<T: Send + Sync>() {}

#[test]
fn callers_cross_threads() {
    crosses_threads::<Callers>();
    crosses_threads::<InProgress>();
}

/// The lock of slots and attributes.
fn slots_lock() -> LockSet {
    LockSet {
        slots: true,
        first: None,
        second: None,
    }
}

/// A conversion to private of the pages of a span.
fn conversion(span: Span) -> Call {
    let ioctl = Ioctl::Attrs {
        address: 4096,
        size: 4096,
        attributes: 8,
        flags: 0,
    };
    Call {
        ioctl,
        locks: slots_lock(),
        judged: Judged::Bracket(Effect::Attr {
            span,
            kind: Kind::Private,
        }),
        done: None,
        pages: 0,
        answered: false,
    }
}

/// Two callers, of which the first has begun a conversion, and its spans.
fn converting(alloc: Global, span: Span) -> Result<(Callers, Spans), NoMemory>
    ensures { IfOk result (λ p. length p.0 ≡ 2) }
{
    let mut callers = Callers::new(alloc, 2)?;
    callers.reserve(alloc, 0)?;
    let mut spans = callers.take_spans(0);
    spans.push(span)?;
    callers.judge(0, conversion(span), Some(spans));
    callers.reserve(alloc, 0)?;
    let begun = callers.begin(0, 1);
    Ok((callers, begun))
}

#[test]
fn a_conversion_keeps_others_from_its_lock(rt: HostRuntime) -> Result<(), Fail> {
    let span = Span::new(1, 2).ok_or("span")?;
    let (callers, spans) = converting(rt.alloc(), span).ok().ok_or("memory")?;
    assert_eq!(rt; spans.list(), [span].as_slice());
    assert_eq!(rt; callers.count(), 2);
    assert_eq!(rt; callers.ended(0), 0);
    assert_eq!(rt; callers.holder(1, &slots_lock()), Some(0));
    assert_eq!(rt; callers.holder(0, &slots_lock()), None);
    let of_a_file = LockSet {
        slots: false,
        first: Some(3),
        second: None,
    };
    assert_eq!(rt; callers.holder(1, &of_a_file), None);
    Ok(())
}

#[test]
fn spans_given_back_are_emptied(rt: HostRuntime) -> Result<(), Fail> {
    let span = Span::new(1, 2).ok_or("span")?;
    let mut callers = Callers::new(rt.alloc(), 1).ok().ok_or("memory")?;
    callers.reserve(rt.alloc(), 0).ok().ok_or("memory")?;
    let mut spans = callers.take_spans(0);
    spans.push(span).ok().ok_or("memory")?;
    callers.give_back(spans);
    callers.reserve(rt.alloc(), 0).ok().ok_or("memory")?;
    assert_eq!(rt; callers.take_spans(0).list().len(), 0);
    Ok(())
}
