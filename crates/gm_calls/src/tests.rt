use super::*;
use gm_attr::Attrs;
use gm_base::{Errno, Ioctl, Kind, SLOT_IDS, Setup, Span};
use gm_flat::{Effect, Spans};
use gm_slots::Slots;
use gm_words::Bank;
use std::alloc::Global;
use std::test::Fail;

fn crosses_threads<T: Send + Sync>() {}

#[test]
fn values_cross_threads() {
    crosses_threads::<Call>();
    crosses_threads::<Judged>();
    crosses_threads::<LockSet>();
}

/// What a call comes to, with its spans, where there is no slot, no file and no private page.
fn at_the_start(alloc: Global, ioctl: &Ioctl) -> Option<(Judged, Spans)> {
    let slots = Slots::new(alloc).ok()?;
    let attrs = Attrs::new(alloc).ok()?;
    let user = Bank::new(alloc, 4).ok()?;
    let mut spans = Spans::new(alloc, SLOT_IDS).ok()?;
    let parts = Parts {
        slots: &slots,
        files: &[],
        attrs: &attrs,
        user: &user,
        setup: Setup {
            frames: 1,
            user: 4,
            vcpus: 1,
            callers: 1,
            huge: false,
        },
    };
    let judged = judge(&parts, ioctl, &mut spans);
    Some((judged, spans))
}

#[test]
fn calls_at_the_start(rt: HostRuntime) -> Result<(), Fail> {
    let made = Effect::File {
        file: 0,
        pages: 2,
        block: false,
    };
    let written = Effect::Word {
        page: 1,
        word: 1,
        value: 7,
    };
    for (ioctl, wanted) in [
        (
            Ioctl::Create {
                size: 8192,
                flags: 0,
            },
            Judged::Short(made, 0),
        ),
        (
            Ioctl::Create { size: 1, flags: 0 },
            Judged::Refused(Errno::Inval),
        ),
        (Ioctl::Close { fd: 0 }, Judged::Refused(Errno::BadF)),
        (
            Ioctl::Poke {
                address: 4104,
                value: 7,
            },
            Judged::Short(written, 0),
        ),
        (Ioctl::Peek { address: 4104 }, Judged::Same(0)),
    ] {
        let (judged, spans) = at_the_start(rt.alloc(), &ioctl).ok_or("memory")?;
        assert_eq!(rt; judged, wanted);
        assert_eq!(rt; spans.list().len(), 0);
    }
    Ok(())
}

#[test]
fn a_conversion_has_its_span(rt: HostRuntime) -> Result<(), Fail> {
    let ioctl = Ioctl::Attrs {
        address: 4096,
        size: 8192,
        attributes: 8,
        flags: 0,
    };
    let span = Span::new(1, 3).ok_or("span")?;
    let (judged, spans) = at_the_start(rt.alloc(), &ioctl).ok_or("memory")?;
    assert_eq!(rt;
        judged,
        Judged::Bracket(Effect::Attr {
            span,
            kind: Kind::Private
        })
    );
    assert_eq!(rt; spans.list(), [span].as_slice());
    Ok(())
}
