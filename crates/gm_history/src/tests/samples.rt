use gm_base::{Access, Errno, Folio, Ioctl, Kind, Level, Op, PAGE_LIMIT, Page, Region, Span};
use gm_flat::{Backing, Effect, Exit, Reply, Spans, What};
use std::alloc::Global;
use std::test::Fail;

pub fn vcpu_whats(
    alloc: Global,
    n: u64,
    small: u32,
    tiny: u16,
    pages: u16,
) -> Result<Vec<What>, Fail> {
    let page = Page::new(PAGE_LIMIT - 1).ok_or("a page")?;
    let write = Access::new(page, 511, Op::Write(n), Kind::Private);
    let read = Access::new(Page::new(0).ok_or("a page")?, 0, Op::Read, Kind::Shared);
    let folio = Folio {
        serial: n,
        frame: small,
    };
    let whats = vec![in alloc;
        What::Enter,
        What::Flush,
        What::Miss { access: read },
        What::Miss { access: write },
        What::Sample { at: n },
        What::Look {
            at: n,
            slot: Some(small),
            attr: Kind::Private,
            file: None
        },
        What::Look {
            at: n,
            slot: None,
            attr: Kind::Shared,
            file: Some(small)
        },
        What::Get {
            backing: Backing::User(n),
            fresh: 0
        },
        What::Get {
            backing: Backing::Folio(folio),
            fresh: tiny
        },
        What::Install {
            page,
            level: Level::Block
        },
        What::Retry,
        What::Touch {
            access: read,
            backing: Backing::User(n),
            level: Level::Small,
            value: n,
            fill: n
        },
        What::Touch {
            access: write,
            backing: Backing::Folio(folio),
            level: Level::Block,
            value: n,
            fill: n
        },
        What::Left {
            why: Exit::Fault {
                flags: n,
                gpa: n,
                size: 4096
            }
        },
        What::Left {
            why: Exit::Mmio { gpa: n }
        },
        What::Left { why: Exit::NoFrame },
        What::Page {
            index: n,
            folio,
            pages
        },
        What::Free {
            folio,
            pages: small
        },
        What::Acked,
        What::End,
        What::Answer {
            reply: Reply::Good(n)
        },
        What::Answer {
            reply: Reply::Bad(Errno::NoEnt)
        },
        What::Answer {
            reply: Reply::Bad(Errno::BadF)
        },
        What::Answer {
            reply: Reply::Bad(Errno::NoMem)
        },
        What::Answer {
            reply: Reply::Bad(Errno::Fault)
        },
        What::Answer {
            reply: Reply::Bad(Errno::Exist)
        },
        What::Answer {
            reply: Reply::Bad(Errno::Inval)
        },
        What::Gone,
    ]?;
    Ok(whats)
}

pub fn call_whats(alloc: Global, n: u64, small: u32) -> Result<Vec<What>, Fail> {
    let region = Region {
        slot: small,
        flags: small,
        gpa: n,
        size: n,
        user: n,
        fd: small,
        offset: n,
    };
    let whats = vec![in alloc;
        What::Judge {
            call: Ioctl::Create { size: n, flags: n }
        },
        What::Judge {
            call: Ioctl::Region2(region)
        },
        What::Judge {
            call: Ioctl::Attrs {
                address: n,
                size: n,
                attributes: n,
                flags: n
            }
        },
        What::Judge {
            call: Ioctl::Punch {
                fd: small,
                offset: n,
                length: n
            }
        },
        What::Judge {
            call: Ioctl::Allocate {
                fd: small,
                offset: n,
                length: n
            }
        },
        What::Judge {
            call: Ioctl::Close { fd: small }
        },
        What::Judge {
            call: Ioctl::Populate {
                gpa: n,
                pages: n,
                user: n
            }
        },
        What::Judge {
            call: Ioctl::Poke {
                address: n,
                value: n
            }
        },
        What::Judge {
            call: Ioctl::Peek { address: n }
        },
    ]?;
    Ok(whats)
}

pub fn effect_whats(alloc: Global, n: u64, small: u32, tiny: u16) -> Result<Vec<What>, Fail> {
    let span = Span::new(PAGE_LIMIT - 1, PAGE_LIMIT).ok_or("a span")?;
    let mut spans = Spans::new(alloc, 2).ok().ok_or("memory")?;
    spans
        .push(Span::new(0, 1).ok_or("a span")?)
        .ok()
        .ok_or("memory")?;
    spans.push(span).ok().ok_or("memory")?;
    let none = Spans::new(alloc, 0).ok().ok_or("memory")?;
    let whats = vec![in alloc;
        What::Change {
            effect: Effect::File {
                file: small,
                pages: n,
                block: true
            }
        },
        What::Change {
            effect: Effect::Slot {
                slot: small,
                base: n,
                pages: n,
                user: n,
                flags: small,
                file: Some(small),
                index: n
            }
        },
        What::Change {
            effect: Effect::Slot {
                slot: small,
                base: n,
                pages: n,
                user: n,
                flags: small,
                file: None,
                index: 0
            }
        },
        What::Change {
            effect: Effect::NoSlot { slot: small }
        },
        What::Change {
            effect: Effect::Move {
                slot: small,
                base: n
            }
        },
        What::Change {
            effect: Effect::Attr {
                span,
                kind: Kind::Private
            }
        },
        What::Change {
            effect: Effect::Cut {
                file: small,
                lo: n,
                hi: 0
            }
        },
        What::Change {
            effect: Effect::Shut { file: small }
        },
        What::Change {
            effect: Effect::Word {
                page: n,
                word: tiny,
                value: n
            }
        },
        What::Begin { spans },
        What::Begin { spans: none },
    ]?;
    Ok(whats)
}

pub fn mark(alloc: Global, small: u32) -> Result<Vec<What>, Fail> {
    let whats = vec![in alloc;
        What::Change {
            effect: Effect::Mark { slot: small }
        },
    ]?;
    Ok(whats)
}
