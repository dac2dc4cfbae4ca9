use super::*;
use gm_base::{Access, Actor, Errno, Folio, Ioctl, Kind, Level, Op, Page, Region, Setup, Span};
use gm_flat::{Backing, Effect, Entry, Exit, Reply, Spans, What};
use gm_io::SureSink;
use std::alloc::Global;
use std::test::Fail;

const SETUP: Setup = Setup {
    frames: 512,
    user: 16,
    vcpus: 1,
    callers: 2,
    huge: true,
};

fn page(number: u64) -> Result<Page, Fail> {
    Ok(Page::new(number).ok_or("a page")?)
}

// The entries of one turn each, with the lines that they must have.
fn entries_of_vcpus(alloc: Global) -> Result<Vec<Entry>, Fail> {
    let read = Access::new(page(0)?, 0, Op::Read, Kind::Shared);
    let write = Access::new(page(2)?, 1, Op::Write(3), Kind::Private);
    let folio = Folio {
        serial: 7,
        frame: 2,
    };
    let whats = vec![in alloc;
        What::Enter,
        What::Flush,
        What::Miss { access: write },
        What::Sample { at: 5 },
        What::Look {
            at: 6,
            slot: Some(0),
            attr: Kind::Shared,
            file: None
        },
        What::Get {
            backing: Backing::User(8),
            fresh: 0
        },
        What::Get {
            backing: Backing::Folio(folio),
            fresh: 512
        },
        What::Install {
            page: page(256)?,
            level: Level::Block
        },
        What::Retry,
        What::Touch {
            access: read,
            backing: Backing::User(1),
            level: Level::Small,
            value: 9,
            fill: 10
        },
        What::Touch {
            access: write,
            backing: Backing::Folio(folio),
            level: Level::Block,
            value: 3,
            fill: 10
        },
        What::Left {
            why: Exit::Fault {
                flags: 8,
                gpa: 4096,
                size: 4096
            }
        },
        What::Left {
            why: Exit::Mmio { gpa: 8 }
        },
        What::Left { why: Exit::NoFrame },
        What::Free { folio, pages: 3 },
        What::Gone,
    ]?;
    let mut entries = Vec::new(alloc);
    for what in whats {
        entries.push(Entry {
            turn: 12,
            actor: Actor::Vcpu(3),
            what,
        })?;
    }
    Ok(entries)
}

const VCPU_LINES: &str = "12 v3 enter
12 v3 flush
12 v3 miss write private 8200 3
12 v3 sample at=5
12 v3 look at=6 slot=0 attr=shared file=-
12 v3 get user=8
12 v3 get serial=7 frame=2 fresh=512
12 v3 install page=256 level=2m
12 v3 retry
12 v3 touch read shared 0 user=1 level=4k value=9 fill=10
12 v3 touch write private 8200 3 serial=7 frame=2 level=2m value=3 fill=10
12 v3 exit reason=39 errno=14 flags=8 gpa=4096 size=4096
12 v3 exit reason=6 gpa=8
12 v3 exit errno=12
12 v3 free serial=7 frame=2 pages=3
12 v3 gone
";

#[test]
fn entries_of_vcpus_have_their_lines(rt: HostRuntime) -> Result<(), Fail> {
    let entries = entries_of_vcpus(rt.alloc())?;
    let mut sink = SureSink::new(rt.alloc(), 4096).ok().ok_or("memory")?;
    for entry in &entries {
        assert!(rt; write_entry(&mut sink, entry).is_ok());
    }
    assert_eq!(rt; sink.held(), VCPU_LINES.as_bytes());
    Ok(())
}

fn calls() -> [Ioctl; 9] {
    [
        Ioctl::Create {
            size: 8192,
            flags: 1,
        },
        Ioctl::Region2(Region {
            slot: 1,
            flags: 4,
            gpa: 2,
            size: 3,
            user: 4,
            fd: 5,
            offset: 6,
        }),
        Ioctl::Attrs {
            address: 1,
            size: 2,
            attributes: 8,
            flags: 3,
        },
        Ioctl::Punch {
            fd: 1,
            offset: 2,
            length: 3,
        },
        Ioctl::Allocate {
            fd: 1,
            offset: 2,
            length: 3,
        },
        Ioctl::Close { fd: 1 },
        Ioctl::Populate {
            gpa: 1,
            pages: 2,
            user: 3,
        },
        Ioctl::Poke {
            address: 1,
            value: 2,
        },
        Ioctl::Peek {
            address: 18446744073709551615,
        },
    ]
}

fn effects() -> Result<[Effect; 10], Fail> {
    let span = Span::new(3, 5).ok_or("a span")?;
    Ok([
        Effect::File {
            file: 0,
            pages: 3,
            block: false,
        },
        Effect::Slot {
            slot: 1,
            base: 2,
            pages: 3,
            user: 4,
            flags: 4,
            file: Some(5),
            index: 6,
        },
        Effect::Slot {
            slot: 1,
            base: 2,
            pages: 3,
            user: 4,
            flags: 2,
            file: None,
            index: 0,
        },
        Effect::Mark { slot: 1 },
        Effect::NoSlot { slot: 1 },
        Effect::Move { slot: 1, base: 2 },
        Effect::Attr {
            span,
            kind: Kind::Private,
        },
        Effect::Cut {
            file: 1,
            lo: 5,
            hi: 3,
        },
        Effect::Shut { file: 1 },
        Effect::Word {
            page: 1,
            word: 2,
            value: 3,
        },
    ])
}

fn entries_of_callers(alloc: Global) -> Result<Vec<Entry>, Fail> {
    let mut whats = Vec::new(alloc);
    for call in calls() {
        whats.push(What::Judge { call })?;
    }
    for effect in effects()? {
        whats.push(What::Change { effect })?;
    }
    let mut spans = Spans::new(alloc, 2).ok().ok_or("memory")?;
    for (lo, hi) in [(0, 1), (256, 4503599627370496)] {
        let span = Span::new(lo, hi).ok_or("a span")?;
        assert_pushed(&mut spans, span)?;
    }
    whats.push(What::Begin { spans })?;
    whats.push(What::Acked)?;
    let folio = Folio {
        serial: 7,
        frame: 2,
    };
    whats.push(What::Page {
        index: 9,
        folio,
        pages: 512,
    })?;
    whats.push(What::End)?;
    whats.push(What::Answer {
        reply: Reply::Good(4),
    })?;
    for errno in [
        Errno::NoEnt,
        Errno::BadF,
        Errno::NoMem,
        Errno::Fault,
        Errno::Exist,
        Errno::Inval,
    ] {
        whats.push(What::Answer {
            reply: Reply::Bad(errno),
        })?;
    }
    let mut entries = Vec::new(alloc);
    for what in whats {
        entries.push(Entry {
            turn: 1,
            actor: Actor::Caller(0),
            what,
        })?;
    }
    Ok(entries)
}

fn assert_pushed(spans: &mut Spans, span: Span) -> Result<(), Fail> {
    spans.push(span).ok().ok_or("memory")?;
    Ok(())
}

const CALLER_TEXT: &str = "gmem-history 2
machine frames=512 user=16 vcpus=1 callers=2 huge=on
1 c0 judge create 8192 1
1 c0 judge region 1 4 2 3 4 5 6
1 c0 judge attrs 1 2 8 3
1 c0 judge punch 1 2 3
1 c0 judge allocate 1 2 3
1 c0 judge close 1
1 c0 judge populate 1 2 3
1 c0 judge poke 1 2
1 c0 judge peek 18446744073709551615
1 c0 change file 0 pages=3 block=0
1 c0 change slot 1 base=2 pages=3 user=4 flags=4 file=5 index=6
1 c0 change slot 1 base=2 pages=3 user=4 flags=2 file=- index=0
1 c0 change mark 1
1 c0 change noslot 1
1 c0 change move 1 base=2
1 c0 change attr 3-5 private
1 c0 change cut 1 5-3
1 c0 change shut 1
1 c0 change word page=1 word=2 value=3
1 c0 begin 0-1 256-4503599627370496
1 c0 acked
1 c0 page index=9 serial=7 frame=2 pages=512
1 c0 end
1 c0 answer ok=4
1 c0 answer errno=2
1 c0 answer errno=9
1 c0 answer errno=12
1 c0 answer errno=14
1 c0 answer errno=17
1 c0 answer errno=22
end turns=30 entries=30
";

#[test]
fn a_history_of_callers_has_its_text(rt: HostRuntime) -> Result<(), Fail> {
    let entries = entries_of_callers(rt.alloc())?;
    let mut sink = SureSink::new(rt.alloc(), 4096).ok().ok_or("memory")?;
    assert!(rt; write_history(&mut sink, SETUP, &entries, 30).is_ok());
    assert_eq!(rt; sink.held(), CALLER_TEXT.as_bytes());
    Ok(())
}
