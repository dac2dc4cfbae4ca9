use super::*;
use gm_base::{Access, Actor, Folio, Ioctl, Kind, Level, Op, Page, Region, Setup, Span};
use std::test::Fail;

fn crosses_threads<T: Send + Sync>() {}

#[test]
fn values_cross_threads() {
    crosses_threads::<Entry>();
    crosses_threads::<Flat>();
    crosses_threads::<Sighting>();
    crosses_threads::<Spans>();
}

#[test]
fn spans_take_memory_where_none_is_spare(rt: HostRuntime) -> Result<(), Fail> {
    let mut spans = Spans::new(rt.alloc(), 0).ok().ok_or("memory")?;
    let span = Span::new(0, 1).ok_or("a span")?;
    spans.push(span).ok().ok_or("memory")?;
    assert_eq!(rt; spans.list(), [span].as_slice());
    assert_eq!(rt; spans.clone()?.list(), [span].as_slice());
    Ok(())
}

#[test]
fn spans_are_emptied(rt: HostRuntime) -> Result<(), Fail> {
    let mut spans = Spans::new(rt.alloc(), 1).ok().ok_or("memory")?;
    let span = Span::new(0, 1).ok_or("a span")?;
    spans.push(span).ok().ok_or("memory")?;
    spans.renew(2).ok().ok_or("memory")?;
    assert_eq!(rt; spans.list().len(), 0);
    spans.push(span).ok().ok_or("memory")?;
    assert_eq!(rt; spans.list(), [span].as_slice());
    Ok(())
}

fn page(number: u64) -> Result<Page, Fail> {
    Ok(Page::new(number).ok_or("a page")?)
}

// A replay of a machine of one vCPU and one caller.
fn new_replay(rt: HostRuntime) -> Result<Flat, Fail> {
    let setup = Setup {
        frames: 1024,
        user: 1024,
        vcpus: 1,
        callers: 1,
        huge: true,
    };
    Ok(Flat::new(rt.alloc(), setup).ok().ok_or("memory")?)
}

fn play(flat: &mut Flat, actor: Actor, what: What) -> Result<(), Fail> {
    let entry = Entry {
        turn: 1,
        actor,
        what,
    };
    flat.play(&entry).ok().ok_or("memory")?;
    Ok(())
}

fn change(flat: &mut Flat, effect: Effect) -> Result<(), Fail> {
    play(flat, Actor::Caller(0), What::Change { effect })
}

// A slot of id 0, from page 0 on.
fn slot(pages: u64, user: u64, flags: u32, file: Option<u32>) -> Effect {
    Effect::Slot {
        slot: 0,
        base: 0,
        pages,
        user,
        flags,
        file,
        index: 0,
    }
}

#[test]
fn a_shared_page_is_named_by_its_slot(rt: HostRuntime) -> Result<(), Fail> {
    let mut flat = new_replay(rt)?;
    let call = Ioctl::Region2(Region {
        slot: 0,
        flags: 0,
        gpa: 0,
        size: 16384,
        user: 0,
        fd: 0,
        offset: 0,
    });
    play(&mut flat, Actor::Caller(0), What::Judge { call })?;
    change(&mut flat, slot(4, 0, 0, None))?;
    let reply = Reply::Good(0);
    play(&mut flat, Actor::Caller(0), What::Answer { reply })?;
    assert_eq!(rt;
        flat.named(page(0)?),
        Some((Kind::Shared, Backing::User(0), true))
    );
    assert_eq!(rt; flat.named(page(4)?), None);

    // The slot added last lies over the others, and nobody may write to this one.
    change(&mut flat, slot(2, u64::MAX - 1, 2, None))?;
    assert_eq!(rt;
        flat.named(page(1)?),
        Some((Kind::Shared, Backing::User(u64::MAX), false))
    );
    change(&mut flat, Effect::Move { slot: 0, base: 8 })?;
    assert_eq!(rt;
        flat.named(page(1)?),
        Some((Kind::Shared, Backing::User(1), true))
    );
    change(&mut flat, Effect::NoSlot { slot: 0 })?;
    assert_eq!(rt; flat.named(page(8)?), None);
    Ok(())
}

// A fault on a private page up to its Get, which adds `fresh` folios.
fn fault(flat: &mut Flat, number: u64, at: u64, folio: Folio, fresh: u16) -> Result<(), Fail> {
    let vcpu = Actor::Vcpu(0);
    let access = Access::new(page(number)?, 0, Op::Read, Kind::Private);
    play(flat, vcpu, What::Miss { access })?;
    let look = What::Look {
        at,
        slot: Some(0),
        attr: Kind::Private,
        file: Some(0),
    };
    play(flat, vcpu, look)?;
    let backing = Backing::Folio(folio);
    play(flat, vcpu, What::Get { backing, fresh })
}

#[test]
fn a_private_page_is_named_by_its_folio(rt: HostRuntime) -> Result<(), Fail> {
    let mut flat = new_replay(rt)?;
    let pages = 1024;
    change(
        &mut flat,
        Effect::File {
            file: 0,
            pages,
            block: true,
        },
    )?;
    change(&mut flat, slot(pages, 0, 4, Some(0)))?;
    let span = Span::new(0, pages).ok_or("a span")?;
    let kind = Kind::Private;
    change(&mut flat, Effect::Attr { span, kind })?;
    assert_eq!(rt; flat.named(page(3)?), None);

    // One folio, then a block that is named by the numbers of its first.
    let folio = Folio {
        serial: 0,
        frame: 5,
    };
    fault(&mut flat, 3, 4, folio, 1)?;
    let one = Some((kind, Backing::Folio(folio), true));
    assert_eq!(rt; flat.named(page(3)?), one);
    let got = Folio {
        serial: 11,
        frame: 522,
    };
    fault(&mut flat, 522, 7, got, 512)?;
    let last = Folio {
        serial: 512,
        frame: 1023,
    };
    let block = Some((kind, Backing::Folio(last), true));
    assert_eq!(rt; flat.named(page(1023)?), block);
    let (file, lo, hi) = (0, 3, 513);
    change(&mut flat, Effect::Cut { file, lo, hi })?;
    assert_eq!(rt; flat.named(page(3)?), None);
    assert_eq!(rt; flat.named(page(512)?), None);
    assert_eq!(rt; flat.named(page(1023)?), block);
    change(&mut flat, Effect::Shut { file })?;
    assert_eq!(rt; flat.named(page(1023)?), None);
    Ok(())
}

#[test]
fn a_call_adds_the_pages_of_its_file(rt: HostRuntime) -> Result<(), Fail> {
    let mut flat = new_replay(rt)?;
    change(
        &mut flat,
        Effect::File {
            file: 0,
            pages: 8,
            block: false,
        },
    )?;
    change(&mut flat, slot(8, 0, 4, Some(0)))?;
    let span = Span::new(0, 8).ok_or("a span")?;
    let kind = Kind::Private;
    change(&mut flat, Effect::Attr { span, kind })?;
    let caller = Actor::Caller(0);
    let call = Ioctl::Populate {
        gpa: 8192,
        pages: 2,
        user: 0,
    };
    play(&mut flat, caller, What::Judge { call })?;
    let folio = Folio {
        serial: 0,
        frame: 9,
    };
    let page_at = |index| What::Page {
        index,
        folio,
        pages: 1,
    };
    play(&mut flat, caller, page_at(1))?;
    play(&mut flat, caller, page_at(2))?;
    assert_eq!(rt; flat.named(page(1)?), None);
    assert_eq!(rt;
        flat.named(page(2)?),
        Some((kind, Backing::Folio(folio), true))
    );
    Ok(())
}
