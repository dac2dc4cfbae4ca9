ghost use Rattle.std.specs.Prelude.{◌≡◌, [], IfOk};

use super::*;
use crate::slots::ShownSlots;
use gm_base::{Kind, Page, SLOT_IDS, Span};
use gm_flat::{Effect, Looked, Sampled, SlotView};
use std::sync::Wait;
use std::test::Fail;

fn crosses_threads<T: Send>() {}

#[test]
fn values_cross_threads() {
    crosses_threads::<Publisher>();
    crosses_threads::<Doors>();
    crosses_threads::<Door>();
    crosses_threads::<Spies>();
    crosses_threads::<Spy>();
}

const SLOT: SlotView = SlotView {
    id: 3,
    base: 4,
    pages: 8,
    user: 64,
    flags: 4,
    file: Some(5),
    index: 16,
    invalid: false,
};

const MADE: Effect = Effect::Slot {
    slot: 3,
    base: 4,
    pages: 8,
    user: 64,
    flags: 4,
    file: Some(5),
    index: 16,
};

// What a change does, and what page 7 has after it.
#[derive(Drop)]
struct Step {
    effect: Option<Effect>,
    slot: Option<SlotView>,
    attr: Kind,
}

// Notes and publishes a change, where there is room for it and its position isn't below the last view's.
fn show<R: Wait>(rt: &R, publisher: &mut Publisher, change: Change) -> bool
    requires { publisher.old.waiting ≡ [] }
    ensures { publisher.new.waiting ≡ [] }
{
    if publisher.room() == 0 || change.position < publisher.position() {
        return false;
    }
    if publisher.append(change).is_err() {
        return false;
    }
    publisher.publish(rt);
    true
}

// Publishes each step and looks. It returns the first step that wasn't seen.
fn first_unseen<R: Wait>(
    rt: &R,
    publisher: &mut Publisher,
    door: &mut Door,
    page: Page,
    steps: &[Step],
) -> Option<usize>
    requires { publisher.old.waiting ≡ [] }
    ensures { publisher.new.waiting ≡ [] }
{
    for (number, step) in steps.iter().enumerate() {
        let view = publisher.last().saturating_add(1);
        let at = publisher.position().saturating_add(10);
        let change = Change {
            position: at,
            seq: view,
            count: 1,
            hull: None,
            effect: step.effect,
        };
        let wanted = Glimpse {
            view,
            at,
            seq: view,
            slot: step.slot,
            attr: step.attr,
        };
        if !show(rt, publisher, change) || door.enter(page) != Some(wanted) {
            return Some(number);
        }
    }
    None
}

// What a door sees before the steps and when the publisher is gone, which step wasn't seen, the last view's number and the
// room that is left.
#[derive(Clone, Copy, Debug, PartialEq, Eq)]
struct Seen {
    first: Option<Glimpse>,
    unseen: Option<usize>,
    last: u64,
    room: u32,
    late: Option<Glimpse>,
    refused: u64,
}

fn seen_by_a_door<R: Wait>(
    rt: &R,
    mut publisher: Publisher,
    page: Page,
    steps: &[Step],
) -> Option<Seen>
    requires { publisher.waiting ≡ [] }
{
    let mut doors = publisher.doors();
    let Some(mut door) = doors.open() else {
        publisher.take(rt);
        return None;
    };
    let first = door.enter(page);
    let unseen = first_unseen(rt, &mut publisher, &mut door, page, steps);
    let last = publisher.last();
    let room = publisher.room();
    publisher.take(rt);
    let late = door.enter(page);
    Some(Seen {
        first,
        unseen,
        last,
        room,
        late,
        refused: door.refused(),
    })
}

fn step_of(effect: Effect, slot: Option<SlotView>, attr: Kind) -> Step {
    Step {
        effect: Some(effect),
        slot,
        attr,
    }
}

// A slot with a file is made over page 7, which becomes private; the slot is marked and moves; its file is shut, the page
// becomes shared again, and the slot goes.
fn steps_over(span: Span) -> [Step; 7] {
    let marked = SlotView {
        invalid: true,
        ..SLOT
    };
    let moved = SlotView { base: 6, ..SLOT };
    let shut = SlotView {
        file: None,
        ..moved
    };
    let private = Effect::Attr {
        span,
        kind: Kind::Private,
    };
    let shared = Effect::Attr {
        span,
        kind: Kind::Shared,
    };
    [
        step_of(MADE, Some(SLOT), Kind::Shared),
        step_of(private, Some(SLOT), Kind::Private),
        step_of(Effect::Mark { slot: 3 }, Some(marked), Kind::Private),
        step_of(
            Effect::Move { slot: 3, base: 6 },
            Some(moved),
            Kind::Private,
        ),
        step_of(Effect::Shut { file: 5 }, Some(shut), Kind::Private),
        step_of(shared, Some(shut), Kind::Shared),
        step_of(Effect::NoSlot { slot: 3 }, None, Kind::Shared),
    ]
}

#[test]
fn a_door_sees_each_view(rt: HostRuntime) -> Result<(), Fail> {
    let page = Page::new(7).ok_or("a page")?;
    let steps = steps_over(Span::new(6, 9).ok_or("a span")?);
    let publisher = Publisher::new(rt.alloc(), 7, 2).ok().ok_or("memory")?;
    let seen = seen_by_a_door(&rt, publisher, page, &steps).ok_or("a door")?;
    let first = Glimpse {
        view: 0,
        at: 0,
        seq: 0,
        slot: None,
        attr: Kind::Shared,
    };
    assert_eq!(rt; seen.first, Some(first));
    assert_eq!(rt; seen.unseen, None);
    assert_eq!(rt; (seen.last, seen.room), (7, 0));
    assert_eq!(rt; (seen.late, seen.refused), (None, 1));
    Ok(())
}

// What a spy answers before it is told, after it was told, after one more view, and when the publisher is gone.
#[derive(Clone, Copy, Debug, PartialEq, Eq)]
struct Told {
    twice: bool,
    early: Option<Sampled>,
    sampled: Option<Sampled>,
    looked: Option<Looked>,
    late: Option<Sampled>,
    refused: u64,
}

fn change(position: u64, seq: u64, effect: Option<Effect>) -> Change {
    Change {
        position,
        seq,
        count: 0,
        hull: None,
        effect,
    }
}

fn answers_of_a_spy<R: Wait>(rt: &R, mut publisher: Publisher, page: Page) -> Option<Told>
    requires { publisher.waiting ≡ [] }
{
    let mut spies = Spies::new(publisher.doors(), 2);
    let Some(mut spy) = spies.take(1) else {
        publisher.take(rt);
        return None;
    };
    let twice = spies.take(1).is_some();
    show(rt, &mut publisher, change(10, 1, None));
    let asked_at = spy.told_at();
    let early = spy.sample(asked_at);
    spy.learn(&mut publisher, 12);
    let asked_at = spy.told_at();
    let sampled = spy.sample(asked_at);
    show(rt, &mut publisher, change(20, 1, Some(MADE)));
    let asked_at = spy.told_at();
    let looked = spy.look(asked_at, page);
    publisher.take(rt);
    let asked_at = spy.told_at();
    let late = spy.sample(asked_at);
    Some(Told {
        twice,
        early,
        sampled,
        looked,
        late,
        refused: spy.refused(),
    })
}

#[test]
fn a_spy_is_told(rt: HostRuntime) -> Result<(), Fail> {
    let page = Page::new(11).ok_or("a page")?;
    let publisher = Publisher::new(rt.alloc(), 2, 2).ok().ok_or("memory")?;
    let told = answers_of_a_spy(&rt, publisher, page).ok_or("a spy")?;
    let looked = Looked {
        at: 20,
        slot: Some(SLOT),
        attr: Kind::Shared,
    };
    assert_eq!(rt; told.early, Some(Sampled { at: 10, seq: 1 }));
    assert_eq!(rt; told.sampled, Some(Sampled { at: 12, seq: 1 }));
    assert_eq!(rt; told.looked, Some(looked));
    assert_eq!(rt; (told.twice, told.late, told.refused), (false, None, 1));
    Ok(())
}

// A slot that is made, of user pages from 0 on and without a file.
fn made(slot: u32, base: u64, pages: u64) -> Effect {
    Effect::Slot {
        slot,
        base,
        pages,
        user: 0,
        flags: 0,
        file: None,
        index: 0,
    }
}

// The id of the slot over a page.
fn id_over(slots: &ShownSlots, page: u64) -> Option<u32> {
    let page = Page::new(page)?;
    slots.find(page).map(|slot| slot.id)
}

#[test]
fn slots_stay_apart(rt: HostRuntime) -> Result<(), Fail> {
    let mut slots = ShownSlots::new(rt.alloc()).ok().ok_or("memory")?;
    slots.follow(&made(3, 4, 2));
    // Its id is taken, it meets another, it has no page, no id or no end.
    slots.follow(&made(3, 8, 1));
    slots.follow(&made(4, 3, 2));
    slots.follow(&made(5, 8, 0));
    slots.follow(&made(SLOT_IDS, 8, 1));
    slots.follow(&made(6, u64::MAX, 2));
    assert_eq!(rt;
        (id_over(&slots, 5), id_over(&slots, 3), id_over(&slots, 8)),
        (Some(3), None, None)
    );
    slots.follow(&made(4, 0, 1));
    slots.follow(&Effect::Move { slot: 4, base: 5 });
    slots.follow(&Effect::Move { slot: 5, base: 9 });
    slots.follow(&Effect::Move {
        slot: 3,
        base: u64::MAX,
    });
    assert_eq!(rt;
        (id_over(&slots, 0), id_over(&slots, 9), id_over(&slots, 5)),
        (Some(4), None, Some(3))
    );
    slots.follow(&Effect::Move { slot: 4, base: 6 });
    // It moves over its own pages.
    slots.follow(&Effect::Move { slot: 3, base: 3 });
    assert_eq!(rt;
        (id_over(&slots, 6), id_over(&slots, 3), id_over(&slots, 5)),
        (Some(4), Some(3), None)
    );
    Ok(())
}
