//! The turns of a call that adds pages.

ghost use Rattle.std.specs.Prelude.{◌≡◌, ℕ, ◌+◌, ◌<◌, None, Some, false, length};
ghost use Rattle.gm_base.specs.declared.numbers.TheConstants.{PAGE_LIMIT};
ghost use Rattle.gm_base.specs.declared.values.Actor.TheVariants.{Caller};
ghost use Rattle.gm_base.specs.declared.values.Kind.TheVariants.{Private};
ghost use Rattle.gm_calls.specs.Judgements.{pages_of};
ghost use Rattle.gm_calls.specs.declared.judged.PagePlan.{PagePlan};
ghost use Rattle.gm_callers.specs.Callers.{caller_at, pages_in};
ghost use Rattle.gm_callers.specs.Stand.{AddsPages};
ghost use Rattle.gm_flat.specs.Attribute.{attr_of};
ghost use Rattle.gm_flat.specs.FlatState.{cached};
ghost use Rattle.gm_flat.specs.Replay.{flat};
ghost use Rattle.gm_flat.specs.RightCalls.{PagesEnd, Stops, part_done};
ghost use Rattle.gm_flat.specs.RightLives.{IsFirstOpen};
ghost use Rattle.gm_turns.specs.Populating.{IsPopulating};
ghost use Rattle.gm_turns.specs.Ready.{IsReady, Settled, Turned};

use crate::note::note;
use crate::parts::Core;
use gm_base::{Actor, Errno, Kind, Page};
use gm_calls::{Judged, PagePlan};
use gm_flat::{Reply, What};

/// A run of pages of the caller's call is added, or the call is answered.
pub fn page_turn(core: &mut Core, c: u32)
    requires ready { IsReady core.old (Caller c) }
    requires adds { (q : PagePlan) × AddsPages q (caller_at core.old.callers c).call }
    ensures { Turned core.old core.new (Caller c) false }
{
    let plan = plan_of(core, c);
    match plan.base {
        Some(base) => match plan.copy {
            Some(from) => populate(core, c, plan, base, from),
            None => unreachable!(),
        },
        None => allocate(core, c, plan),
    }
}

// The pages that the caller's call adds.
fn plan_of(core: &Core, c: u32) -> PagePlan
    requires actor { c < length core.now.callers }
    requires adds { (q : PagePlan) × AddsPages q (caller_at core.now.callers c).call }
    ensures { AddsPages result (caller_at core.now.callers c).call }
{
    match core.callers.call(c) {
        Some(x) => match x.call.judged {
            Judged::Pages(plan) => plan,
            _ => unreachable!(),
        },
        None => unreachable!(),
    }
}

// How many runs of pages the caller's call has added.
fn pages_so_far(core: &Core, c: u32) -> u64
    requires { c < length core.now.callers }
    ensures { result ≡ pages_in (caller_at core.now.callers c).call }
{
    match core.callers.call(c) {
        Some(x) => x.call.pages,
        None => 0,
    }
}

// An allocation: the first index of the range that isn't cached gets its folio, or the block of it.
fn allocate(core: &mut Core, c: u32, plan: PagePlan)
    requires ready { IsReady core.old (Caller c) }
    requires adds { AddsPages plan (caller_at core.old.callers c).call }
    requires allocates { plan.base ≡ None }
    ensures { Turned core.old core.new (Caller c) false }
{
    let end = plan.index + plan.pages;
    match core.state.next_free(plan.file, plan.index, end) {
        Some(index) => allocate_at(core, c, plan, index),
        None => answer_pages(core, c, Reply::Good(0)),
    }
}

// A first use of the index, which nobody holds.
fn allocate_at(core: &mut Core, c: u32, plan: PagePlan, index: u64)
    requires ready { IsReady core.old (Caller c) }
    requires adds { AddsPages plan (caller_at core.old.callers c).call }
    requires allocates { plan.base ≡ None }
    requires first { IsFirstOpen (pages_of plan) index (flat core.old.log.past) }
    ensures { Turned core.old core.new (Caller c) false }
{
    match core.state.add_first(plan.file, index) {
        Some(used) => {
            core.callers.page(c);
            note(
                core,
                Actor::Caller(c),
                What::Page {
                    index: used.index,
                    folio: used.first,
                    pages: used.pages,
                },
            );
        }
        None => answer_pages(core, c, Reply::Bad(Errno::NoMem)),
    }
}

// A population: its next page is copied, or it ends.
fn populate(core: &mut Core, c: u32, plan: PagePlan, base: u64, from: u64)
    requires ready { IsReady core.old (Caller c) }
    requires adds { AddsPages plan (caller_at core.old.callers c).call }
    requires populates { plan.base ≡ Some base }
    requires copies { plan.copy ≡ Some from }
    ensures { Turned core.old core.new (Caller c) false }
{
    let pages = pages_so_far(core, c);
    if pages == plan.pages {
        answer_pages(core, c, Reply::Good(pages));
    } else {
        populate_next(core, c, plan, base, from, pages);
    }
}

// The next page of a population, where nothing is cached at its index.
fn populate_next(core: &mut Core, c: u32, plan: PagePlan, base: u64, from: u64, pages: u64)
    requires ready { IsReady core.old (Caller c) }
    requires at { IsPopulating core.old c plan base from pages }
    ensures { Turned core.old core.new (Caller c) false }
{
    match core.state.cached(plan.file, plan.index + pages) {
        Some(_) => stop(core, c, plan, base, from, pages, Errno::Exist),
        None => populate_open(core, c, plan, base, from, pages),
    }
}

// The same, where its guest page is private.
fn populate_open(core: &mut Core, c: u32, plan: PagePlan, base: u64, from: u64, pages: u64)
    requires ready { IsReady core.old (Caller c) }
    requires at { IsPopulating core.old c plan base from pages }
    requires open { cached plan.file (plan.index + pages) (flat core.old.log.past).cache ≡ None }
    ensures { Turned core.old core.new (Caller c) false }
{
    match kind_of(core, base + pages) {
        Kind::Shared => stop(core, c, plan, base, from, pages, Errno::Inval),
        Kind::Private => copy_page(core, c, plan, base, from, pages),
    }
}

// The attribute of a guest page.
fn kind_of(core: &Core, page: u64) -> Kind
    requires settled { Settled core.now }
    requires small { page < PAGE_LIMIT }
    ensures { result ≡ attr_of page (flat core.now.log.past).attrs }
{
    match Page::new(page) {
        Some(page) => core.state.kind(page),
        None => unreachable!(),
    }
}

// Its words are copied into a new folio, where a frame is free.
fn copy_page(core: &mut Core, c: u32, plan: PagePlan, base: u64, from: u64, pages: u64)
    requires ready { IsReady core.old (Caller c) }
    requires at { IsPopulating core.old c plan base from pages }
    requires open { cached plan.file (plan.index + pages) (flat core.old.log.past).cache ≡ None }
    requires is_private { attr_of (base + pages) (flat core.old.log.past).attrs ≡ Private }
    ensures { Turned core.old core.new (Caller c) false }
{
    let index = plan.index + pages;
    match core.state.add_copy(plan.file, index, from + pages) {
        Some(folio) => {
            core.callers.page(c);
            note(
                core,
                Actor::Caller(c),
                What::Page {
                    index,
                    folio,
                    pages: 1,
                },
            );
        }
        None => stop(core, c, plan, base, from, pages, Errno::NoMem),
    }
}

// A population ends before its last page.
fn stop(core: &mut Core, c: u32, plan: PagePlan, base: u64, from: u64, pages: u64, errno: Errno)
    requires ready { IsReady core.old (Caller c) }
    requires at { IsPopulating core.old c plan base from pages }
    requires stops { Stops core.old.setup.frames errno (pages_of plan) base pages (flat core.old.log.past) }
    ensures { Turned core.old core.new (Caller c) false }
{
    answer_pages(core, c, part_done(pages, errno));
}

// The number of pages added where that isn't 0, and the error where it is.
fn part_done(pages: u64, errno: Errno) -> Reply
    ensures { result ≡ part_done pages errno }
{
    if pages == 0 {
        Reply::Bad(errno)
    } else {
        Reply::Good(pages)
    }
}

/// The pages of the caller's call end, and the call is answered.
pub fn answer_pages(core: &mut Core, c: u32, reply: Reply)
    requires ready { IsReady core.old (Caller c) }
    requires ends { (q : PagePlan) × AddsPages q (caller_at core.old.callers c).call × PagesEnd core.old.setup.frames reply (pages_of q) q.base (pages_in (caller_at core.old.callers c).call) (flat core.old.log.past) }
    ensures { Turned core.old core.new (Caller c) false }
{
    core.callers.answer(c);
    note(core, Actor::Caller(c), What::Answer { reply });
}
