//! The callers.

ghost use Rattle.std.specs.Prelude.{◌≡◌, ◌+◌, ◌<◌, ◌≤◌, ◌^◌, ℕ, [], IfNone, IfOk, IfSome, IsSome, OnErr, OnOk, length, replicate, slice_set, true, false, None};
ghost use Rattle.gm_base.specs.declared.numbers.TheConstants.{SLOT_IDS};
ghost use Rattle.gm_callers.specs.Callers.{HasSpans, answered, begun, caller_at, judging, leaving, no_caller, or_empty, paged, pages_in, request_in, spans_in, stepped, without_room};
ghost use Rattle.gm_callers.specs.Holding.{is_holder};
ghost use Rattle.gm_callers.specs.Rooming.{IsEmptyOrRoomy, IsRoomy, reserved};

use crate::caller::{Caller, InProgress};
use crate::holding::least_holder;
use crate::rooming::make_room;
use gm_base::{NoMemory, Span};
use gm_calls::{Call, LockSet, Step};
use gm_flat::Spans;
use std::alloc::Global;
use std::marker::Model;

/// The callers by number.
#[derive(Drop)]
pub struct Callers {
    list: Vec<Caller>,
    // The memory of spans that a judgement left unused, for a later one.
    spare: Option<Spans>,
}

impl Model for Callers {
    ghost use Rattle.std.specs.Prelude.{List};
    ghost use Rattle.gm_callers.specs.declared.caller.Caller.{Caller};

    ghost Value = { List Caller };

    ghost view = { λ cs. cs.list.items };
}

impl Callers {
    /// This many callers, none of which has begun a call.
    pub fn new(alloc: Global, count: u32) -> Result<Callers, NoMemory>
        ensures { IfOk result (λ callers. callers ≡ replicate count no_caller) }
    {
        let mut list = Vec::new(alloc);
        for k in 0..count {
            list.push(Caller {
                ended: 0,
                call: None,
                spans: None,
                gone: false,
            })?;
        }
        Ok(Callers { list, spare: None })
    }

    /// How many there are.
    pub fn count(&self) -> usize
        ensures { result ≡ length self.now }
    {
        self.list.len()
    }

    /// The caller's call in progress.
    pub fn call(&self, c: u32) -> &Option<InProgress>
        requires { c < length self.now }
        ensures { result.now ≡ (caller_at self.now c).call }
    {
        &self.list[c as usize].call
    }

    /// How many commands the caller has ended.
    pub fn ended(&self, c: u32) -> u64
        requires { c < length self.now }
        ensures { result ≡ (caller_at self.now c).ended }
    {
        self.list[c as usize].ended
    }

    /// Whether the caller has written `gone`.
    pub fn is_gone(&self, c: u32) -> bool
        requires { c < length self.now }
        ensures { result ≡ (caller_at self.now c).gone }
    {
        self.list[c as usize].gone
    }

    /// The spans of the caller's call.
    pub fn spans(&self, c: u32) -> &[Span]
        requires actor { c < length self.now }
        requires spans { HasSpans (caller_at self.now c).call }
        ensures { result.now ≡ (spans_in (caller_at self.now c).call).list }
    {
        match &self.list[c as usize].call {
            Some(x) => match &x.spans {
                Some(spans) => spans.list(),
                None => unreachable!(),
            },
            None => unreachable!(),
        }
    }

    /// The number of the request to flush of the caller's bracket.
    pub fn request(&self, c: u32) -> u64
        requires actor { c < length self.now }
        requires open { IsSome (caller_at self.now c).call }
        ensures { result ≡ request_in (caller_at self.now c).call }
    {
        match &self.list[c as usize].call {
            Some(x) => x.request,
            None => unreachable!(),
        }
    }

    /// The least other caller whose call in progress has a lock in common with these.
    pub fn holder(&self, c: u32, locks: &LockSet) -> Option<u32>
        requires { length self.now < 2 ^ 32 }
        ensures some { IfSome result (λ other. is_holder self.now c locks.now other ≡ true) }
        ensures least { IfSome result (λ other. (k : ℕ) → k < other → is_holder self.now c locks.now k ≡ false) }
        ensures none { IfNone result ((k : ℕ) → is_holder self.now c locks.now k ≡ false) }
    {
        least_holder(&self.list, c, locks)
    }

    /// Makes room for the caller's next turn. Where no call is in progress it has spans for the judgement of its next
    /// call; where a bracket hasn't begun, its spans keep no spare memory. Nothing else changes.
    pub fn reserve(&mut self, alloc: Global, c: u32) -> Result<(), NoMemory>
        requires actor { c < length self.old }
        requires fit { IsEmptyOrRoomy (caller_at self.old c).spans }
        ensures ok { OnOk result (self.new ≡ slice_set self.old c (reserved (caller_at self.old c))) }
        ensures room { OnOk result ((caller_at self.old c).call ≡ None → IsRoomy (caller_at self.new c).spans) }
        ensures err { OnErr result (self.new ≡ self.old) }
    {
        make_room(alloc, &mut self.list[c as usize], &mut self.spare)
    }

    /// The spans for the judgement of the caller's next call.
    pub fn take_spans(&mut self, c: u32) -> Spans
        requires actor { c < length self.old }
        requires room { IsRoomy (caller_at self.old c).spans }
        ensures callers { self.new ≡ slice_set self.old c (without_room (caller_at self.old c)) }
        ensures spans { result ≡ or_empty (caller_at self.old c).spans }
        ensures empty { result.list ≡ [] }
        ensures spare { SLOT_IDS ≤ result.spare }
    {
        match self.list[c as usize].spans.take() {
            Some(spans) => spans,
            None => unreachable!(),
        }
    }

    /// Takes back spans that no call keeps: their memory serves a later judgement. No caller changes.
    pub fn give_back(&mut self, spans: Spans)
        ensures { self.new ≡ self.old }
    {
        self.spare = Some(spans);
    }

    /// The caller's call is in progress.
    pub fn judge(&mut self, c: u32, call: Call, spans: Option<Spans>)
        requires { c < length self.old }
        ensures { self.new ≡ slice_set self.old c (judging (caller_at self.old c) call spans) }
    {
        self.list[c as usize].call = Some(InProgress {
            call,
            spans,
            request: 0,
        });
    }

    /// The spans of the caller's call, whose bracket begins under this number.
    pub fn begin(&mut self, c: u32, request: u64) -> Spans
        requires actor { c < length self.old }
        requires spans { HasSpans (caller_at self.old c).call }
        ensures callers { self.new ≡ slice_set self.old c (begun (caller_at self.old c) request) }
        ensures spans { result ≡ spans_in (caller_at self.old c).call }
    {
        match &mut self.list[c as usize].call {
            Some(x) => {
                x.call.done = Some(Step::Begin);
                x.request = request;
                match x.spans.take() {
                    Some(spans) => spans,
                    None => unreachable!(),
                }
            }
            None => unreachable!(),
        }
    }

    /// The caller's call has done a step.
    pub fn step(&mut self, c: u32, step: Step)
        requires actor { c < length self.old }
        requires open { IsSome (caller_at self.old c).call }
        ensures { self.new ≡ slice_set self.old c (stepped (caller_at self.old c) step) }
    {
        match &mut self.list[c as usize].call {
            Some(x) => x.call.done = Some(step),
            None => unreachable!(),
        }
    }

    /// The caller's call has added one page more.
    pub fn page(&mut self, c: u32)
        requires actor { c < length self.old }
        requires open { IsSome (caller_at self.old c).call }
        requires bound { pages_in (caller_at self.old c).call + 1 < 2 ^ 64 }
        ensures { self.new ≡ slice_set self.old c (paged (caller_at self.old c)) }
    {
        match &mut self.list[c as usize].call {
            Some(x) => {
                x.call.pages += 1;
                x.call.done = Some(Step::PageStep);
            }
            None => unreachable!(),
        }
    }

    /// The caller's call is answered.
    pub fn answer(&mut self, c: u32)
        requires actor { c < length self.old }
        requires bound { (caller_at self.old c).ended + 1 < 2 ^ 64 }
        ensures { self.new ≡ slice_set self.old c (answered (caller_at self.old c)) }
    {
        let caller = &mut self.list[c as usize];
        caller.call = None;
        caller.ended += 1;
    }

    /// The caller has written `gone`.
    pub fn leave(&mut self, c: u32)
        requires { c < length self.old }
        ensures { self.new ≡ slice_set self.old c (leaving (caller_at self.old c)) }
    {
        self.list[c as usize].gone = true;
    }
}
