//! The memory unit.

ghost use Rattle.std.specs.Prelude.{◌≡◌, ℕ, Some, if◌then◌else◌, ◌+◌, ◌-◌, ◌<◌, ◌≤◌, ◌^◌, ◌∷◌, [], ◌||◌, None, not, nat_eq, false, true, take, length, replicate, slice_set, IfOk, OnOk, OnErr, MatchOption};
ghost use Rattle.gm_base.specs.Leaf.{covers};
ghost use Rattle.gm_base.specs.declared.numbers.TheConstants.{BUFFER_FILLS, COUNTER_LIMIT};
ghost use Rattle.gm_inval.specs.Range.{begun, open_range, range_holds, range_meets, widen_all};
ghost use Rattle.gm_table.specs.Leaves.{extent_of, installed, leaf_over, unless_met, IsInstallable};
ghost use Rattle.gm_tlb.specs.Requests.{outside, seat_of, with_seat, has_pending, IsDoneByAll, IsLeastWaiting};
ghost use Rattle.gm_mmu.specs.Served.{fills_of, apart_from_all, unless_one_met, served, walked};

use gm_base::{Access, Leaf, NoMemory, Page, Span};
use gm_inval::Inval;
use gm_table::Table;
use gm_tlb::{Fill, Ring, Tlb};
use std::alloc::Global;
use std::marker::Model;

/// The leaves, the buffers of the vCPUs, the requests to flush them, and the invalidations in progress. vCPUs are
/// numbered from 0.
#[derive(Drop)]
pub struct Mmu {
    table: Table,
    buffers: Vec<Tlb>,
    ring: Ring,
    inval: Inval,
}

impl Model for Mmu {
    ghost use Rattle.std.specs.Prelude.{◌≡◌, length};
    ghost use Rattle.gm_mmu.specs.Served.{Serving};

    ghost Value = { Serving };

    ghost view = { λ m. record {
      leaves = m.table.leaves;
      spare = m.table.spare;
      fills = m.buffers.items;
      requests = m.ring;
      progress = m.inval;
    } };

    ghost invariant = { λ m. length m.buffers.items ≡ length m.ring.seats };
}

impl Mmu {
    /// No leaf, no fill and no request; this many vCPUs, all outside; nothing in progress.
    pub fn new(alloc: Global, vcpus: u32) -> Result<Mmu, NoMemory>
        ensures leaves { IfOk result (λ mmu. mmu.leaves ≡ []) }
        ensures fills { IfOk result (λ mmu. mmu.fills ≡ replicate vcpus []) }
        ensures requests { IfOk result (λ mmu. mmu.requests ≡ record { asked = 0; seats = replicate vcpus outside }) }
        ensures progress { IfOk result (λ mmu. mmu.progress ≡ record { seq = 0; count = 0; kept = None }) }
    {
        Ok(Mmu {
            table: Table::new(alloc)?,
            buffers: empty_buffers(alloc, vcpus)?,
            ring: Ring::new(alloc, vcpus)?,
            inval: Inval::new(),
        })
    }

    /// Keeps memory for at least one install.
    pub fn reserve(&mut self) -> Result<(), NoMemory>
        ensures same { self.new ≡ record self.old { spare = self.new.spare } }
        ensures room { OnOk result (1 ≤ self.new.spare) }
        ensures not_less { self.old.spare ≤ self.new.spare }
        ensures err { OnErr result (self.new ≡ self.old) }
    {
        self.table.reserve()
    }

    /// Begins a bracket over the spans: the leaves that meet one go, the range is widened, and every vCPU is asked to
    /// flush. The answer is the request's number.
    pub fn begin(&mut self, spans: &[Span]) -> u64
        requires count { self.old.progress.count < 2 ^ 32 - 1 }
        requires asked { self.old.requests.asked < COUNTER_LIMIT }
        ensures number { result ≡ self.old.requests.asked + 1 }
        ensures leaves { self.new.leaves ≡ apart_from_all spans.now self.old.leaves }
        ensures over { (page : ℕ) → leaf_over self.new.leaves page ≡ unless_one_met spans.now (leaf_over self.old.leaves page) }
        ensures progress { self.new.progress ≡ begun self.old.progress spans.now }
        ensures requests { self.new.requests ≡ record { asked = self.old.requests.asked + 1; seats = self.old.requests.seats } }
        ensures fills { self.new.fills ≡ self.old.fills }
        ensures spare { self.new.spare ≡ self.old.spare }
    {
        zap_all(&mut self.table, spans);
        self.inval.begin(spans);
        self.ring.ask()
    }

    /// Ends a bracket.
    pub fn end(&mut self)
        requires in_progress { 0 < self.old.progress.count }
        requires room { self.old.progress.seq < COUNTER_LIMIT }
        ensures { self.new ≡ record self.old { progress = record { seq = self.old.progress.seq + 1; count = self.old.progress.count - 1; kept = self.old.progress.kept } } }
    {
        self.inval.end();
    }

    /// The vCPU goes inside. It has done all requests.
    pub fn enter(&mut self, v: u32)
        requires seat { v < length self.old.fills }
        requires nothing_pending { has_pending self.old.requests v ≡ false }
        ensures { self.new ≡ record self.old { requests = with_seat self.old.requests v (record { inside = true; done = (seat_of self.old.requests v).done }) } }
    {
        self.ring.enter(v);
    }

    /// The vCPU goes outside.
    pub fn leave(&mut self, v: u32)
        requires { v < length self.old.fills }
        ensures { self.new ≡ record self.old { requests = with_seat self.old.requests v (record { inside = false; done = (seat_of self.old.requests v).done }) } }
    {
        self.ring.leave(v);
    }

    /// The vCPU's fills go, and it has done all requests.
    pub fn flush(&mut self, v: u32)
        requires { v < length self.old.fills }
        ensures fills { self.new.fills ≡ slice_set self.old.fills v [] }
        ensures requests { self.new.requests ≡ with_seat self.old.requests v (record { inside = (seat_of self.old.requests v).inside; done = self.old.requests.asked }) }
        ensures rest { self.new ≡ record self.old { fills = self.new.fills; requests = self.new.requests } }
    {
        let buffer = &mut self.buffers[v as usize];
        buffer.flush();
        self.ring.done(v);
    }

    /// Whether the vCPU hasn't done all requests.
    pub fn pending(&self, v: u32) -> bool
        requires { v < length self.now.fills }
        ensures { result ≡ has_pending self.now.requests v }
    {
        self.ring.pending(v)
    }

    /// Whether the vCPU is inside the guest.
    pub fn inside(&self, v: u32) -> bool
        requires { v < length self.now.fills }
        ensures { result ≡ (seat_of self.now.requests v).inside }
    {
        self.ring.inside(v)
    }

    /// The least vCPU that is inside and hasn't done this request. None exactly where there is none.
    pub fn all_in(&self, r: u64) -> Option<u32>
        ensures { MatchOption result (IsDoneByAll self.now.requests r) (IsLeastWaiting self.now.requests r) }
    {
        self.ring.all_in(r)
    }

    /// What serves the access of the vCPU: the latest of its fills that does, else the leaf that does, at this
    /// position. None exactly where neither does.
    pub fn serve(&self, v: u32, access: &Access, at: u64) -> Option<Fill>
        requires { v < length self.now.fills }
        ensures { result ≡ served self.now v access.now at }
    {
        let buffer = &self.buffers[v as usize];
        match buffer.hit(access) {
            Some(fill) => Some(fill),
            None => walk(&self.table, access, at),
        }
    }

    /// Adds a fill of the vCPU. Its oldest goes where 256 are held.
    pub fn fill(&mut self, v: u32, fill: Fill)
        requires { v < length self.old.fills }
        ensures { self.new ≡ record self.old { fills = slice_set self.old.fills v (take BUFFER_FILLS (fill ∷ fills_of self.old v)) } }
    {
        let buffer = &mut self.buffers[v as usize];
        buffer.fill(fill);
    }

    /// Takes the leaves away that the leaf meets, and adds the leaf. It takes no memory but what is kept.
    pub fn install(&mut self, leaf: Leaf)
        requires room { 1 ≤ self.old.spare }
        requires leaf { IsInstallable leaf }
        ensures leaves { self.new.leaves ≡ installed leaf self.old.leaves }
        ensures over { (page : ℕ) → leaf_over self.new.leaves page ≡ (if covers leaf page then Some leaf else unless_met (extent_of leaf) (leaf_over self.old.leaves page)) }
        ensures spare { self.old.spare ≤ self.new.spare + 1 }
        ensures rest { self.new ≡ record self.old { leaves = self.new.leaves; spare = self.new.spare } }
    {
        self.table.install(leaf);
    }

    /// How many brackets ended.
    pub fn seq(&self) -> u64
        ensures { result ≡ self.now.progress.seq }
    {
        self.inval.seq()
    }

    /// How many brackets are in progress.
    pub fn count(&self) -> u32
        ensures { result ≡ self.now.progress.count }
    {
        self.inval.count()
    }

    /// The range of the brackets in progress. None where there is none in progress, or where they have no span.
    pub fn hull(&self) -> Option<Span>
        ensures { result ≡ open_range self.now.progress }
    {
        self.inval.hull()
    }

    /// The range that would be kept if a bracket over the spans began now.
    pub fn hull_with(&self, spans: &[Span]) -> Option<Span>
        ensures { result ≡ widen_all (open_range self.now.progress) spans.now }
    {
        self.inval.hull_with(spans)
    }

    /// Whether what was looked up for the page when the sequence was `sampled` may have changed since.
    pub fn stale(&self, sampled: u64, page: Page) -> bool
        ensures { result ≡ (range_holds (open_range self.now.progress) page || not (nat_eq self.now.progress.seq sampled)) }
    {
        self.inval.stale(sampled, page)
    }

    /// Whether the range of the brackets in progress meets the span.
    pub fn meets(&self, span: Span) -> bool
        ensures { result ≡ range_meets (open_range self.now.progress) span }
    {
        self.inval.meets(span)
    }
}

// Empty buffers for this many vCPUs.
fn empty_buffers(alloc: Global, vcpus: u32) -> Result<Vec<Tlb>, NoMemory>
    ensures { IfOk result (λ buffers. buffers.items ≡ replicate vcpus []) }
{
    let mut buffers = Vec::with_capacity(alloc, vcpus as usize)?;
    for _made in 0..vcpus {
        buffers.push(Tlb::new(alloc)?)?;
    }
    Ok(buffers)
}

// The leaves that meet one of the spans go.
#[tactic(auto, using(crate::proofs::Spans::zapping))]
fn zap_all(table: &mut Table, spans: &[Span])
    ensures leaves { table.new.leaves ≡ apart_from_all spans.now table.old.leaves }
    ensures over { (page : ℕ) → leaf_over table.new.leaves page ≡ unless_one_met spans.now (leaf_over table.old.leaves page) }
    ensures spare { table.new.spare ≡ table.old.spare }
{
    for span in spans {
        table.zap(*span);
    }
}

// The fill of the leaf over the access's page, where it serves the access.
fn walk(table: &Table, access: &Access, at: u64) -> Option<Fill>
    ensures { result ≡ walked (leaf_over table.now.leaves access.now.page) access.now at }
{
    let leaf = table.walk(access.page())?;
    if leaf.serves(*access) {
        Some(Fill { leaf, at })
    } else {
        None
    }
}
