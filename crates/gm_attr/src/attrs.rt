//! Attributes.

ghost use Rattle.std.specs.Prelude.{◌≡◌, ℕ, ◌+◌, ◌-◌, ◌*◌, ◌<◌, ◌≤◌, ◌&&◌, ◌||◌, ◌∷◌, [], List, true, not, MatchBool, IfOk, IsOk, OnOk, OnErr, if◌then◌else◌};
ghost use Rattle.gm_base.specs.Extent.{holds};
ghost use Rattle.gm_base.specs.Values.{same_kind};
ghost use Rattle.gm_base.specs.declared.values.Kind.TheVariants.{Private};
ghost use Rattle.gm_flat.specs.Attribute.{attr_of};
ghost use Rattle.gm_flat.specs.Calls.{all_have};
ghost use Rattle.gm_flat.specs.FlatState.{AttrCall};
ghost use Rattle.gm_attr.specs.Kinds.{AllHave, IsMixed, IsUniform, SomeOther, Tells, blocks_in, is_tracked, kind_at, kind_if, lies_in};

use crate::blocks::{end_whole_block, first_block, first_whole_block, last_block};
use crate::flags::{add_blocks, renew_tracked};
use gm_base::{Kind, NoMemory, Page, Span};
use gm_radix::Radix;
use gm_ranges::RunMap;
use std::alloc::Global;
use std::marker::Model;

/// The attribute of each page below 2^52, which is that of the latest call of `set` whose span holds the page, and shared
/// where none does; and for each tracked block whether its pages have both kinds. It keeps memory for a number of calls and
/// of blocks.
#[derive(Drop)]
pub struct Attrs {
    // True where a page is private.
    runs: RunMap,
    tracked: Radix<()>,
    // Of the tracked blocks those whose pages differ.
    mixed: Radix<()>,
    call_spare: u32,
    block_spare: u32,
}

impl Model for Attrs {
    ghost use Rattle.std.specs.Prelude.{◌+◌, ◌*◌, ◌≤◌};
    ghost use Rattle.gm_attr.specs.Flags.{FlagsAre};
    ghost use Rattle.gm_attr.specs.Kinds.{AttrsView};

    ghost Value = { AttrsView };

    ghost view = { λ a. record { edges = a.runs.edges; tracked = a.tracked.entries; call_spare = a.call_spare; block_spare = a.block_spare } };

    // A call may make two blocks mixed, those that its ends cut.
    ghost invariant = { λ a. FlagsAre a.runs.edges a.tracked.entries a.mixed.entries × (a.call_spare ≤ a.runs.spare) × (a.block_spare ≤ a.tracked.spare) × (2 * a.call_spare + a.block_spare ≤ a.mixed.spare) };
}

impl Attrs {
    /// Every page is shared, no block is tracked, and no memory is kept. It is never refused.
    pub fn new(alloc: Global) -> Result<Attrs, NoMemory>
        ensures ok { IsOk result }
        ensures made { IfOk result (λ attrs. attrs ≡ record { edges = []; tracked = []; call_spare = 0; block_spare = 0 }) }
        ensures calls { IfOk result (λ attrs. Tells attrs []) }
    {
        let runs = RunMap::new(alloc)?;
        Ok(Attrs {
            runs,
            tracked: Radix::new(alloc),
            mixed: Radix::new(alloc),
            call_spare: 0,
            block_spare: 0,
        })
    }

    /// Keeps memory for at least `n` calls of `set`. `NoMemory` comes only where there is less yet, and always where twice
    /// `n` and the blocks that memory is kept for are 2^32 or more.
    pub fn reserve(&mut self, n: u32) -> Result<(), NoMemory>
        ensures same { self.new ≡ record self.old { call_spare = self.new.call_spare } }
        ensures room { OnOk result (n ≤ self.new.call_spare) }
        ensures not_less { self.old.call_spare ≤ self.new.call_spare }
        ensures enough { n ≤ self.old.call_spare → IsOk result }
        ensures err { OnErr result (self.new ≡ self.old) }
    {
        if self.call_spare < n {
            self.runs.reserve(n)?;
            self.mixed.reserve(inserts(n, self.block_spare)?)?;
            self.call_spare = n;
        }
        Ok(())
    }

    /// Gives the pages of a span a kind. It takes no memory. It costs the logarithm and the mixed blocks in the span.
    pub fn set(&mut self, span: Span, kind: Kind)
        requires { 0 < self.old.call_spare }

        // The list of calls gets this one.
        ensures calls { (calls : List AttrCall) → Tells self.old calls → Tells self.new (record { span = span; kind = kind } ∷ calls) }
        ensures pages { (page : ℕ) → kind_at self.new page ≡ (if holds span page then kind else kind_at self.old page) }
        ensures tracked { self.new.tracked ≡ self.old.tracked }
        ensures call_spare { self.new.call_spare + 1 ≡ self.old.call_spare }
        ensures block_spare { self.new.block_spare ≡ self.old.block_spare }
    {
        self.runs.set(span, is_private_kind(kind));
        self.mixed
            .discard(first_whole_block(span), end_whole_block(span));
        renew_tracked(
            &self.runs,
            &self.tracked,
            &mut self.mixed,
            first_block(span),
        );
        renew_tracked(&self.runs, &self.tracked, &mut self.mixed, last_block(span));
        self.call_spare -= 1;
    }

    /// Whether the page is private.
    pub fn is_private(&self, page: Page) -> bool
        ensures kind { kind_at self.now page ≡ kind_if result }
        ensures calls { (calls : List AttrCall) → Tells self.now calls → attr_of page calls ≡ kind_if result }
    {
        self.runs.get(page.number())
    }

    /// Whether every page of the span has the kind.
    pub fn same(&self, span: Span, kind: Kind) -> bool
        ensures exact { MatchBool result (AllHave (kind_at self.now) span kind) (SomeOther (kind_at self.now) span kind) }
        ensures calls { (calls : List AttrCall) → Tells self.now calls → result ≡ all_have kind span.lo (span.hi - span.lo) calls }
    {
        // A span has a page, and so only one of the two kinds.
        let _first = span.lo();
        match self.runs.all_same(span) {
            Some(value) => value == is_private_kind(kind),
            None => false,
        }
    }

    /// Keeps memory for tracking at least `n` more blocks. `NoMemory` comes only where there is less yet, and always where
    /// `n` and twice the calls that memory is kept for are 2^32 or more.
    pub fn reserve_blocks(&mut self, n: u32) -> Result<(), NoMemory>
        ensures same { self.new ≡ record self.old { block_spare = self.new.block_spare } }
        ensures room { OnOk result (n ≤ self.new.block_spare) }
        ensures not_less { self.old.block_spare ≤ self.new.block_spare }
        ensures enough { n ≤ self.old.block_spare → IsOk result }
        ensures err { OnErr result (self.new ≡ self.old) }
    {
        if self.block_spare < n {
            self.tracked.reserve(n)?;
            self.mixed.reserve(inserts(self.call_spare, n)?)?;
            self.block_spare = n;
        }
        Ok(())
    }

    /// Tracks the blocks that lie wholly in the span. It takes no memory but what is kept.
    pub fn track(&mut self, span: Span)
        requires { blocks_in span ≤ self.old.block_spare }
        ensures tracked { (block : ℕ) → is_tracked self.new block ≡ (lies_in span block || is_tracked self.old block) }
        ensures edges { self.new.edges ≡ self.old.edges }
        ensures call_spare { self.new.call_spare ≡ self.old.call_spare }
        ensures block_spare { self.new.block_spare + blocks_in span ≡ self.old.block_spare }
    {
        let first = first_whole_block(span);
        let end = end_whole_block(span);
        if first < end {
            add_blocks(&self.runs, &mut self.tracked, &mut self.mixed, first, end);
            self.block_spare -= (end - first) as u32;
        }
    }

    /// Tracks the blocks that lie wholly in the span no more. It takes no memory.
    pub fn untrack(&mut self, span: Span)
        ensures tracked { (block : ℕ) → is_tracked self.new block ≡ (not (lies_in span block) && is_tracked self.old block) }
        ensures edges { self.new.edges ≡ self.old.edges }
        ensures call_spare { self.new.call_spare ≡ self.old.call_spare }
        ensures block_spare { self.new.block_spare ≡ self.old.block_spare }
    {
        let first = first_whole_block(span);
        let end = end_whole_block(span);
        self.tracked.discard(first, end);
        self.mixed.discard(first, end);
    }

    /// Whether a tracked block has pages of both kinds. Block `n` has the pages from 512 n on and before 512 (n + 1).
    pub fn mixed(&self, block: u64) -> bool
        requires { is_tracked self.now block ≡ true }
        ensures exact { MatchBool result (IsMixed (kind_at self.now) block) (IsUniform (kind_at self.now) block) }
        ensures calls { (calls : List AttrCall) → Tells self.now calls → MatchBool result (IsMixed (λ page. attr_of page calls) block) (IsUniform (λ page. attr_of page calls) block) }
    {
        self.mixed.get(block).is_some()
    }
}

/// Whether the kind is private.
fn is_private_kind(kind: Kind) -> bool
    ensures private { result ≡ same_kind kind Private }
    ensures kind { kind_if result ≡ kind }
{
    matches!(kind, Kind::Private)
}

/// How often a block may become mixed by so many calls and so many tracked blocks. `NoMemory` where a `u32` can't say it.
fn inserts(calls: u32, blocks: u32) -> Result<u32, NoMemory>
    ensures { IfOk result (λ n. n ≡ 2 * calls + blocks) }
{
    let ends = calls.checked_mul(2).ok_or(NoMemory)?;
    ends.checked_add(blocks).ok_or(NoMemory)
}
