//! The table.

ghost use Rattle.std.specs.Prelude.{◌≡◌, ℕ, IfOk, ◌+◌, ◌*◌, ◌/◌, ◌<◌, ◌≤◌, [], ◌∷◌, length, Some, if◌then◌else◌, OnOk, OnErr};
ghost use Rattle.gm_base.specs.Leaf.{covers};
ghost use Rattle.gm_base.specs.declared.numbers.TheConstants.{BLOCK_PAGES};
ghost use Rattle.gm_radix.specs.Entries.{lookup, without};
ghost use Rattle.gm_table.specs.Kept.{leaves_of, covering, IsKept};
ghost use Rattle.gm_table.specs.Leaves.{apart_from, extent_of, installed, leaf_over, unless_met, LieApart, IsInstallable};

use gm_base::{BLOCK_PAGES, Leaf, Level, NoMemory, Page, Span};
use gm_radix::Radix;
use std::alloc::Global;
use std::marker::Model;

/// Leaves that don't meet, and memory for a number of installs.
#[derive(Drop)]
pub struct Table {
    leaves: Radix<Leaf>,
}

impl Model for Table {
    ghost use Rattle.gm_table.specs.Leaves.{Mapped};
    ghost use Rattle.gm_table.specs.Kept.{leaves_of, IsKept};

    ghost Value = { Mapped };

    ghost view = { λ t. record { leaves = leaves_of t.leaves.entries; spare = t.leaves.spare } };

    ghost invariant = { λ t. IsKept 0 t.leaves.entries };
}

impl Table {
    /// No leaf, and no memory kept.
    pub fn new(alloc: Global) -> Result<Table, NoMemory>
        ensures leaves { IfOk result (λ table. table.leaves ≡ []) }
    {
        Ok(Table {
            leaves: Radix::new(alloc),
        })
    }

    /// Keeps memory for at least one install.
    pub fn reserve(&mut self) -> Result<(), NoMemory>
        ensures leaves { self.new.leaves ≡ self.old.leaves }
        ensures room { OnOk result (1 ≤ self.new.spare) }
        ensures not_less { self.old.spare ≤ self.new.spare }
        ensures err { OnErr result (self.new ≡ self.old) }
    {
        self.leaves.reserve(1)
    }

    /// The leaf over the page.
    pub fn walk(&self, page: Page) -> Option<Leaf>
        ensures leaf { result ≡ leaf_over self.now.leaves page }
        ensures apart { LieApart 0 self.now.leaves }
    {
        let page = page.number();
        match leaf_at(&self.leaves, page, page) {
            Some(leaf) => Some(leaf),
            None => leaf_at(&self.leaves, block_start(page), page),
        }
    }

    /// Takes the leaves away that the leaf meets, and adds the leaf. It takes no memory but what is kept.
    pub fn install(&mut self, leaf: Leaf)
        requires room { 1 ≤ self.old.spare }
        requires leaf { IsInstallable leaf }
        ensures leaves { self.new.leaves ≡ installed leaf self.old.leaves }
        ensures over { (page : ℕ) → leaf_over self.new.leaves page ≡ (if covers leaf page then Some leaf else unless_met (extent_of leaf) (leaf_over self.old.leaves page)) }
        ensures spare { self.old.spare ≤ self.new.spare + 1 }
    {
        let end = leaf.first + leaf.level.pages();
        let from = first_met(&self.leaves, leaf.first);
        self.leaves.discard(from, end);
        self.leaves.insert_new(leaf.first, leaf);
    }

    /// Takes the leaves away that meet the span, and answers how many they were.
    pub fn zap(&mut self, span: Span) -> u64
        ensures leaves { self.new.leaves ≡ apart_from span self.old.leaves }
        ensures over { (page : ℕ) → leaf_over self.new.leaves page ≡ unless_met span (leaf_over self.old.leaves page) }
        ensures count { result + length self.new.leaves ≡ length self.old.leaves }
        ensures spare { self.new.spare ≡ self.old.spare }
    {
        let from = first_met(&self.leaves, span.lo());
        self.leaves.discard(from, span.hi())
    }
}

// The first page of the block that holds the page.
fn block_start(page: u64) -> u64
    ensures { result ≡ BLOCK_PAGES * (page / BLOCK_PAGES) }
{
    BLOCK_PAGES * (page / BLOCK_PAGES)
}

// The leaf under this page's number, where it covers the second page.
fn leaf_at(leaves: &Radix<Leaf>, first: u64, page: u64) -> Option<Leaf>
    ensures { result ≡ covering page (lookup first leaves.now.entries) }
{
    let leaf = leaves.get(first)?;
    if leaf.covers(page) { Some(leaf) } else { None }
}

// Where the leaves begin that meet a span from the page on: at the block over the page, where there is one, and else
// at the page.
fn first_met(leaves: &Radix<Leaf>, page: u64) -> u64
    requires { IsKept 0 leaves.now.entries }
    ensures low { result ≤ page }
    ensures leaves { (hi : ℕ) → leaves_of (without result hi leaves.now.entries) ≡ apart_from (record { lo = page; hi = hi }) (leaves_of leaves.now.entries) }
{
    let first = block_start(page);
    match leaf_at(leaves, first, page) {
        Some(_) => first,
        None => page,
    }
}
