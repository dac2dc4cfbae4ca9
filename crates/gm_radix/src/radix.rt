//! The map.

ghost use Rattle.std.specs.Prelude.{◌≡◌, ℕ, ◌+◌, ◌<◌, ◌≤◌, ◌++◌, [], length, IsTrue, IsSome, None, ◌↔◌, OnOk, OnErr, vec_len, vec_capacity};
ghost use Rattle.gm_base.specs.declared.numbers.TheConstants.{PAGE_LIMIT};
ghost use Rattle.gm_radix.specs.Entries.{lookup, put, within, without, count_within, Rises, IsFirstGap};

use crate::inserting::insert;
use crate::node::Node;
use crate::tree;
use gm_base::{NoMemory, PAGE_LIMIT};
use slab::Slab;
use std::alloc::Global;
use std::marker::Model;

/// A map from indexes below 2^52 to values. It keeps memory for a number of inserts, which then need none.
#[derive(Drop)]
pub struct Radix<V> {
    nodes: Slab<Node<V>>,
    root: Option<usize>,
    spare: usize,
}

impl<V> Model for Radix<V> {
    ghost use Rattle.slab.specs.Slab.{slab_len};
    ghost use Rattle.gm_radix.specs.Entries.{Indexed, indexed_code};

    ghost Value = { Indexed V };

    ghost coded = { indexed_code V.code };

    ghost use Rattle.gm_radix.specs.Nodes.{entries_of, IsKept};

    ghost view = { λ r. record { entries = entries_of r.nodes.slots r.root; spare = r.spare } };

    ghost invariant = { λ r. IsKept r.nodes.slots r.root (slab_len r.nodes) r.nodes.capacity r.spare };
}

impl<V: Copy> Radix<V> {
    /// No entry, and no memory kept.
    pub fn new(alloc: Global) -> Radix<V>
        ensures entries { result.entries ≡ [] }
        ensures spare { result.spare ≡ 0 }
    {
        Radix {
            nodes: Slab::new(alloc),
            root: None,
            spare: 0,
        }
    }

    /// Keeps memory for at least this many inserts.
    pub fn reserve(&mut self, inserts: u32) -> Result<(), NoMemory>
        ensures entries { self.new.entries ≡ self.old.entries }
        ensures room { OnOk result (inserts ≤ self.new.spare) }
        ensures not_less { self.old.spare ≤ self.new.spare }
        ensures err { OnErr result (self.new ≡ self.old) }
    {
        let inserts = inserts as usize;
        if self.spare < inserts {
            self.nodes.reserve(2 * inserts)?;
            self.spare = inserts;
        }
        Ok(())
    }

    /// The value at the index.
    pub fn get(&self, index: u64) -> Option<V>
        ensures value { result ≡ lookup index self.now.entries }
        ensures rises { Rises 0 PAGE_LIMIT self.now.entries }
    {
        tree::get(&self.nodes, self.root?, index)
    }

    /// Puts the value at the index, in the place of the one that was there. It takes no memory but what is kept.
    pub fn insert(&mut self, index: u64, value: V)
        requires limit { index < PAGE_LIMIT }
        requires room { 0 < self.old.spare }
        ensures entries { self.new.entries ≡ put index value self.old.entries }
        ensures spare { self.old.spare ≤ self.new.spare + 1 }
    {
        match self.get(index) {
            Some(_) => self.insert_counted(index, value, 0),
            None => self.insert_counted(index, value, 1),
        }
    }

    /// Puts a value at an index that has none, which needn't be looked for then. It takes no memory but what is kept.
    pub fn insert_new(&mut self, index: u64, value: V)
        requires limit { index < PAGE_LIMIT }
        requires free { lookup index self.old.entries ≡ None }
        requires room { 0 < self.old.spare }
        ensures entries { self.new.entries ≡ put index value self.old.entries }
        ensures spare { self.old.spare ≤ self.new.spare + 1 }
    {
        self.insert_counted(index, value, 1);
    }

    // Puts the value at the index, by which so many entries are added.
    fn insert_counted(&mut self, index: u64, value: V, added: u64)
        requires limit { index < PAGE_LIMIT }
        requires room { 0 < self.old.spare }
        requires added { length (put index value self.old.entries) ≡ length self.old.entries + added }
        ensures entries { self.new.entries ≡ put index value self.old.entries }
        ensures spare { self.old.spare ≤ self.new.spare + 1 }
    {
        match self.root {
            Some(key) => insert(&mut self.nodes, key, index, value, added),
            None => self.root = Some(self.nodes.insert_reserved(Node::Leaf(index, value))),
        }
        self.spare -= 1;
    }

    /// Takes the entries away whose index is at least `lo` and below `hi`, and answers how many they were.
    pub fn discard(&mut self, lo: u64, hi: u64) -> u64
        ensures entries { self.new.entries ≡ without lo hi self.old.entries }
        ensures count { result + length self.new.entries ≡ length self.old.entries }
        ensures spare { self.new.spare ≡ self.old.spare }
    {
        if hi <= lo {
            return 0;
        }
        let Some(key) = self.root else {
            return 0;
        };
        let rest = tree::discard_any(&mut self.nodes, key, lo, hi);
        self.root = rest.key;
        rest.gone
    }

    /// Moves the entries whose index is at least `lo` and below `hi` to the end of a list that has room for them, in
    /// order.
    pub fn drain(&mut self, lo: u64, hi: u64, out: &mut Vec<(u64, V)>)
        requires { vec_len out.old + length (within lo hi self.old.entries) ≤ vec_capacity out.old }
        ensures entries { self.new.entries ≡ without lo hi self.old.entries }
        ensures taken { out.new.items ≡ out.old.items ++ within lo hi self.old.entries }
        ensures len { vec_len out.new ≡ vec_len out.old + length (within lo hi self.old.entries) }
        ensures capacity { vec_capacity out.old ≤ vec_capacity out.new }
        ensures spare { self.new.spare ≡ self.old.spare }
    {
        if hi <= lo {
            return;
        }
        if let Some(key) = self.root {
            tree::collect(&self.nodes, key, 0, PAGE_LIMIT, lo, hi, out);
            self.root = tree::discard(&mut self.nodes, key, 0, PAGE_LIMIT, lo, hi).key;
        }
    }

    /// How many entries have an index that is at least `lo` and below `hi`. It visits at most two nodes at each depth,
    /// whatever their number is.
    pub fn count_in(&self, lo: u64, hi: u64) -> u64
        ensures { result ≡ count_within lo hi self.now.entries }
    {
        if hi <= lo {
            return 0;
        }
        match self.root {
            Some(key) => tree::count_in(&self.nodes, key, lo, hi),
            None => 0,
        }
    }

    /// Whether an index that is at least `lo` and below `hi` has a value.
    pub fn has_any(&self, lo: u64, hi: u64) -> bool
        ensures { IsTrue result ↔ ((k : ℕ) × (lo ≤ k) × (k < hi) × IsSome (lookup k self.now.entries)) }
    {
        self.count_in(lo, hi) > 0
    }

    /// Whether each index that is at least `lo` and below `hi` has a value.
    pub fn has_all(&self, lo: u64, hi: u64) -> bool
        ensures { IsTrue result ↔ ((k : ℕ) → lo ≤ k → k < hi → IsSome (lookup k self.now.entries)) }
    {
        // The nodes are named for the proof alone: by their invariant no index past the limit has a value.
        let _ = &self.nodes;
        hi <= lo || lo < PAGE_LIMIT && hi <= self.first_gap(lo)
    }

    /// The first index from this one on that has no value. At most 2^52. Like `count_in` it costs the depth of the tree.
    pub fn first_gap(&self, index: u64) -> u64
        requires { index ≤ PAGE_LIMIT }
        ensures gap { IsFirstGap self.now.entries index result }
        ensures limit { result ≤ PAGE_LIMIT }
    {
        match self.root {
            Some(key) => tree::first_gap(&self.nodes, key, index),
            None => index,
        }
    }
}
