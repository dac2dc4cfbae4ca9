//! The tree, by the keys of its nodes.

ghost use Rattle.std.specs.Prelude.{◌≡◌, ℕ, ◌+◌, ◌<◌, ◌≤◌, ◌++◌, Some, length, vec_len, vec_capacity};
ghost use Rattle.slab.specs.Slab.{slab_len, Updates};
ghost use Rattle.gm_base.specs.declared.numbers.TheConstants.{PAGE_LIMIT};
ghost use Rattle.gm_radix.specs.Entries.{lookup, within, without, count_within, gap_from};
ghost use Rattle.gm_radix.specs.Nodes.{node_at, under, nodes_of, entries_of, Holds, HoldsRest, IsPart, IsRest, IsTree, Keeps};

use crate::node::{Node, Parts};
use gm_base::PAGE_LIMIT;
use slab::Slab;

/// The value at the index.
pub(crate) fn get<V: Copy>(nodes: &Slab<Node<V>>, key: usize, index: u64) -> Option<V>
    requires { IsTree nodes.now.slots key }
    ensures { result ≡ lookup index (under nodes.now.slots key) }
{
    let mut key = key;
    loop {
        match &nodes[key] {
            Node::Leaf(at, value) => return if *at == index { Some(*value) } else { None },
            Node::Fork(parts) => {
                key = if index < parts.block.pivot {
                    parts.left
                } else {
                    parts.right
                };
            }
        }
    }
}

/// Past the indexes from this one on that have values, one after another. A block that is full has no gap, and past the
/// first half of one the index is that of the second half's beginning, from where one way leads down.
pub(crate) fn first_gap<V: Copy>(nodes: &Slab<Node<V>>, key: usize, index: u64) -> u64
    requires tree { IsTree nodes.now.slots key }
    requires limit { index ≤ PAGE_LIMIT }
    ensures gap { result ≡ gap_from index (under nodes.now.slots key) }
    ensures limit { result ≤ PAGE_LIMIT }
{
    match &nodes[key] {
        Node::Leaf(at, _) => if *at == index { index + 1 } else { index },
        Node::Fork(parts) => {
            let block = parts.block;
            if index < block.first || block.end <= index {
                return index;
            }
            if parts.count == block.end - block.first {
                return block.end;
            }
            if block.pivot <= index {
                return first_gap(nodes, parts.right, index);
            }
            if index == block.first {
                return gap_at_start(nodes, key, index);
            }
            let gap = first_gap(nodes, parts.left, index);
            if gap < block.pivot {
                return gap;
            }
            gap_at_start(nodes, parts.right, gap)
        }
    }
}

// The same where the tree has no index below this one. The gap is in the first half of a block unless that is full.
fn gap_at_start<V: Copy>(nodes: &Slab<Node<V>>, key: usize, index: u64) -> u64
    requires { IsPart nodes.now.slots key index PAGE_LIMIT }
    ensures gap { result ≡ gap_from index (under nodes.now.slots key) }
    ensures limit { result ≤ PAGE_LIMIT }
{
    let mut key = key;
    let mut gap = index;
    loop {
        match &nodes[key] {
            Node::Leaf(at, _) => return if *at == gap { gap + 1 } else { gap },
            Node::Fork(parts) => {
                let block = parts.block;
                if gap < block.first {
                    return gap;
                }
                // As in `count_below` the first half's node isn't read for its count.
                let left = parts.count - count_of(nodes, parts.right);
                if left < block.pivot - block.first {
                    key = parts.left;
                } else {
                    gap = block.pivot;
                    key = parts.right;
                }
            }
        }
    }
}

/// How many entries have an index from `lo` on and below `hi`. One way leads down to the first node of which both parts
/// have some of these indexes, and from there one way down each part.
pub(crate) fn count_in<V: Copy>(nodes: &Slab<Node<V>>, key: usize, lo: u64, hi: u64) -> u64
    requires { IsTree nodes.now.slots key }
    ensures { result ≡ count_within lo hi (under nodes.now.slots key) }
{
    let mut key = key;
    loop {
        match &nodes[key] {
            Node::Leaf(at, _) => return if lo <= *at && *at < hi { 1 } else { 0 },
            Node::Fork(parts) => {
                let block = parts.block;
                if hi <= block.first || block.end <= lo {
                    return 0;
                }
                if lo <= block.first && block.end <= hi {
                    return parts.count;
                }
                if hi <= block.pivot {
                    key = parts.left;
                } else if block.pivot <= lo {
                    key = parts.right;
                } else {
                    let left = count_of(nodes, parts.left) - count_below(nodes, parts.left, lo);
                    let right = count_below(nodes, parts.right, hi);
                    return left + right;
                }
            }
        }
    }
}

// How many entries have an index below this one.
fn count_below<V: Copy>(nodes: &Slab<Node<V>>, key: usize, index: u64) -> u64
    requires { IsTree nodes.now.slots key }
    ensures { result ≡ count_within 0 index (under nodes.now.slots key) }
{
    let mut key = key;
    let mut passed = 0;
    loop {
        match &nodes[key] {
            Node::Leaf(at, _) => return if *at < index { passed + 1 } else { passed },
            Node::Fork(parts) => {
                let block = parts.block;
                if index <= block.first {
                    return passed;
                }
                if block.end <= index {
                    return passed + parts.count;
                }
                if index < block.pivot {
                    key = parts.left;
                } else {
                    // The second half's node is visited next in any case, so the first half's isn't read for its count.
                    passed += parts.count - count_of(nodes, parts.right);
                    key = parts.right;
                }
            }
        }
    }
}

// How many entries there are.
fn count_of<V: Copy>(nodes: &Slab<Node<V>>, key: usize) -> u64
    requires { IsTree nodes.now.slots key }
    ensures { result ≡ length (under nodes.now.slots key) }
{
    match &nodes[key] {
        Node::Leaf(_, _) => 1,
        Node::Fork(parts) => parts.count,
    }
}

/// Copies the entries whose index is at least `lo` and below `hi` to the end of a list that has room for them. The tree
/// has its indexes from `from` on and below `to`.
pub(crate) fn collect<V: Copy>(
    nodes: &Slab<Node<V>>,
    key: usize,
    from: u64,
    to: u64,
    lo: u64,
    hi: u64,
    out: &mut Vec<(u64, V)>,
)
    requires tree { IsPart nodes.now.slots key from to }
    requires limit { to ≤ PAGE_LIMIT }
    requires room { vec_len out.old + length (within lo hi (under nodes.now.slots key)) ≤ vec_capacity out.old }
    ensures taken { out.new.items ≡ out.old.items ++ within lo hi (under nodes.now.slots key) }
    ensures len { vec_len out.new ≡ vec_len out.old + length (within lo hi (under nodes.now.slots key)) }
    ensures capacity { vec_capacity out.old ≤ vec_capacity out.new }
{
    if to <= lo || hi <= from {
        return;
    }
    match nodes[key] {
        Node::Leaf(at, value) => {
            if lo <= at && at < hi {
                out.push_reserved((at, value));
            }
        }
        Node::Fork(parts) => {
            let block = parts.block;
            collect(nodes, parts.left, block.first, block.pivot, lo, hi, out);
            collect(nodes, parts.right, block.pivot, block.end, lo, hi, out);
        }
    }
}

/// What is left of a tree: the key where it stands, unless it is empty, and how many entries are gone.
#[derive(Clone, Copy)]
pub(crate) struct Rest {
    pub key: Option<usize>,
    pub gone: u64,
}

/// Takes the entries away whose index is at least `lo` and below `hi`. Most often none is there, which one way down tells.
pub(crate) fn discard_any<V: Copy>(nodes: &mut Slab<Node<V>>, key: usize, lo: u64, hi: u64) -> Rest
    requires { IsTree nodes.old.slots key }
    ensures rest { HoldsRest nodes.new.slots result.key 0 PAGE_LIMIT (without lo hi (under nodes.old.slots key)) }
    ensures gone { result.gone + length (without lo hi (under nodes.old.slots key)) ≡ length (under nodes.old.slots key) }
    ensures nodes { slab_len nodes.new + nodes_of (under nodes.old.slots key) ≡ slab_len nodes.old + nodes_of (without lo hi (under nodes.old.slots key)) }
    ensures capacity { nodes.new.capacity ≡ nodes.old.capacity }
{
    if count_in(nodes, key, lo, hi) == 0 {
        return Rest {
            key: Some(key),
            gone: 0,
        };
    }
    discard(nodes, key, 0, PAGE_LIMIT, lo, hi)
}

/// Takes the entries away whose index is at least `lo` and below `hi`. The tree has its indexes from `from` on and below
/// `to`.
pub(crate) fn discard<V: Copy>(
    nodes: &mut Slab<Node<V>>,
    key: usize,
    from: u64,
    to: u64,
    lo: u64,
    hi: u64,
) -> Rest
    requires tree { IsPart nodes.old.slots key from to }
    requires limit { to ≤ PAGE_LIMIT }
    ensures rest { HoldsRest nodes.new.slots result.key from to (without lo hi (under nodes.old.slots key)) }
    ensures keeps { Keeps nodes.old.slots nodes.new.slots from to }
    ensures gone { result.gone + length (without lo hi (under nodes.old.slots key)) ≡ length (under nodes.old.slots key) }
    ensures nodes { slab_len nodes.new + nodes_of (under nodes.old.slots key) ≡ slab_len nodes.old + nodes_of (without lo hi (under nodes.old.slots key)) }
    ensures capacity { nodes.new.capacity ≡ nodes.old.capacity }
{
    if to <= lo || hi <= from {
        return Rest {
            key: Some(key),
            gone: 0,
        };
    }
    match nodes[key] {
        Node::Leaf(at, _) => {
            if lo <= at && at < hi {
                nodes.remove(key);
                Rest { key: None, gone: 1 }
            } else {
                Rest {
                    key: Some(key),
                    gone: 0,
                }
            }
        }
        Node::Fork(parts) => {
            let block = parts.block;
            let left = discard(nodes, parts.left, block.first, block.pivot, lo, hi);
            let right = discard(nodes, parts.right, block.pivot, block.end, lo, hi);
            let gone = left.gone + right.gone;
            let count = parts.count - gone;
            Rest {
                key: join(nodes, key, parts, left.key, right.key, count),
                gone,
            }
        }
    }
}

// Makes one tree of what is left of a fork's parts, which have so many entries.
fn join<V: Copy>(
    nodes: &mut Slab<Node<V>>,
    key: usize,
    parts: Parts,
    left: Option<usize>,
    right: Option<usize>,
    count: u64,
) -> Option<usize>
    requires fork { node_at nodes.old.slots key ≡ Some (Node.Fork parts) }
    requires low { parts.block.first < parts.block.pivot }
    requires high { parts.block.pivot < parts.block.end }
    requires left { IsRest nodes.old.slots left parts.block.first parts.block.pivot }
    requires right { IsRest nodes.old.slots right parts.block.pivot parts.block.end }
    requires count { count ≡ length (entries_of nodes.old.slots left ++ entries_of nodes.old.slots right) }
    ensures rest { HoldsRest nodes.new.slots result parts.block.first parts.block.end (entries_of nodes.old.slots left ++ entries_of nodes.old.slots right) }
    ensures keeps { Keeps nodes.old.slots nodes.new.slots parts.block.first parts.block.end }
    ensures nodes { slab_len nodes.new + (nodes_of (entries_of nodes.old.slots left) + nodes_of (entries_of nodes.old.slots right) + 1) ≡ slab_len nodes.old + nodes_of (entries_of nodes.old.slots left ++ entries_of nodes.old.slots right) }
    ensures capacity { nodes.new.capacity ≡ nodes.old.capacity }
{
    match (left, right) {
        (Some(left), Some(right)) => {
            link(nodes, key, parts, left, right, count);
            Some(key)
        }
        (Some(left), None) => {
            nodes.remove(key);
            Some(left)
        }
        (None, right) => {
            nodes.remove(key);
            right
        }
    }
}

// Writes the keys of a fork's parts and how many entries they have, where these change.
fn link<V: Copy>(
    nodes: &mut Slab<Node<V>>,
    key: usize,
    parts: Parts,
    left: usize,
    right: usize,
    count: u64,
)
    requires { node_at nodes.old.slots key ≡ Some (Node.Fork parts) }
    ensures updates { Updates nodes.old nodes.new key (Some (Node.Fork (record parts { left = left; right = right; count = count }))) }
    ensures len { slab_len nodes.new ≡ slab_len nodes.old }
    ensures capacity { nodes.new.capacity ≡ nodes.old.capacity }
{
    if left != parts.left || right != parts.right || count != parts.count {
        if let Node::Fork(parts) = &mut nodes[key] {
            parts.left = left;
            parts.right = right;
            parts.count = count;
        }
    }
}
