//! Putting an entry into a tree.

ghost use Rattle.std.specs.Prelude.{◌≡◌, ℕ, ◌+◌, ◌*◌, ◌<◌, ◌≤◌, ◌⊎◌, Some, IfSome, IfNone, length};
ghost use Rattle.slab.specs.Slab.{slab_len, ContainsKey, HasRoomFor, Updates};
ghost use Rattle.gm_base.specs.declared.numbers.TheConstants.{PAGE_LIMIT};
ghost use Rattle.gm_radix.specs.Entries.{put};
ghost use Rattle.gm_radix.specs.declared.node.Parts.{Parts};
ghost use Rattle.gm_radix.specs.Nodes.{node_at, under, nodes_of, HasHalf, Holds, IsPart, IsTree, Keeps, StandsBeside};

use crate::block::{Block, block_beside};
use crate::node::{Node, Parts};
use gm_base::PAGE_LIMIT;
use slab::Slab;

/// Puts the value at the index, in the place of the one that was there. So many entries are added by that, one or none,
/// and each fork counts them on the way down: no second way leads back up.
pub(crate) fn insert<V: Copy>(
    nodes: &mut Slab<Node<V>>,
    root: usize,
    index: u64,
    value: V,
    added: u64,
)
    requires tree { IsTree nodes.old.slots root }
    requires limit { index < PAGE_LIMIT }
    requires added { length (put index value (under nodes.old.slots root)) ≡ length (under nodes.old.slots root) + added }
    requires room { HasRoomFor nodes.old 2 }
    ensures entries { Holds nodes.new.slots root 0 PAGE_LIMIT (put index value (under nodes.old.slots root)) }
    ensures nodes { slab_len nodes.new ≡ slab_len nodes.old + 2 * added }
    ensures capacity { nodes.new.capacity ≡ nodes.old.capacity }
{
    let mut key = root;
    let mut from = 0;
    let mut to = PAGE_LIMIT;
    while let Some(half) = step(nodes, key, index, added) {
        from = half.from;
        to = half.to;
        key = half.key;
    }
    insert_at(nodes, key, from, to, index, value);
}

// A half of a fork's block: the key of its part, and its bounds.
#[derive(Clone, Copy)]
pub(crate) struct Half {
    pub key: usize,
    pub from: u64,
    pub to: u64,
}

// Counts so many more entries of the fork under the key where its block has the index, and tells the half that has it.
#[inline(always)]
fn step<V: Copy>(nodes: &mut Slab<Node<V>>, key: usize, index: u64, added: u64) -> Option<Half>
    requires tree { IsTree nodes.old.slots key }
    requires limit { (p : Parts) → node_at nodes.old.slots key ≡ Some (Node.Fork p) → p.count + added ≤ PAGE_LIMIT + 1 }
    ensures some { IfSome result (λ half. (p : Parts) × (node_at nodes.old.slots key ≡ Some (Node.Fork p)) × (p.block.first ≤ index) × (index < p.block.end) × Updates nodes.old nodes.new key (Some (Node.Fork (record p { count = p.count + added }))) × HasHalf p index half) }
    ensures none { IfNone result ((p : Parts) → node_at nodes.old.slots key ≡ Some (Node.Fork p) → (index < p.block.first) ⊎ (p.block.end ≤ index)) }
    ensures same { IfNone result (nodes.new ≡ nodes.old) }
    ensures len { slab_len nodes.new ≡ slab_len nodes.old }
    ensures capacity { nodes.new.capacity ≡ nodes.old.capacity }
{
    let Node::Fork(parts) = &nodes[key] else {
        return None;
    };
    let block = parts.block;
    if index < block.first || block.end <= index {
        return None;
    }
    let half = if index < block.pivot {
        Half {
            key: parts.left,
            from: block.first,
            to: block.pivot,
        }
    } else {
        Half {
            key: parts.right,
            from: block.pivot,
            to: block.end,
        }
    };
    if let Node::Fork(parts) = &mut nodes[key] {
        parts.count += added;
    }
    Some(half)
}

// Puts the value at the index where the way down ends: into a leaf, or beside the tree under the key.
fn insert_at<V: Copy>(
    nodes: &mut Slab<Node<V>>,
    key: usize,
    from: u64,
    to: u64,
    index: u64,
    value: V,
)
    requires tree { IsPart nodes.old.slots key from to }
    requires limit { to ≤ PAGE_LIMIT }
    requires low { from ≤ index }
    requires high { index < to }
    requires apart { (p : Parts) → node_at nodes.old.slots key ≡ Some (Node.Fork p) → (index < p.block.first) ⊎ (p.block.end ≤ index) }
    requires room { HasRoomFor nodes.old 2 }
    ensures entries { Holds nodes.new.slots key from to (put index value (under nodes.old.slots key)) }
    ensures keeps { Keeps nodes.old.slots nodes.new.slots from to }
    ensures nodes { slab_len nodes.new + nodes_of (under nodes.old.slots key) ≡ slab_len nodes.old + nodes_of (put index value (under nodes.old.slots key)) }
    ensures capacity { nodes.new.capacity ≡ nodes.old.capacity }
{
    match nodes[key] {
        Node::Leaf(at, _) => {
            if at == index {
                set(nodes, key, Node::Leaf(index, value));
            } else {
                let block = block_beside(at, at + 1, index, from, to);
                part(nodes, key, block, 1, index, value);
            }
        }
        Node::Fork(parts) => {
            let Block { first, end, .. } = parts.block;
            let block = block_beside(first, end, index, from, to);
            part(nodes, key, block, parts.count, index, value);
        }
    }
}

// Puts an entry beside a tree of so many, in the other half of a block. The block stands under the tree's key.
fn part<V: Copy>(
    nodes: &mut Slab<Node<V>>,
    key: usize,
    block: Block,
    count: u64,
    index: u64,
    value: V,
)
    requires beside { StandsBeside nodes.old.slots key block index }
    requires count { count ≡ length (under nodes.old.slots key) }
    requires room { HasRoomFor nodes.old 2 }
    ensures entries { Holds nodes.new.slots key block.first block.end (put index value (under nodes.old.slots key)) }
    ensures keeps { Keeps nodes.old.slots nodes.new.slots block.first block.end }
    ensures nodes { slab_len nodes.new + nodes_of (under nodes.old.slots key) ≡ slab_len nodes.old + nodes_of (put index value (under nodes.old.slots key)) }
    ensures capacity { nodes.new.capacity ≡ nodes.old.capacity }
{
    let node = nodes[key];
    let moved = nodes.insert_reserved(node);
    let leaf = nodes.insert_reserved(Node::Leaf(index, value));
    let (left, right) = if index < block.pivot {
        (leaf, moved)
    } else {
        (moved, leaf)
    };
    let count = count + 1;
    set(
        nodes,
        key,
        Node::Fork(Parts {
            block,
            left,
            right,
            count,
        }),
    );
}

// Writes a node over the one under a key.
fn set<V: Drop>(nodes: &mut Slab<Node<V>>, key: usize, node: Node<V>)
    requires { ContainsKey nodes.old key }
    ensures updates { Updates nodes.old nodes.new key (Some node) }
    ensures len { slab_len nodes.new ≡ slab_len nodes.old }
    ensures capacity { nodes.new.capacity ≡ nodes.old.capacity }
{
    nodes[key] = node;
}
