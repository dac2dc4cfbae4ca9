//! Whether what a file caches is a block of frames.

ghost use Rattle.std.specs.Prelude.{◌≡◌, ℕ, ◌+◌, ◌%◌, ◌<◌, IfNone, IfSome, IsTrue};
ghost use Rattle.gm_base.specs.declared.numbers.TheConstants.{BLOCK_PAGES, COUNTER_LIMIT};
ghost use Rattle.gm_radix.specs.Entries.{lookup};
ghost use Rattle.gm_store.specs.Asked.{HasFrame, IsBlockFrom};
ghost use Rattle.gm_store.specs.Stored.{StoreStands, Stored};

use crate::first_use::block_pages;
use crate::store::Store;
use gm_base::BLOCK_PAGES;
use gm_file::File;

// Whether the folio at an index has this frame.
fn has_frame(file: &File, index: u64, frame: u64) -> bool
    ensures yes { IsTrue result → HasFrame frame (lookup index file.now.cached) }
    ensures no { HasFrame frame (lookup index file.now.cached) → IsTrue result }
{
    match file.cached(index) {
        Some(folio) => u64::from(folio.frame) == frame,
        None => false,
    }
}

// Whether the frames of so many indexes from one on follow one another from this frame on.
fn frames_follow(file: &File, index: u64, frame: u64, count: u64) -> bool
    requires index { index + count < COUNTER_LIMIT }
    requires frame { frame + count < COUNTER_LIMIT }
    ensures yes { IsTrue result → (k : ℕ) → k < count → HasFrame (frame + k) (lookup (index + k) file.now.cached) }
    ensures no { ((k : ℕ) → k < count → HasFrame (frame + k) (lookup (index + k) file.now.cached)) → IsTrue result }
{
    'pages: for k in 0..count {
        if !has_frame(file, index + k, frame + k) {
            return false;
        }
    }
    true
}

// The first frame of a block of the file. How many indexes have something cached is asked before each is looked at.
fn block_frame(file: &File, index: u64) -> Option<u32>
    requires { index + BLOCK_PAGES < COUNTER_LIMIT }
    ensures some { IfSome result (λ frame. frame % BLOCK_PAGES ≡ 0) }
    ensures follow { IfSome result (λ frame. (k : ℕ) → k < BLOCK_PAGES → HasFrame (frame + k) (lookup (index + k) file.now.cached)) }
    ensures none { IfNone result ((frame : ℕ) → frame % BLOCK_PAGES ≡ 0 → ((k : ℕ) → k < BLOCK_PAGES → HasFrame (frame + k) (lookup (index + k) file.now.cached)) → ⊥) }
{
    let count = block_pages();
    let first = file.cached(index)?;
    if u64::from(first.frame) % count != 0 {
        return None;
    }
    if file.count_in(index, index + count) < count {
        return None;
    }
    if frames_follow(file, index, u64::from(first.frame), count) {
        Some(first.frame)
    } else {
        None
    }
}

impl Store {
    /// The frame from which on the 512 pages of a file from this index on are a block: each is cached, and their frames
    /// follow one another from a multiple of 512 on. None exactly where they are none.
    pub fn block_frame(&self, file: u32, index: u64) -> Option<u32>
        requires { index + BLOCK_PAGES < COUNTER_LIMIT }
        ensures some { (frames : ℕ) (k : Stored) → StoreStands frames self.now k → IfSome result (λ frame. IsBlockFrom file index frame k.flat) }
        ensures none { (frames : ℕ) (k : Stored) → StoreStands frames self.now k → IfNone result ((frame : ℕ) → IsBlockFrom file index frame k.flat → ⊥) }
    {
        match self.files.get(file as usize) {
            Some(Some(x)) => block_frame(x, index),
            _ => None,
        }
    }
}
