//! Frames that are taken and given back.

ghost use Rattle.std.specs.Prelude.{◌≡◌, ℕ, ◌+◌, ◌*◌, ◌<◌, ◌≤◌, true, false, None, Some, length, slice_set, vec_len};
ghost use Rattle.gm_pool.specs.Pools.{Stands, free_in, use_in, use_after, fresh, FreeBlock};

use crate::number_set::NumberSet;
use crate::uses::Use;
use gm_base::{BLOCK_PAGES, COUNTER_LIMIT};

/// The frames of a block.
pub(crate) const BLOCK_FRAMES: usize = BLOCK_PAGES as usize;

/// Takes a free frame for a new folio.
pub(crate) fn take(
    uses: &mut Vec<Option<Use>>,
    free: &mut NumberSet,
    blocks: &mut NumberSet,
    frame: usize,
    serial: u64,
)
    requires stands { Stands uses.old.items free.old blocks.old }
    requires free { free_in uses.old.items frame ≡ true }
    ensures stands { Stands uses.new.items free.new blocks.new }
    ensures uses { uses.new.items ≡ slice_set uses.old.items frame (Some (fresh serial)) }
{
    uses[frame] = Some(Use {
        serial,
        holds: 0,
        cached: true,
    });
    free.take_out(frame);
    blocks.leave_out(frame / BLOCK_FRAMES);
}

/// Frees a frame that is in use.
pub(crate) fn release(
    uses: &mut Vec<Option<Use>>,
    free: &mut NumberSet,
    blocks: &mut NumberSet,
    frame: usize,
)
    requires stands { Stands uses.old.items free.old blocks.old }
    requires within { frame < length uses.old.items }
    requires used { free_in uses.old.items frame ≡ false }
    ensures stands { Stands uses.new.items free.new blocks.new }
    ensures uses { uses.new.items ≡ slice_set uses.old.items frame None }
{
    uses[frame] = None;
    free.add(frame);
    let block = frame / BLOCK_FRAMES;
    if free.has_block(block * BLOCK_FRAMES) {
        blocks.add(block);
    }
}

/// Takes the free frames of a block for new folios, with serials that rise by one.
pub(crate) fn take_block(
    uses: &mut Vec<Option<Use>>,
    free: &mut NumberSet,
    blocks: &mut NumberSet,
    first: usize,
    serial: u64,
)
    requires stands { Stands uses.old.items free.old blocks.old }
    requires free { FreeBlock uses.old.items first }
    requires serial { serial < COUNTER_LIMIT }
    ensures stands { Stands uses.new.items free.new blocks.new }
    ensures uses { (frame : ℕ) → use_in uses.new.items frame ≡ use_after uses.old.items first BLOCK_PAGES serial frame }
    ensures len { length uses.new.items ≡ length uses.old.items }
{
    for offset in 0..BLOCK_FRAMES {
        take(uses, free, blocks, first + offset, serial + offset as u64);
    }
}
