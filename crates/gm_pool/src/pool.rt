//! Pools of frames.

ghost use Rattle.std.specs.Prelude.{◌≡◌, ℕ, ◌+◌, ◌-◌, ◌*◌, ◌^◌, ◌<◌, ◌≤◌, true, false, None, Some, length, replicate, IfOk, IfSome, IfNone, option_map};
ghost use Rattle.gm_pool.specs.Pools.{Frames, use_of, is_free, FreeBlock, fresh, with_use, use_after, IsLive, one_more, one_less, uncached, Settles};

use crate::frames::{BLOCK_FRAMES, release, take, take_block};
use crate::number_set::NumberSet;
use crate::uses::{Freed, Use};
use gm_base::{BLOCK_PAGES, COUNTER_LIMIT, Folio, NoMemory};
use std::alloc::Global;
use std::marker::Model;

/// Frames, and the folios that use them.
#[derive(Debug, Drop)]
pub struct Pool {
    uses: Vec<Option<Use>>,
    // The numbers of the free frames, and those of the blocks whose frames are all free.
    free: NumberSet,
    blocks: NumberSet,
    next: u64,
}

impl Model for Pool {
    ghost use Rattle.gm_pool.specs.Pools.{Frames, Stands};

    ghost Value = { Frames };

    ghost view = { λ p. record { uses = p.uses.items; next = p.next } };

    ghost invariant = { λ p. Stands p.uses.items p.free p.blocks };
}

impl Pool {
    /// So many frames, all free. The next serial is 0.
    pub fn new(alloc: Global, frames: u32) -> Result<Pool, NoMemory>
        ensures { IfOk result (λ pool. pool ≡ record { uses = replicate frames None; next = 0 }) }
    {
        let uses = no_uses(alloc, frames)?;
        let free = NumberSet::all_below(alloc, frames)?;
        let blocks = NumberSet::all_below(alloc, frames / BLOCK_PAGES as u32)?;
        Ok(Pool {
            uses,
            free,
            blocks,
            next: 0,
        })
    }

    /// A new folio in the lowest free frame, cached and not held. None exactly where no frame is free.
    pub fn take_one(&mut self) -> Option<Folio>
        requires { self.old.next < COUNTER_LIMIT }
        ensures free { IfSome result (λ folio. is_free self.old folio.frame ≡ true) }
        ensures lowest { IfSome result (λ folio. (frame : ℕ) → frame < folio.frame → is_free self.old frame ≡ false) }
        ensures serial { IfSome result (λ folio. folio.serial ≡ self.old.next) }
        ensures uses { IfSome result (λ folio. self.new.uses ≡ (with_use self.old folio.frame (Some (fresh folio.serial))).uses) }
        ensures next { IfSome result (λ folio. self.new.next ≡ self.old.next + 1) }
        ensures none { IfNone result ((frame : ℕ) → is_free self.old frame ≡ false) }
        ensures unchanged { IfNone result (self.new ≡ self.old) }
    {
        let frame = self.free.lowest()?;
        let serial = self.next;
        take(
            &mut self.uses,
            &mut self.free,
            &mut self.blocks,
            frame,
            serial,
        );
        self.next += 1;
        Some(Folio {
            serial,
            frame: frame as u32,
        })
    }
    /// 512 new folios in the lowest free block, cached and not held, with serials that rise by one; the first of them.
    /// None exactly where no 512 free frames begin at a multiple of 512.
    pub fn take_block(&mut self) -> Option<Folio>
        requires { self.old.next < COUNTER_LIMIT }
        ensures aligned { IfSome result (λ folio. (block : ℕ) × (folio.frame ≡ BLOCK_PAGES * block) × ((other : ℕ) → other < block → ¬ FreeBlock self.old.uses (BLOCK_PAGES * other))) }
        ensures free { IfSome result (λ folio. FreeBlock self.old.uses folio.frame) }
        ensures serial { IfSome result (λ folio. folio.serial ≡ self.old.next) }
        ensures uses { IfSome result (λ folio. (frame : ℕ) → use_of self.new frame ≡ use_after self.old.uses folio.frame BLOCK_PAGES folio.serial frame) }
        ensures len { IfSome result (λ _. length self.new.uses ≡ length self.old.uses) }
        ensures next { IfSome result (λ _. self.new.next ≡ self.old.next + BLOCK_PAGES) }
        ensures none { IfNone result ((block : ℕ) → ¬ FreeBlock self.old.uses (BLOCK_PAGES * block)) }
        ensures unchanged { IfNone result (self.new ≡ self.old) }
    {
        let block = self.blocks.lowest()?;
        let first = BLOCK_FRAMES * block;
        let serial = self.next;
        take_block(
            &mut self.uses,
            &mut self.free,
            &mut self.blocks,
            first,
            serial,
        );
        self.next += BLOCK_PAGES;
        Some(Folio {
            serial,
            frame: first as u32,
        })
    }

    /// One more hold of a live folio.
    pub fn hold(&mut self, folio: Folio)
        requires { IsLive self.old folio (λ usage. usage.holds < 2 ^ 32 - 1) }
        ensures { self.new ≡ with_use self.old folio.frame (option_map one_more (use_of self.old folio.frame)) }
    {
        match self.uses[folio.frame as usize] {
            Some(usage) => self.uses[folio.frame as usize] = Some(usage.with_one_more()),
            None => unreachable!(),
        }
    }

    /// One hold less of a live folio that is held.
    pub fn drop_hold(&mut self, folio: Folio) -> Freed
        requires { IsLive self.old folio (λ usage. 0 < usage.holds) }
        ensures { IfSome (use_of self.old folio.frame) (λ usage. Settles self.old self.new folio.frame (one_less usage) result) }
    {
        match self.uses[folio.frame as usize] {
            Some(usage) => self.settle(folio.frame, usage.with_one_less()),
            None => unreachable!(),
        }
    }

    /// A live folio leaves its cache.
    pub fn detach(&mut self, folio: Folio) -> Freed
        requires { IsLive self.old folio (λ usage. usage.cached ≡ true) }
        ensures { IfSome (use_of self.old folio.frame) (λ usage. Settles self.old self.new folio.frame (uncached usage) result) }
    {
        match self.uses[folio.frame as usize] {
            Some(usage) => self.settle(folio.frame, usage.uncached()),
            None => unreachable!(),
        }
    }

    /// The serial of the folio that uses a frame. None exactly where the frame is free, or there is no such frame.
    pub fn serial(&self, frame: u32) -> Option<u64>
        ensures { result ≡ option_map (λ usage. usage.serial) (use_of self.now frame) }
    {
        match self.usage(frame) {
            Some(usage) => Some(usage.serial),
            None => None,
        }
    }

    /// The serial of the next new folio: how many there were so far.
    pub fn next(&self) -> u64
        ensures { result ≡ self.now.next }
    {
        self.next
    }

    /// The use of a frame, None where it is free or there is no such frame.
    pub(crate) fn usage(&self, frame: u32) -> Option<Use>
        ensures { result ≡ use_of self.now frame }
    {
        if (frame as usize) < self.uses.len() {
            self.uses[frame as usize]
        } else {
            None
        }
    }

    /// Gives a frame in use this use, or frees it where the use is neither cached nor held.
    fn settle(&mut self, frame: u32, usage: Use) -> Freed
        requires within { frame < length self.old.uses }
        requires used { is_free self.old frame ≡ false }
        ensures { Settles self.old self.new frame usage result }
    {
        if usage.is_idle() {
            release(
                &mut self.uses,
                &mut self.free,
                &mut self.blocks,
                frame as usize,
            );
            Freed::Now
        } else {
            self.uses[frame as usize] = Some(usage);
            Freed::Later
        }
    }
}

/// The uses of so many frames that are all free.
fn no_uses(alloc: Global, frames: u32) -> Result<Vec<Option<Use>>, NoMemory>
    ensures { IfOk result (λ uses. uses.items ≡ replicate frames None) }
{
    let mut uses = Vec::new(alloc);
    uses.resize(frames as usize, None)?;
    Ok(uses)
}
