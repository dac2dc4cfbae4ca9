//! Room that is made before a change, so that the change takes no memory.

ghost use Rattle.std.specs.Prelude.{◌≡◌, ◌^◌, ◌-◌, ◌<◌, ◌≤◌, IfOk, OnOk, length};
ghost use Rattle.gm_base.specs.declared.numbers.TheConstants.{BLOCK_PAGES, COUNTER_LIMIT};
ghost use Rattle.gm_base.specs.declared.values.Setup.{Setup};
ghost use Rattle.gm_state.specs.Applying.{HasBlockRoom};
ghost use Rattle.gm_state.specs.HasMoreRoom.{StateHasMoreRoom};
ghost use Rattle.gm_state.specs.Stand.{Memory, StateIs};
ghost use Rattle.gm_store.specs.Rooms.{HasRoom};
ghost use Rattle.gm_store.specs.Views.{file_in, pairs_in};

use crate::state::State;
use crate::tracking::reserve_blocks;
use gm_base::{BLOCK_PAGES, COUNTER_LIMIT, NoMemory};
use std::alloc::Global;

impl State {
    /// What the state takes its memory from.
    pub fn allocator(&self) -> Global {
        self.alloc
    }

    /// Makes room for the attributes of one call, for one file, and where blocks are allowed for those of one slot.
    /// `NoMemory` also comes where as many files or folios were made as can be counted.
    pub fn reserve_call(&mut self) -> Result<(), NoMemory>
        ensures more { StateHasMoreRoom self.old self.new }
        ensures kinds { OnOk result (1 ≤ self.new.attrs.call_spare) }
        ensures blocks { OnOk result (HasBlockRoom self.new) }
        ensures files { OnOk result (1 ≤ self.new.store.spare) }
        ensures numbers { OnOk result (length self.new.store.files < 2 ^ 32 - 1) }
        ensures serials { OnOk result (self.new.store.pool.next < COUNTER_LIMIT) }
    {
        self.attrs.reserve(1)?;
        reserve_blocks(self.huge, &mut self.attrs)?;
        self.store.reserve(1, None, 0, 0)?;
        if self.store.count() >= u32::MAX as usize || self.store.next_serial() >= COUNTER_LIMIT {
            return Err(NoMemory);
        }
        Ok(())
    }

    /// Makes room for a block of pages in a file. A file that is shut needs none.
    pub fn reserve_pages(&mut self, file: u32) -> Result<(), NoMemory>
        ensures more { StateHasMoreRoom self.old self.new }
        ensures room { OnOk result (HasRoom BLOCK_PAGES 0 (file_in self.new.store.files file)) }
    {
        self.store.reserve(0, Some(file), BLOCK_PAGES as u32, 0)
    }

    /// Makes room for one more bound range of a file. A file that is shut needs none.
    pub fn reserve_binding(&mut self, file: u32) -> Result<(), NoMemory>
        ensures more { StateHasMoreRoom self.old self.new }
        ensures room { OnOk result (HasRoom 0 1 (file_in self.new.store.files file)) }
    {
        self.store.reserve(0, Some(file), 0, 1)
    }

    /// Makes room for the folios that a cut or a close of a file leaves to be freed, and answers how many they are at most.
    pub fn reserve_freed(&mut self, file: u32) -> Result<u64, NoMemory>
        requires stands { (s : Setup) × (m : Memory) × StateIs s self.old m }
        ensures more { StateHasMoreRoom self.old self.new }
        ensures room { OnOk result (length (pairs_in (file_in self.new.store.files file)) ≤ self.new.freed.room) }
        ensures count { IfOk result (λ count. count ≡ length (pairs_in (file_in self.new.store.files file))) }
        ensures small { IfOk result (λ count. count < 2 ^ 32) }
    {
        let count = self.cached_count(file);
        if count > u32::MAX as u64 {
            return Err(NoMemory);
        }
        self.freed.reserve(count as u32)?;
        Ok(count)
    }

    // How many folios are cached of a file.
    fn cached_count(&self, file: u32) -> u64
        requires stands { (s : Setup) × (m : Memory) × StateIs s self.now m }
        ensures { result ≡ length (pairs_in (file_in self.now.store.files file)) }
    {
        match self.store.files().get(file as usize) {
            Some(Some(x)) => x.count_in(0, x.pages()),
            _ => 0,
        }
    }
}
