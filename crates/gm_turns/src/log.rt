//! A history with room to spare.

ghost use Rattle.std.specs.Prelude.{◌≡◌, ◌+◌, ◌^◌, ◌<◌, ◌≤◌, ◌∷◌, [], OnOk, OnErr, reverse, length};
ghost use Rattle.gm_flat.specs.InTypes.{AreInTypes};

use gm_base::NoMemory;
use gm_flat::{Entry, is_in_types};
use std::alloc::Global;
use std::marker::Model;

/// The entries so far, and how many more can be appended without memory.
#[derive(Drop)]
pub struct Log {
    entries: Vec<Entry>,
    // `Vec` doesn't promise that a push keeps its capacity, so the room is counted here.
    spare: u64,
}

impl Model for Log {
    ghost use Rattle.std.specs.Prelude.{ℕ, ◌+◌, ◌≤◌, reverse, vec_capacity, vec_len};
    ghost use Rattle.gm_flat.specs.InTypes.{AreInTypes};
    ghost use Rattle.gm_turns.specs.Logs.{LogView};

    ghost Value = { LogView };

    ghost view = { λ l. record { past = reverse l.entries.items; spare = l.spare } };

    ghost invariant = { λ l. (vec_len l.entries + l.spare ≤ vec_capacity l.entries) × AreInTypes l.entries.items };
}

impl Log {
    /// No entry, and no room.
    pub fn new(alloc: Global) -> Log
        ensures { result ≡ record { past = []; spare = 0 } }
    {
        Log {
            entries: Vec::new(alloc),
            spare: 0,
        }
    }

    /// Makes room for this many entries.
    pub fn reserve(&mut self, count: u64) -> Result<(), NoMemory>
        ensures past { self.new.past ≡ self.old.past }
        ensures ok { OnOk result (count ≤ self.new.spare) }
        ensures kept { self.old.spare ≤ self.new.spare }
        ensures err { OnErr result (self.new ≡ self.old) }
    {
        if self.spare < count {
            self.entries.reserve(count as usize)?;
            self.spare = count;
        }
        Ok(())
    }

    /// The position of the next entry.
    pub fn position(&self) -> u64
        requires { 0 < self.now.spare }
        ensures at { result ≡ length self.now.past }
        ensures fits { result + 1 < 2 ^ 64 }
    {
        let _room = self.entries.capacity();
        self.entries.len() as u64
    }

    /// Appends an entry.
    pub fn append(&mut self, entry: Entry)
        requires { 0 < self.old.spare }
        ensures past { self.new.past ≡ entry ∷ self.old.past }
        ensures spare { self.new.spare + 1 ≡ self.old.spare }
    {
        is_in_types(&entry);
        match self.entries.push(entry) {
            Ok(()) => self.spare -= 1,
            Err(_) => unreachable!(),
        }
    }

    /// The entries, the oldest first.
    pub fn entries(&self) -> &[Entry]
        ensures past { self.now.past ≡ reverse result.now }
        ensures in_types { AreInTypes result.now }
    {
        &self.entries
    }
}
