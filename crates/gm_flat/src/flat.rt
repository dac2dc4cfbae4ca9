//! The plain replay of a history.

ghost use Rattle.std.specs.Prelude.{◌≡◌, ◌∷◌, [], Some, None, IfOk, MatchOption, OnOk, OnErr, reverse};
ghost use Rattle.gm_flat.specs.NamedPage.{named};
ghost use Rattle.gm_flat.specs.Replay.{flat};
ghost use Rattle.gm_flat.specs.Replayed.{bare, shown};

use crate::effect::Backing;
use crate::entry::Entry;
use crate::flat_past::{change_of, run_of_entry};
use crate::flat_state::State;
use gm_base::{Kind, NoMemory, Page, Setup};
use std::alloc::Global;
use std::marker::Model;

/// The entries of a history so far, and the flat state that they lead to, by plain lists: no part of a machine.
#[derive(Drop)]
pub struct Flat {
    alloc: Global,
    setup: Setup,
    // The oldest first.
    entries: Vec<Entry>,
    state: State,
}

impl Model for Flat {
    ghost use Rattle.std.specs.Prelude.{◌≡◌, reverse};
    ghost use Rattle.gm_flat.specs.Replay.{flat};
    ghost use Rattle.gm_flat.specs.Replayed.{Replayed, bare, shown};

    ghost Value = { Replayed };

    ghost view = { λ f. record { setup = f.setup; past = reverse f.entries.items } };

    ghost invariant = { λ f. shown f.state ≡ bare (flat (reverse f.entries.items)) };
}

impl Flat {
    /// No entry.
    pub fn new(alloc: Global, setup: Setup) -> Result<Flat, NoMemory>
        ensures { IfOk result (λ flat. flat ≡ record { setup = setup; past = [] }) }
    {
        Ok(Flat {
            alloc,
            setup,
            entries: Vec::new(alloc),
            state: State::new(alloc),
        })
    }

    /// Plays one more entry. It is refused only for want of memory.
    pub fn play(&mut self, entry: &Entry) -> Result<(), NoMemory>
        ensures past { OnOk result (self.new.past ≡ entry.now ∷ self.old.past) }
        ensures setup { self.new.setup ≡ self.old.setup }
        ensures err { OnErr result (self.new ≡ self.old) }
    {
        let copy = copy_of(entry)?;
        self.entries.reserve(1)?;
        step(self.alloc, &mut self.state, &self.entries, entry)?;
        match self.entries.push(copy) {
            Ok(()) => Ok(()),
            Err(_) => unreachable!(),
        }
    }

    /// What is named at a page after the entries played: the kind, what backs the page, and whether it may be written.
    /// None exactly where nothing is.
    pub fn named(&self, page: Page) -> Option<(Kind, Backing, bool)>
        ensures { MatchOption result (named (flat self.now.past) page ≡ None) (λ found. named (flat self.now.past) page ≡ Some (record { kind = found.0; backing = found.1; writable = found.2 })) }
    {
        self.state.named(page)
    }
}

/// A copy of an entry, with room to spare where it has some.
fn copy_of(entry: &Entry) -> Result<Entry, NoMemory>
    ensures { IfOk result (λ copy. copy ≡ entry.now) }
{
    Ok(entry.clone()?)
}

/// Brings the state after some entries to that after one more.
fn step(alloc: Global, state: &mut State, entries: &[Entry], entry: &Entry) -> Result<(), NoMemory>
    requires { shown state.old ≡ bare (flat (reverse entries.now)) }
    ensures ok { OnOk result (shown state.new ≡ bare (flat (entry.now ∷ reverse entries.now))) }
    ensures err { OnErr result (shown state.new ≡ shown state.old) }
{
    if let Some(effect) = change_of(entry) {
        return state.apply(effect);
    }
    match run_of_entry(alloc, entries, entry, &state.files)? {
        Some(run) => state.add(alloc, &run),
        None => Ok(()),
    }
}
