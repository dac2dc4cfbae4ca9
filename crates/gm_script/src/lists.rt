//! Commands of an actor.

ghost use Rattle.std.specs.Prelude.{◌≡◌, ◌∷◌, ◌++◌, ◌==◌, [], OnOk, OnErr, IfOk, slice_get, length};

use gm_base::{Command, NoMemory};
use std::alloc::Global;
use std::marker::Model;

/// An actor's commands, in order.
#[derive(Drop)]
pub struct CommandList {
    items: Vec<Command>,
}

impl Model for CommandList {
    ghost use Rattle.std.specs.Prelude.{List};
    ghost use Rattle.gm_base.specs.declared.script.Command.{Command};

    ghost Value = { List Command };

    ghost view = { λ l. l.items.items };
}

impl CommandList {
    /// No command.
    pub fn new(alloc: Global) -> CommandList
        ensures { result ≡ [] }
    {
        CommandList {
            items: Vec::new(alloc),
        }
    }

    /// Appends a command.
    pub fn push(&mut self, command: Command) -> Result<(), NoMemory>
        ensures ok { OnOk result (self.new ≡ self.old ++ command ∷ []) }
        ensures err { OnErr result (self.new ≡ self.old) }
    {
        self.items.push(command)?;
        Ok(())
    }

    /// The commands.
    pub fn list(&self) -> &[Command]
        ensures { result.now ≡ self.now }
    {
        &self.items
    }

    /// How many there are.
    pub fn len(&self) -> usize
        ensures { result ≡ length self.now }
    {
        self.items.len()
    }

    /// Whether there is none.
    pub fn is_empty(&self) -> bool
        ensures { result ≡ (length self.now == 0) }
    {
        self.items.is_empty()
    }

    /// The command at an index, from 0. None exactly past the last.
    pub fn get(&self, index: usize) -> Option<Command>
        ensures { result ≡ slice_get self.now index }
    {
        self.items.get(index).copied()
    }

    /// The same commands again.
    pub fn copied(&self, alloc: Global) -> Result<CommandList, NoMemory>
        ensures { IfOk result (λ l. l ≡ self.now) }
    {
        let items = Vec::from_slice(alloc, &self.items)?;
        Ok(CommandList { items })
    }
}
