//! What the writer does.

ghost use Rattle.std.specs.Prelude.{◌≡◌, ◌+◌, ◌^◌, ◌<◌, ◌≤◌, [], ◌∷◌, ◌++◌, length, map, All, IfOk, IfSome, OnOk, OnErr};
ghost use Rattle.left_right.specs.Sides.{view};
ghost use Rattle.gm_views.specs.Rules.{IsShown, Puts};
ghost use Rattle.gm_views.specs.Shows.{changed, sight_of};
ghost use Rattle.gm_views.specs.Sights.{last_of};
ghost use Rattle.gm_views.specs.Writers.{pending};

use super::Publisher;
use crate::doors::{Door, Doors};
use crate::rule::{Put, ViewWriter};
use crate::shown::{Change, Shown};
use core::mem::replace_with;
use gm_base::NoMemory;
use left_right::writer::Writer;
use std::alloc::Global;
use std::sync::Wait;

// Publishes the one change that was noted.
fn publish_one<R: Wait>(writer: ViewWriter, rt: &R) -> (ViewWriter, ())
    requires shown { IsShown writer.desk.shown.value (view writer.desk.place).seen }
    requires waiting { length (pending writer) ≡ 1 }
    requires room { 0 < writer.desk.shown.value.room }
    requires later { All (λ c. (last_of (view writer.desk.place).seen).position ≤ c.position) (pending writer) }
    ensures puts { Puts (view writer.desk.place) writer.desk.shown.value result.0.desk.shown.value (view result.0.desk.place) }
    ensures change { sight_of result.0.desk.shown.value ∷ [] ≡ map (changed (last_of (view writer.desk.place).seen)) (pending writer) }
    ensures waiting { pending result.0 ≡ [] }
    ensures room { result.0.desk.shown.value.room + 1 ≡ writer.desk.shown.value.room }
{
    let (writer, published) = writer.publish_as::<Put, R>(rt);
    prove!(published.is_ok());
    (writer, ())
}

impl Publisher {
    /// The opening is published. There is room for so many changes, and for so many readers at once. `NoMemory` always
    /// where the changes are 2^31 or more.
    pub fn new(alloc: Global, room: u32, readers: u32) -> Result<Publisher, NoMemory>
        requires { 0 < readers }
        ensures { IfOk result (λ p. p ≡ record { published = []; waiting = []; room = room }) }
    {
        let first = Shown::new(alloc, room)?;
        let second = Shown::new(alloc, room)?;
        Ok(Publisher {
            writer: Writer::new(alloc, first, second, readers as usize)?,
        })
    }

    /// What makes readers. It can't fail, since a writer that was made can't be given up without waiting: where there is
    /// no memory, what is made refuses each reader.
    pub fn doors(&self) -> Doors
        ensures { result ≡ 0 }
    {
        Doors::over(self.writer.factory().another().ok())
    }

    /// Room for so many changes more.
    pub fn room(&self) -> u32
        ensures { result ≡ self.now.room }
    {
        self.writer.published().room
    }

    /// The number of the view that was published last.
    pub fn last(&self) -> u64
        ensures { result ≡ length self.now.published }
    {
        self.writer.published().number
    }

    /// The position of the view that was published last.
    pub fn position(&self) -> u64
        ensures { result ≡ (last_of self.now.published).position }
    {
        self.writer.published().position
    }

    /// Notes a change, which readers don't see yet. After an error the writer is as before.
    pub fn append(&mut self, change: Change) -> Result<(), NoMemory>
        ensures ok { OnOk result (self.new ≡ record self.old { waiting = self.old.waiting ++ change ∷ [] }) }
        ensures err { OnErr result (self.new ≡ self.old) }
    {
        // It is taken apart since the check has to meet the types of its fields in this function.
        let Change {
            position,
            seq,
            count,
            hull,
            effect,
        } = change;
        match self.writer.append(Change {
            position,
            seq,
            count,
            hull,
            effect,
        }) {
            Ok(()) => Ok(()),
            Err(_change) => Err(NoMemory),
        }
    }

    /// Publishes the one change that was noted. It takes no memory, and may wait for readers.
    pub fn publish<R: Wait>(&mut self, rt: &R)
        requires waiting { length self.old.waiting ≡ 1 }
        requires room { 0 < self.old.room }
        requires later { All (λ c. (last_of self.old.published).position ≤ c.position) self.old.waiting }
        ensures published { self.new.published ≡ self.old.published ++ map (changed (last_of self.old.published)) self.old.waiting }
        ensures waiting { self.new.waiting ≡ [] }
        ensures room { self.new.room + 1 ≡ self.old.room }
    {
        replace_with(&mut self.writer, rt, publish_one);
    }

    /// Lets the reader learn what was published. Where no reader can be had it is shut.
    pub fn tell(&mut self, door: &mut Door)
        ensures told { IfSome door.new.known (λ w. w ≡ record { seen = []; told = self.old.published }) }
        ensures count { door.new.refused ≡ door.old.refused }
        ensures same { self.new ≡ self.old }
    {
        door.learn(&mut self.writer);
    }

    /// Gives up the views. It waits for the readers.
    pub fn take<R: Wait>(self, rt: &R) {
        let Publisher { writer } = self;
        drop(writer.take(rt));
    }
}
