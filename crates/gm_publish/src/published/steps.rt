//! What is done under the mutex.

ghost use Rattle.std.specs.Prelude.{◌≡◌, [], false, length, replicate, IfOk, IfSome, OnErr};
ghost use Rattle.gm_base.specs.Scripts.{IsOf};
ghost use Rattle.gm_base.specs.declared.numbers.TheConstants.{MOST_VCPUS};
ghost use Rattle.gm_flat.specs.RightHistory.{Right};
ghost use Rattle.gm_machine.specs.Steps.{IsVcpu};
ghost use Rattle.gm_publish.specs.Counts.{CountedTo};
ghost use Rattle.gm_publish.specs.Publisheds.{StepsAs, seen_by};
ghost use Rattle.gm_publish.specs.Views.{views_of};

use super::Published;
use super::turning::take_turn;
use gm_base::{Actor, NoMemory};
use gm_machine::{How, Machine, Outcome};
use gm_script::Script;
use gm_views::{Publisher, Spies, Spy};
use std::alloc::Global;
use std::sync::Wait;

// Views that one command of a caller makes at most: those of its begin, its change and its end.
const COMMAND_VIEWS: u32 = 3;

impl Published {
    /// A machine with an empty history, and with the setup and the commands of the script, and the readers of its
    /// vCPUs. There is room for the views that the commands of its callers make.
    pub fn new(alloc: Global, script: &Script) -> Result<(Published, Spies), NoMemory>
        ensures published { IfOk result (λ t. t.0 ≡ record { orders = script.now.orders; past = []; turns = 0; published = [] }) }
        ensures spies { IfOk result (λ t. t.1 ≡ record { refused = 0; vcpus = script.now.orders.setup.vcpus; given = replicate MOST_VCPUS false }) }
    {
        let setup = script.setup();
        let machine = Machine::new(alloc, script)?;
        // One place more than there are vCPUs: a reader that learns has two for a moment.
        let publisher = Publisher::new(alloc, view_room(script), setup.vcpus + 1)?;
        let spies = Spies::new(publisher.doors(), setup.vcpus);
        let published = Published {
            machine,
            publisher,
            kept: Vec::new(alloc),
            alloc,
        };
        Ok((published, spies))
    }

    /// Takes the actor's next turn, or kicks a vCPU, and publishes what that changes of what is shown. After `NoMemory`
    /// the turn wasn't taken. It may wait for readers.
    pub fn step<R: Wait>(&mut self, rt: &R, actor: Actor, how: How) -> Result<Outcome, NoMemory>
        requires actor { IsOf self.old.orders.setup actor }
        requires kick { how ≡ How.Kick → IsVcpu actor }
        ensures step { IfOk result (λ outcome. StepsAs self.old self.new actor how outcome) }
        ensures err { OnErr result (self.new ≡ self.old) }
    {
        take_turn(
            rt,
            &mut self.machine,
            &mut self.publisher,
            &mut self.kept,
            actor,
            how,
        )
    }

    /// Lets the spy learn what was published. From now on it sees no earlier view.
    pub fn tell(&mut self, spy: &mut Spy)
        ensures told { IfSome spy.new.known (λ w. w ≡ record { seen = []; told = self.old.published }) }
        ensures spy { spy.new ≡ record spy.old { known = spy.new.known; told_at = length self.old.past } }
        ensures same { self.new ≡ self.old }
    {
        let length_now = self.machine.history().len() as u64;
        spy.learn(&mut self.publisher, length_now);
    }

    /// The machine. What was published is the views of its history.
    pub fn machine(&self) -> &Machine
        ensures machine { result.now ≡ seen_by self.now result.now.room }
        ensures right { Right self.now.orders self.now.past }
        ensures counted { CountedTo self.now.turns self.now.past }
        ensures published { self.now.published ≡ views_of self.now.past }
    {
        &self.machine
    }

    /// Gives up the views and gives back the machine. It may wait for readers.
    pub fn into_machine<R: Wait>(self, rt: &R) -> Machine
        ensures orders { result.orders ≡ self.orders }
        ensures past { result.past ≡ self.past }
        ensures turns { result.turns ≡ self.turns }
        ensures right { Right self.orders self.past }
        ensures counted { CountedTo self.turns self.past }
    {
        let Published {
            machine,
            publisher,
            kept: _kept,
            alloc: _alloc,
        } = self;
        publisher.take(rt);
        machine
    }
}

// Room for the views that the commands of the script's callers make.
fn view_room(script: &Script) -> u32 {
    let mut room: u32 = 0;
    for list in script.callers() {
        let commands = u32::try_from(list.len()).unwrap_or(u32::MAX);
        room = room.saturating_add(commands.saturating_mul(COMMAND_VIEWS));
    }
    room
}
