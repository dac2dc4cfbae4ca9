//! How a line is drawn.

ghost use Rattle.std.specs.Prelude.{◌≡◌};
ghost use Rattle.gm_gen.specs.Workload.{access_drawn, command_by, command_drawn, conversion_drawn, hole_drawn, kind_drawn, population_drawn, turn_drawn};

use crate::draws::Draws;
use crate::line::{Call, Line};
use gm_base::{Kind, PAGE_BYTES, WORD_BYTES};

/// The pages of accesses end below this.
const ACCESS_PAGES: u64 = 6144;

/// The first pages of conversions and populations end below this.
const CALL_PAGES: u64 = 6000;

impl Draws {
    /// Draws a command: five in eight are accesses.
    pub fn command(&mut self) -> Line
        ensures line { result ≡ (command_drawn self.old.x).line }
        ensures x { self.new.x ≡ (command_drawn self.old.x).x }
    {
        let what = self.draw(8);
        self.command_by(what)
    }

    // Draws what a command has, after the draw that says what it is.
    fn command_by(&mut self, what: u64) -> Line
        ensures line { result ≡ (command_by what self.old.x).line }
        ensures x { self.new.x ≡ (command_by what self.old.x).x }
    {
        if what < 5 {
            self.access()
        } else if what == 5 {
            self.conversion()
        } else if what == 6 {
            self.hole()
        } else {
            self.population()
        }
    }

    /// Draws a turn: four in eight are of the vCPU with that number.
    pub fn turn(&mut self) -> Line
        ensures line { result ≡ (turn_drawn self.old.x).line }
        ensures x { self.new.x ≡ (turn_drawn self.old.x).x }
    {
        match self.draw(8) {
            vcpu @ 0..=3 => Line::Turn { vcpu },
            4 => Line::CallerTurn { caller: 0 },
            5 => Line::CallerTurn { caller: 1 },
            6 => Line::Kick { vcpu: self.draw(4) },
            _ => Line::Turn { vcpu: self.draw(4) },
        }
    }

    // An access, after the draw that says so.
    fn access(&mut self) -> Line
        ensures line { result ≡ (access_drawn self.old.x).line }
        ensures x { self.new.x ≡ (access_drawn self.old.x).x }
    {
        let vcpu = self.draw(4);
        let writes = self.draw(2);
        let kind = kind_of(self.draw(2));
        let page = self.draw(ACCESS_PAGES);
        let gpa = PAGE_BYTES * page + WORD_BYTES * self.draw(512);
        if writes == 0 {
            return Line::Read { vcpu, kind, gpa };
        }
        let value = self.draw(1_000_000);
        Line::Write {
            vcpu,
            kind,
            gpa,
            value,
        }
    }

    // A conversion, after the draw that says so.
    fn conversion(&mut self) -> Line
        ensures line { result ≡ (conversion_drawn self.old.x).line }
        ensures x { self.new.x ≡ (conversion_drawn self.old.x).x }
    {
        let caller = self.draw(2);
        let address = PAGE_BYTES * self.draw(CALL_PAGES);
        let size = PAGE_BYTES * (1 + self.draw(64));
        let attributes = 8 * self.draw(2);
        Line::Call {
            caller,
            call: Call::Attrs {
                address,
                size,
                attributes,
            },
        }
    }

    // A hole, after the draw that says so.
    fn hole(&mut self) -> Line
        ensures line { result ≡ (hole_drawn self.old.x).line }
        ensures x { self.new.x ≡ (hole_drawn self.old.x).x }
    {
        let caller = self.draw(2);
        let file = self.draw(2);
        let offset = PAGE_BYTES * self.draw(2000);
        let length = PAGE_BYTES * (1 + self.draw(16));
        Line::Call {
            caller,
            call: Call::Punch {
                file,
                offset,
                length,
            },
        }
    }

    // A population, after the draw that says so.
    fn population(&mut self) -> Line
        ensures line { result ≡ (population_drawn self.old.x).line }
        ensures x { self.new.x ≡ (population_drawn self.old.x).x }
    {
        let caller = self.draw(2);
        let gpa = PAGE_BYTES * self.draw(CALL_PAGES);
        let pages = 1 + self.draw(4);
        Line::Call {
            caller,
            call: Call::Populate { gpa, pages },
        }
    }
}

fn kind_of(drawn: u64) -> Kind
    ensures { result ≡ kind_drawn drawn }
{
    if drawn == 0 {
        Kind::Private
    } else {
        Kind::Shared
    }
}
