//! What readers do.

ghost use Rattle.std.specs.Prelude.{◌≡◌, [], None, Some, MatchResult, IfSome, IfNone, OnSome, IsSomeAnd};
ghost use Rattle.std.specs.Arc.{arc_value};
ghost use Rattle.left_right.specs.Sides.{view};
ghost use Rattle.gm_views.specs.Doors.{Enters, Rose};
ghost use Rattle.gm_views.specs.Glimpses.{Shows};
ghost use Rattle.gm_views.specs.Rules.{newcomer, informed};
ghost use Rattle.gm_views.specs.Writers.{pending};

use super::{Door, Doors, Glimpse};
use crate::rule::{Known, Look, Note, Rule, ViewReader, ViewWriter};
use crate::shown::Shown;
use gm_base::Page;
use left_right::reader::Factory;

impl Doors {
    pub(crate) fn over(from: Option<Factory<Shown, Known, Rule>>) -> Doors
        ensures { result ≡ 0 }
    {
        Doors { from, refused: 0 }
    }

    /// Makes a reader, which was told of nothing. None comes only where the count of the refused rose.
    pub fn open(&mut self) -> Option<Door>
        ensures some { IfSome result (λ d. d ≡ record { refused = 0; known = Some newcomer }) }
        ensures count { OnSome result (self.new ≡ self.old) }
        ensures none { IfNone result (Rose self.old self.new) }
    {
        if let Some(from) = &self.from {
            if let Ok(reader) = from.reader() {
                return Some(Door {
                    reader: Some(reader),
                    refused: 0,
                });
            }
        }
        self.refused = self.refused.saturating_add(1);
        None
    }

    /// How many readers were refused, at most 2^64 - 1.
    pub fn refused(&self) -> u64
        ensures { result ≡ self.now }
    {
        self.refused
    }
}

// One look at what is published.
fn look(reader: ViewReader, page: Page) -> (ViewReader, Option<Glimpse>)
    ensures some { IfSome result.1 (λ g. Shows g page (view result.0.place) × Enters (view reader.place) (view result.0.place)) }
    ensures none { IfNone result.1 (view result.0.place ≡ view reader.place) }
{
    match reader.enter_as::<Look>() {
        Ok(reading) => {
            let shown = reading.get();
            let glimpse = Glimpse {
                view: shown.number,
                at: shown.position,
                seq: shown.seq,
                slot: shown.slot_at(page),
                attr: shown.kind_at(page),
            };
            (reading.leave(), Some(glimpse))
        }
        Err(reader) => (reader, None),
    }
}

impl Door {
    /// Looks at what is published now. None comes only where the count of the refused rose.
    pub fn enter(&mut self, page: Page) -> Option<Glimpse>
        ensures some { IfSome result (λ g. IsSomeAnd self.old.known (λ v. IsSomeAnd self.new.known (λ w. Shows g page w × Enters v w))) }
        ensures count { OnSome result (self.new.refused ≡ self.old.refused) }
        ensures none { IfNone result (Rose self.old.refused self.new.refused × (self.new.known ≡ self.old.known)) }
    {
        let Some(reader) = self.reader.take() else {
            self.refused = self.refused.saturating_add(1);
            return None;
        };
        let (reader, glimpse) = look(reader, page);
        self.reader = Some(reader);
        if glimpse.is_none() {
            self.refused = self.refused.saturating_add(1);
        }
        glimpse
    }

    // Takes in what the writer has published, by a reader of its own: an old one can't be shown to be of the same table.
    // Where it gets none it is shut, and its next look is refused.
    pub(crate) fn learn(&mut self, writer: &mut ViewWriter)
        ensures known { IfSome self.new.known (λ w. w ≡ informed newcomer (view writer.old.desk.place)) }
        ensures count { self.new.refused ≡ self.old.refused }
        ensures writer { (writer.new.desk.shown ≡ writer.old.desk.shown) × (pending writer.new ≡ pending writer.old) × (view writer.new.desk.place ≡ view writer.old.desk.place) }
    {
        self.reader = None;
        if let Ok(mut reader) = writer.factory().reader() {
            reader.learn::<Note>(writer.tell::<Note>());
            self.reader = Some(reader);
        }
    }

    /// Gives up its reader. Its next look is refused.
    pub fn shut(&mut self)
        ensures { self.new ≡ record { refused = self.old.refused; known = None } }
    {
        self.reader = None;
    }

    /// How often it was refused, at most 2^64 - 1.
    pub fn refused(&self) -> u64
        ensures { result ≡ self.now.refused }
    {
        self.refused
    }
}
