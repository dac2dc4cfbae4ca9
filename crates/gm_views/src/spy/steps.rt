//! What a spy does.

ghost use Rattle.std.specs.Prelude.{◌≡◌, [], None, Some, length, IfSome, IfNone, IsSomeAnd};
ghost use Rattle.gm_flat.specs.Attribute.{attr_of};
ghost use Rattle.gm_flat.specs.Slots.{slot_over};
ghost use Rattle.gm_views.specs.Doors.{Rose};
ghost use Rattle.gm_views.specs.Rules.{newcomer};
ghost use Rattle.gm_views.specs.Sights.{sight_at};
ghost use Rattle.gm_views.specs.Spies.{Answers, Names};

use super::Spy;
use crate::doors::{Door, Glimpse};
use crate::publisher::Publisher;
use gm_base::Page;
use gm_flat::{Looked, Sampled};

impl Spy {
    /// A reader that was told of nothing.
    pub(crate) fn new(door: Door) -> Spy
        requires { door.known ≡ Some newcomer }
        ensures { result ≡ record { refused = door.refused; known = door.known; told_at = 0; last = 0; at = 0 } }
    {
        Spy {
            door,
            told_at: 0,
            last: 0,
            at: 0,
        }
    }

    /// Takes in what the publisher has published, when the history has this length.
    pub fn learn(&mut self, publisher: &mut Publisher, length_now: u64)
        ensures told { IfSome self.new.known (λ w. w ≡ record { seen = []; told = publisher.old.published }) }
        ensures same { self.new ≡ record self.old { known = self.new.known; told_at = length_now } }
        ensures publisher { publisher.new ≡ publisher.old }
    {
        publisher.tell(&mut self.door);
        self.told_at = length_now;
        // Neither happens, since histories and lists of views only grow. The reader doesn't know that.
        if publisher.last() < self.last || length_now < self.at {
            self.door.shut();
        }
    }

    // One look, and the position that it stands for.
    fn glimpse(&mut self, asked_at: u64, page: Page) -> Option<Glimpse>
        requires { asked_at ≡ self.old.told_at }
        ensures some { IfSome result (λ g. IsSomeAnd self.old.known (λ v. IsSomeAnd self.new.known (λ w. Answers self.old self.new v w g.view g.at asked_at × Names (sight_at w.seen g.view) page g))) }
        ensures none { IfNone result (Rose self.old.refused self.new.refused × (self.new ≡ record self.old { refused = self.new.refused })) }
    {
        let seen = self.door.enter(page)?;
        let at = seen.at.max(asked_at);
        self.last = seen.view;
        self.at = at;
        Some(Glimpse { at, ..seen })
    }

    /// Samples the sequence. It takes no memory and waits for nobody. None comes only where the count of the refused rose.
    pub fn sample(&mut self, asked_at: u64) -> Option<Sampled>
        requires { asked_at ≡ self.old.told_at }
        ensures some { IfSome result (λ s. IsSomeAnd self.old.known (λ v. IsSomeAnd self.new.known (λ w. Answers self.old self.new v w self.new.last s.at asked_at × (s.seq ≡ (sight_at w.seen self.new.last).seq)))) }
        ensures none { IfNone result (Rose self.old.refused self.new.refused × (self.new ≡ record self.old { refused = self.new.refused })) }
    {
        let seen = self.glimpse(asked_at, first_page())?;
        Some(Sampled {
            at: seen.at,
            seq: seen.seq,
        })
    }

    /// Looks the page up. It takes no memory and waits for nobody. None comes only where the count of the refused rose.
    pub fn look(&mut self, asked_at: u64, page: Page) -> Option<Looked>
        requires { asked_at ≡ self.old.told_at }
        ensures some { IfSome result (λ s. IsSomeAnd self.old.known (λ v. IsSomeAnd self.new.known (λ w. Answers self.old self.new v w self.new.last s.at asked_at × (s.slot ≡ slot_over (sight_at w.seen self.new.last).slots page) × (s.attr ≡ attr_of page (sight_at w.seen self.new.last).calls)))) }
        ensures none { IfNone result (Rose self.old.refused self.new.refused × (self.new ≡ record self.old { refused = self.new.refused })) }
    {
        let seen = self.glimpse(asked_at, page)?;
        Some(Looked {
            at: seen.at,
            slot: seen.slot,
            attr: seen.attr,
        })
    }

    /// The length of the history when it was told last.
    pub fn told_at(&self) -> u64
        ensures { result ≡ self.now.told_at }
    {
        self.told_at
    }

    /// How often it was refused, at most 2^64 - 1.
    pub fn refused(&self) -> u64
        ensures { result ≡ self.now.refused }
    {
        self.door.refused()
    }
}

// A sample looks up no page; an `enter` needs one.
fn first_page() -> Page
    ensures { result ≡ 0 }
{
    match Page::new(0) {
        Some(page) => page,
        None => unreachable!(),
    }
}
