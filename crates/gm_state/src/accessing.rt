//! Accesses of what is mapped.

ghost use Rattle.std.specs.Prelude.{◌≡◌, ℕ, ◌<◌, ◌≤◌, Some, length};
ghost use Rattle.gm_base.specs.Aim.{Aim};
ghost use Rattle.gm_base.specs.declared.numbers.TheConstants.{PAGE_WORDS};
ghost use Rattle.gm_base.specs.declared.values.Folio.{Folio as OneFolio};
ghost use Rattle.gm_base.specs.declared.values.Setup.{Setup};
ghost use Rattle.gm_flat.specs.RightLives.{frame_of};
ghost use Rattle.gm_flat.specs.RightTouch.{IsValue};
ghost use Rattle.gm_flat.specs.declared.effect.Backing.TheVariants.{User, Folio as InFolio};
ghost use Rattle.gm_state.specs.Accessing.{CanAccess, accessed, word_at};
ghost use Rattle.gm_state.specs.Stand.{Memory, StateIs};

use crate::state::State;
use gm_base::{Access, Folio, Op};
use gm_flat::Backing;

impl State {
    /// The serial of the live folio in a frame.
    pub fn serial_of(&self, frame: u32) -> Option<u64>
        ensures { (s : Setup) (m : Memory) (serial : ℕ) → StateIs s self.now m → frame_of serial m.stored.flat.folios ≡ Some frame → result ≡ Some serial }
    {
        self.store.serial_of(frame)
    }

    /// Reads the access's word of a user page of the machine or of a live folio, or writes it. Answers the word afterwards.
    pub fn access(&mut self, backing: Backing, access: Access) -> u64
        requires { (s : Setup) × (m : Memory) × CanAccess s self.old m backing }
        ensures value { (s : Setup) (m : Memory) → CanAccess s self.old m backing → IsValue access.op (word_at backing access.word m) result }
        ensures is { (s : Setup) (m : Memory) → CanAccess s self.old m backing → StateIs s self.new (accessed access backing m) }
        ensures slots { self.new.slots ≡ self.old.slots }
    {
        match backing {
            Backing::User(page) => self.access_user(page, access),
            Backing::Folio(folio) => self.access_folio(folio, access),
        }
    }

    fn access_user(&mut self, page: u64, access: Access) -> u64
        requires { (s : Setup) × (m : Memory) × CanAccess s self.old m (User page) }
        ensures value { (s : Setup) (m : Memory) → CanAccess s self.old m (User page) → IsValue access.op (m.user_words page access.word) result }
        ensures is { (s : Setup) (m : Memory) → CanAccess s self.old m (User page) → StateIs s self.new (accessed access (User page) m) }
        ensures slots { self.new.slots ≡ self.old.slots }
    {
        let _pages = self.user.pages();
        let word = access.word();
        match access.op() {
            Op::Read => self.user.read(page as u32, word),
            Op::Write(value) => {
                self.user.write(page as u32, word, value);
                value
            }
        }
    }

    fn access_folio(&mut self, folio: Folio, access: Access) -> u64
        requires { (s : Setup) × (m : Memory) × CanAccess s self.old m (InFolio folio) }
        ensures value { (s : Setup) (m : Memory) → CanAccess s self.old m (InFolio folio) → IsValue access.op (m.stored.words folio.serial access.word) result }
        ensures is { (s : Setup) (m : Memory) → CanAccess s self.old m (InFolio folio) → StateIs s self.new (accessed access (InFolio folio) m) }
        ensures slots { self.new.slots ≡ self.old.slots }
    {
        let word = access.word();
        match access.op() {
            Op::Read => self.store.read(folio.frame, word),
            Op::Write(value) => {
                self.store.write(folio.frame, word, value);
                value
            }
        }
    }
}
