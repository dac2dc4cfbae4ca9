//! What the last change left to be freed.

ghost use Rattle.std.specs.Prelude.{◌≡◌};

use crate::state::State;
use gm_base::Folio;

impl State {
    /// The folios that the last change left to be freed, with their indexes, in order of index.
    pub fn freed(&self) -> &[(u64, Folio)]
        ensures { result.now ≡ self.now.freed.list }
    {
        self.freed.list()
    }
}
