//! What frames are used for.

ghost use Rattle.std.specs.Prelude.{◌≡◌, ◌<◌, ◌-◌, ◌^◌};

/// The use of a frame by a live folio.
#[derive(Clone, Copy, Debug, PartialEq, Eq)]
pub struct Use {
    /// The folio's serial.
    pub serial: u64,
    /// How many faults hold it.
    pub holds: u32,
    /// Whether a file's cache has it.
    pub cached: bool,
}

/// Whether a folio that lost a hold or left its cache is freed at once, or later as others still need it.
#[derive(Clone, Copy, Debug, PartialEq, Eq)]
pub enum Freed {
    Now,
    Later,
}

impl Use {
    ghost use Rattle.gm_pool.specs.Pools.{one_more, one_less, uncached, is_idle};

    /// The same with one hold more.
    pub(crate) fn with_one_more(self) -> Use
        requires { self.holds < 2 ^ 32 - 1 }
        ensures { result ≡ one_more self }
    {
        Use {
            holds: self.holds + 1,
            ..self
        }
    }

    /// The same with one hold less.
    pub(crate) fn with_one_less(self) -> Use
        requires { 0 < self.holds }
        ensures { result ≡ one_less self }
    {
        Use {
            holds: self.holds - 1,
            ..self
        }
    }

    /// The same in no cache.
    pub(crate) fn uncached(self) -> Use
        ensures { result ≡ uncached self }
    {
        Use {
            cached: false,
            ..self
        }
    }

    /// Whether it is neither cached nor held.
    pub(crate) fn is_idle(self) -> bool
        ensures { result ≡ is_idle self }
    {
        self.holds == 0 && !self.cached
    }
}
