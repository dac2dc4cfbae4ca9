//! In which order the indexes come.

ghost use Rattle.std.specs.Prelude.{◌≡◌, ◌<◌};
ghost use Rattle.gm_speed.specs.Places.{place_of};

/// The most operations of a run. Each index is below this.
pub const LARGEST: u32 = 65_536;

// Odd, so that its multiples take each remainder by 65,536 once.
const STRIDE: u32 = 40_503;

/// Indexes one after another, or spread over all of them.
#[derive(Clone, Copy, Debug, PartialEq, Eq)]
pub enum Order {
    Rising,
    Random,
}

impl Order {
    /// The index of a step, below 65,536.
    pub fn place(self, step: u32) -> u32
        requires { step < LARGEST }
        ensures place { result ≡ place_of self step }
        ensures bound { result < LARGEST }
    {
        match self {
            Order::Rising => step,
            Order::Random => step * STRIDE % LARGEST,
        }
    }

    /// Its word.
    pub fn name(self) -> &'static str {
        match self {
            Order::Rising => "rising",
            Order::Random => "random",
        }
    }
}
