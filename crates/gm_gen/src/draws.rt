//! Numbers that are drawn one after another.

ghost use Rattle.std.specs.Prelude.{◌≡◌, ◌<◌};
ghost use Rattle.gm_gen.specs.Draws.{next, picked};

/// What x is multiplied by at each draw.
pub const MULTIPLIER: u64 = 6_364_136_223_846_793_005;

/// What is added to x then.
pub const INCREMENT: u64 = 1_442_695_040_888_963_407;

/// A generator of numbers, by its x. A number always begins the same row of draws.
#[derive(Drop)]
pub struct Draws {
    pub x: u64,
}

impl Draws {
    /// The next number, below `n`.
    pub fn draw(&mut self, n: u64) -> u64
        requires { 0 < n }
        ensures next { self.new.x ≡ next self.old.x }
        ensures picked { result ≡ picked n self.new.x }
        ensures below { result < n }
    {
        self.x = self.x.wrapping_mul(MULTIPLIER).wrapping_add(INCREMENT);
        (self.x >> 33) % n
    }
}
