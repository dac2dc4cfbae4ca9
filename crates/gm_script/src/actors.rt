//! Actors as a script names them.

ghost use Rattle.std.specs.Prelude.{◌≡◌, ◌<◌, ◌≤◌};
ghost use Rattle.gm_script.specs.Actors.{named_of, name_vcpu, name_caller};

use crate::numbers::read_digits;
use crate::split::begins;

/// An actor as it is named, by its number among its kind. The setup may not have it.
#[derive(Clone, Copy, Debug, PartialEq, Eq)]
pub enum Named {
    Vcpu(u64),
    Caller(u64),
}

/// The actor that a word names: `v` or `c`, and 1 to 5 decimal digits.
#[tactic(auto, unfolding(crate::specs::Actors::named_of))]
pub fn read_actor(word: &[u8]) -> Option<Named>
    ensures { result ≡ named_of word.now }
{
    if begins(b"v", word) {
        let number = read_digits(10, 5, &word[1..])?;
        return Some(Named::Vcpu(number));
    }
    if begins(b"c", word) {
        let number = read_digits(10, 5, &word[1..])?;
        return Some(Named::Caller(number));
    }
    None
}
