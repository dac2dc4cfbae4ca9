//! The words for values.

ghost use Rattle.std.specs.Prelude.{◌≡◌, ◌++◌, codes};
ghost use Rattle.gm_text.specs.Text.{actor_letter, actor_number, kind_text, level_text, bit_text, huge_text};

use gm_base::{Actor, Kind, Level};

// After a space.
pub fn letter_of(actor: Actor) -> &'static [u8]
    ensures { result.now ≡ codes " " ++ actor_letter actor }
{
    match actor {
        Actor::Vcpu(_) => b" v",
        Actor::Caller(_) => b" c",
    }
}

pub fn number_of(actor: Actor) -> u64
    ensures { result ≡ actor_number actor }
{
    match actor {
        Actor::Vcpu(v) => u64::from(v),
        Actor::Caller(c) => u64::from(c),
    }
}

pub fn kind_word(kind: Kind) -> &'static [u8]
    ensures { result.now ≡ kind_text kind }
{
    match kind {
        Kind::Private => b"private",
        Kind::Shared => b"shared",
    }
}

pub fn level_word(level: Level) -> &'static [u8]
    ensures { result.now ≡ level_text level }
{
    match level {
        Level::Small => b"4k",
        Level::Block => b"2m",
    }
}

pub fn bit_word(bit: bool) -> &'static [u8]
    ensures { result.now ≡ bit_text bit }
{
    if bit { b"1" } else { b"0" }
}

pub fn huge_word(huge: bool) -> &'static [u8]
    ensures { result.now ≡ huge_text huge }
{
    if huge { b"on" } else { b"off" }
}
