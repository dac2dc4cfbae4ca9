//! Why bytes form no script.

ghost use Rattle.std.specs.Prelude.{◌≡◌};

use gm_base::NoMemory;
use thiserror::Error;

/// The causes for which a line is bad, in the order in which they are judged.
///
/// - `Bytes`: a byte isn't one of 32 to 126.
/// - `Cut`: the line isn't empty and has no newline at its end.
/// - `Machine`: the first line that isn't skipped hasn't the six words of `machine` with their names, or a later one
///   begins with `machine`.
/// - `Word`: the first word is unknown, the count of words isn't the form's, or a word that must be one of a list, or an
///   actor of the form's kind, isn't.
/// - `Number`: a number isn't one, or is too great for its field.
/// - `Actor`: an actor's number isn't below the setup's count.
/// - `Align`: the guest address of an access isn't a multiple of 8.
/// - `Limit`: a number of `machine` is outside the limits, or the line makes the commands or turns too many.
#[derive(Clone, Copy, Debug, PartialEq, Eq)]
pub enum Cause {
    Bytes,
    Cut,
    Machine,
    Word,
    Number,
    Actor,
    Align,
    Limit,
}

/// A script wasn't read: its first bad line, numbered from 1, with its cause; or memory ran out.
#[derive(Clone, Copy, Debug, PartialEq, Eq, Error)]
pub enum ScriptError {
    #[error("line {line} is bad")]
    BadLine { line: u64, cause: Cause },
    #[error("out of memory")]
    NoMemory,
}

impl From<NoMemory> for ScriptError {
    ghost use Rattle.gm_script.specs.declared.error.ScriptError.TheVariants.{NoMemory as want};

    ghost from_gives = { λ _ e. e ≡ want };

    fn from(_error: NoMemory) -> ScriptError {
        ScriptError::NoMemory
    }
}
