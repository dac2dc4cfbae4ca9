//! Why bytes are no history, and why they weren't brought up.

ghost use Rattle.std.specs.Prelude.{◌≡◌};

use gm_base::NoMemory;
use thiserror::Error;

/// Bytes weren't read: they aren't the text of a history, and this is their bad line, numbered from 1; or memory ran
/// out.
#[derive(Clone, Copy, Debug, PartialEq, Eq, Error)]
pub enum HistoryError {
    #[error("line {line} is bad")]
    BadText { line: u64 },
    #[error("out of memory")]
    NoMemory,
}

impl From<NoMemory> for HistoryError {
    ghost use Rattle.gm_history.specs.declared.error.HistoryError.TheVariants.{NoMemory as want};

    ghost from_gives = { λ _ e. e ≡ want };

    fn from(_error: NoMemory) -> HistoryError {
        HistoryError::NoMemory
    }
}

/// Bytes weren't brought up: they aren't the text of a history in version 1, and this is their bad line, numbered from
/// 1; the sink failed; or memory ran out.
#[derive(Clone, Copy, Debug, PartialEq, Eq, Error)]
pub enum MigrateError {
    #[error("line {line} is bad")]
    BadText { line: u64 },
    #[error("the sink failed")]
    Failed,
    #[error("out of memory")]
    NoMemory,
}
