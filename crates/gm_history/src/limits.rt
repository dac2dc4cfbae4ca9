//! Limits.

/// The most bytes of a history that the program reads.
pub const MOST_HISTORY_BYTES: usize = 134_217_728;
