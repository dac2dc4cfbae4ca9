//! Versions of the text.

/// A version of a history's text.
#[derive(Clone, Copy, Debug, PartialEq, Eq)]
pub enum Version {
    /// A touch of a folio tells its serial alone. There are no marks.
    One,
    /// A touch of a folio tells its serial and its frame. This one is written.
    Two,
}
