//! The items of a flat state.

ghost use Rattle.std.specs.Prelude.{◌≡◌, false, nat_eq};
ghost use Rattle.gm_base.specs.Extent.{holds};
ghost use Rattle.gm_flat.specs.FlatState.{is_triple};
ghost use Rattle.gm_flat.specs.Effects.{is_cut};

use gm_base::{Folio, Kind, Span};
use std::marker::Model;

/// A call that set an attribute.
#[derive(Clone, Copy, Debug, PartialEq, Eq)]
pub(crate) struct AttrCall {
    pub(crate) span: Span,
    pub(crate) kind: Kind,
}

impl Model for AttrCall {
    ghost use Rattle.gm_flat.specs.FlatState.{AttrCall};

    ghost Value = { AttrCall };

    ghost view = { λ c. record { span = c.span; kind = c.kind } };

    ghost inverse = { λ c. record { span = c.span; kind = c.kind } };
}

impl AttrCall {
    /// Whether it set the attribute of a page.
    pub(crate) fn holds(&self, page: u64) -> bool
        ensures { result ≡ holds self.now.span page }
    {
        self.span.holds(page)
    }

    /// The attribute that it set.
    pub(crate) fn kind(&self) -> Kind
        ensures { result ≡ self.now.kind }
    {
        self.kind
    }
}

/// A file that was made: its number, its size in pages, whether it is a BLOCK file, and whether it is in use or shut.
#[derive(Clone, Copy, Debug, PartialEq, Eq)]
pub(crate) struct FileState {
    pub(crate) number: u32,
    pub(crate) pages: u64,
    pub(crate) block: bool,
    pub(crate) used: bool,
}

impl Model for FileState {
    ghost use Rattle.gm_flat.specs.FlatState.{FileState};

    ghost Value = { FileState };

    ghost view = { λ f. record { number = f.number; pages = f.pages; block = f.block; used = f.used } };

    ghost inverse = { λ f. record { number = f.number; pages = f.pages; block = f.block; used = f.used } };
}

impl FileState {
    /// Whether it has the number.
    pub(crate) fn is(&self, number: u32) -> bool
        ensures { result ≡ nat_eq self.now.number number }
    {
        self.number == number
    }

    /// The file, shut.
    pub(crate) fn shut(self) -> FileState
        ensures { result ≡ record self { used = false } }
    {
        FileState {
            number: self.number,
            pages: self.pages,
            block: self.block,
            used: false,
        }
    }
}

/// An index of a file that has a folio.
#[derive(Clone, Copy, Debug, PartialEq, Eq)]
pub(crate) struct CachedPage {
    pub(crate) file: u32,
    pub(crate) index: u64,
    pub(crate) folio: Folio,
}

impl Model for CachedPage {
    ghost use Rattle.gm_flat.specs.FlatState.{Triple};

    ghost Value = { Triple };

    ghost view = { λ t. record { file = t.file; index = t.index; folio = t.folio } };

    ghost inverse = { λ t. record { file = t.file; index = t.index; folio = t.folio } };
}

impl CachedPage {
    /// Whether it is at the index of the file.
    pub(crate) fn is_at(&self, file: u32, index: u64) -> bool
        ensures { result ≡ is_triple file index self.now }
    {
        self.file == file && self.index == index
    }

    /// Whether it is at an index of the file from `lo` on and below `hi`.
    pub(crate) fn is_within(&self, file: u32, lo: u64, hi: u64) -> bool
        ensures { result ≡ is_cut file lo hi self.now }
    {
        self.file == file && lo <= self.index && self.index < hi
    }

    /// Whether it is of the file.
    pub(crate) fn is_of(&self, file: u32) -> bool
        ensures { result ≡ nat_eq self.now.file file }
    {
        self.file == file
    }

    /// The folio.
    pub(crate) fn folio(&self) -> Folio
        ensures { result ≡ self.now.folio }
    {
        self.folio
    }
}
