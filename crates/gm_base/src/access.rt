//! Accesses of a vCPU.

ghost use Rattle.std.specs.Prelude.{◌≡◌, ◌+◌, ◌*◌, ◌^◌, ◌<◌, ◌≤◌};
ghost use Rattle.gm_base.specs.Aim.{address_of};

use crate::numbers::{PAGE_BYTES, PAGE_WORDS, WORD_BYTES};
use crate::page::Page;
use crate::values::{Kind, Op};
use std::marker::Model;

/// A read or a write of one word of a guest page. The word is below 512.
#[derive(Clone, Copy, Debug, PartialEq, Eq)]
pub struct Access {
    page: Page,
    word: u16,
    op: Op,
    kind: Kind,
}

impl Model for Access {
    ghost use Rattle.std.specs.Prelude.{ℕ, ◌<◌, ◌≤◌};
    ghost use Rattle.gm_base.specs.declared.numbers.TheConstants.{PAGE_WORDS};
    ghost use Rattle.gm_base.specs.Aim.{Aim};

    ghost Value = { Aim };

    ghost view = { λ a. record { page = a.page; word = a.word; op = a.op; kind = a.kind } };

    ghost invariant = { λ a. a.word < PAGE_WORDS };

    ghost inverse = { λ e. record { page = e.page; word = e.word; op = e.op; kind = e.kind } };
}

impl Access {
    /// The access of this word.
    pub fn new(page: Page, word: u16, op: Op, kind: Kind) -> Access
        requires { word < PAGE_WORDS }
        ensures { result ≡ record { page = page; word = word; op = op; kind = kind } }
    {
        Access {
            page,
            word,
            op,
            kind,
        }
    }

    /// The page that holds the word.
    pub fn page(self) -> Page
        ensures { result ≡ self.page }
    {
        self.page
    }

    /// The word's number in its page, below 512.
    pub fn word(self) -> u16
        ensures word { result ≡ self.word }
        ensures bound { result < PAGE_WORDS }
    {
        self.word
    }

    /// What is done to the word.
    pub fn op(self) -> Op
        ensures { result ≡ self.op }
    {
        self.op
    }

    /// The kind of the access.
    pub fn kind(self) -> Kind
        ensures { result ≡ self.kind }
    {
        self.kind
    }

    /// The guest address of the word, in bytes.
    pub fn address(self) -> u64
        ensures { result ≡ address_of self }
    {
        PAGE_BYTES * self.page.number() + WORD_BYTES * u64::from(self.word)
    }
}
