//! The rule of the views, and its kinds of step: publish, tell, learn and enter.

use crate::shown::{Change, Shown};
use crate::sights::Sight;
use atomic_table::{Join, Split};
use crossbeam_utils::rule::{Outcome, Protocol};
use left_right::reader::Reader;
use left_right::writer::Writer;
use std::collections::LinkedList;

// What a seat of the table knows: the views that it was shown, and those that it was told of, both without the opening.
// No value of it is made.
pub struct Known {
    pub seen: LinkedList<Sight>,
    pub told: LinkedList<Sight>,
}

/// What was published is one list, and each seat knows beginnings of it.
pub struct Rule;

impl Protocol<Shown, Known> for Rule {
    ghost use Rattle.gm_views.specs.Rules.{Keeps, newcomer};

    ghost holds = { Keeps };

    ghost first = { newcomer };
}

/// Enter: a reader is shown all that is published.
pub struct Look;

impl Outcome<Shown, Known> for Look {
    ghost use Rattle.gm_views.specs.Rules.{Looks};

    ghost then = { Looks };
}

/// Publish: the writer adds one view.
pub struct Put;

impl Outcome<Shown, Known> for Put {
    ghost use Rattle.gm_views.specs.Rules.{Puts};

    ghost then = { Puts };
}

/// Tell and learn: a note has what the writer published, and a reader takes it in.
pub struct Note;

impl Split<Known> for Note {
    ghost left = { λ v. v };

    ghost right = { λ v. v };
}

impl Join<Known> for Note {
    ghost use Rattle.gm_views.specs.Rules.{informed, newcomer};

    ghost both = { informed };

    ghost spent = { newcomer };
}

pub type ViewReader = Reader<Shown, Known, Rule>;

pub type ViewWriter = Writer<Shown, Change, Known, Rule>;
