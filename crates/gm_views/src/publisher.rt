//! The writer of the views.

use crate::rule::ViewWriter;
use std::marker::Model;

/// The writer. It is not `Drop`: end it by `take`.
pub struct Publisher {
    writer: ViewWriter,
}

impl Model for Publisher {
    ghost use Rattle.left_right.specs.Sides.{view as knowledge};
    ghost use Rattle.gm_views.specs.Doors.{PublisherSeen};
    ghost use Rattle.gm_views.specs.Rules.{IsShown};
    ghost use Rattle.gm_views.specs.Writers.{pending};

    ghost Value = { PublisherSeen };

    ghost view = { λ p. record { published = (knowledge p.writer.desk.place).seen; waiting = pending p.writer; room = p.writer.desk.shown.value.room } };

    ghost invariant = { λ p. IsShown p.writer.desk.shown.value (knowledge p.writer.desk.place).seen };
}

mod steps;
