//! A turn, and what it publishes.

ghost use Rattle.std.specs.Prelude.{◌≡◌, ◌∷◌, [], IfOk, OnErr};
ghost use Rattle.gm_base.specs.Scripts.{IsOf};
ghost use Rattle.gm_machine.specs.Steps.{IsVcpu, StepsTo};
ghost use Rattle.gm_machine.specs.Flags.{with_flag};
ghost use Rattle.gm_publish.specs.Kept.{AreTied, change_of};

use gm_base::{Actor, NoMemory};
use gm_machine::{Ahead, How, Machine, Outcome};
use gm_views::{Change, Publisher};
use std::sync::Wait;

/// Takes a turn and publishes what it changes. After `NoMemory` the turn wasn't taken.
pub(super) fn take_turn<R: Wait>(
    rt: &R,
    machine: &mut Machine,
    publisher: &mut Publisher,
    kept: &mut Vec<Change>,
    actor: Actor,
    how: How,
) -> Result<Outcome, NoMemory>
    requires tied { AreTied machine.old publisher.old kept.old.items }
    requires actor { IsOf machine.old.orders.setup actor }
    requires kick { how ≡ How.Kick → IsVcpu actor }
    ensures tied { AreTied machine.new publisher.new kept.new.items }
    ensures step { IfOk result (λ outcome. StepsTo (record machine.old { room = with_flag machine.old.room actor }) machine.new actor how outcome) }
    ensures err { OnErr result ((machine.new ≡ record machine.old { room = machine.new.room }) × (publisher.new.published ≡ publisher.old.published)) }
{
    // As many turns as entries were taken at most, and a list is shorter than 2^63.
    let _entries = machine.history().len();
    machine.make_room(actor)?;
    let Some(ahead) = machine.ahead(actor, how) else {
        return Ok(machine.step(actor, how));
    };
    if publisher.room() == 0 {
        return Err(NoMemory);
    }
    kept.reserve(1)?;
    publisher.append(change_by(&ahead))?;
    let outcome = machine.step(actor, how);
    publisher.publish(rt);
    kept.push_reserved(change_by(&ahead));
    Ok(outcome)
}

// The change of a view that a turn makes.
fn change_by(ahead: &Ahead) -> Change
    ensures { result ≡ change_of ahead.now }
{
    Change {
        position: ahead.at,
        seq: ahead.seq,
        count: ahead.count,
        hull: ahead.hull,
        effect: ahead.effect,
    }
}
