//! What holds of the turns of a machine.

ghost use Rattle.std.specs.Prelude.{◌≡◌, ℕ, List, false, reverse};
ghost use Rattle.gm_base.specs.Scripts.{Orders};
ghost use Rattle.gm_base.specs.declared.script.Command.{Command};
ghost use Rattle.gm_base.specs.declared.script.Turn.{Turn};
ghost use Rattle.gm_base.specs.declared.values.Actor.{Actor};
ghost use Rattle.gm_flat.specs.Histories.{gone};
ghost use Rattle.gm_flat.specs.Plays.{Plays};
ghost use Rattle.gm_flat.specs.RightHistory.{Right};
ghost use Rattle.gm_flat.specs.declared.entry.Entry.{Entry};
ghost use Rattle.gm_machine.specs.Blockers.{BlockerGoesOn};
ghost use Rattle.gm_machine.specs.Played.{PlaysTurns};
ghost use Rattle.gm_machine.specs.Steps.{Seen};
ghost use Rattle.gm_turns.specs.Pushing.{with_command};
ghost use Rattle.gm_turns.specs.Waiting.{WaitsOn};
ghost use Rattle.gm_turns.specs.declared.outcome.Blocker.{Blocker};

/// A history of turns that were taken one after another, as `Machine::step` takes them, plays the list of the turns.
#[tactic(auto, using(crate::proofs::Playing::plays_turns))]
pub fn turns_play()
    ensures { (o : Orders) (turns : List Turn) (past : List Entry) → PlaysTurns o (reverse turns) past → Plays o turns past }
{}

/// Whom an actor waits for can go on. Where it waits for a lock, a call of the holder is in progress, and no turn of the
/// holder waits for a lock. Where it waits for a vCPU, a flush of that is pending, so a kick of it moves.
#[tactic(auto, using(crate::proofs::GoingOn::blocker_goes_on))]
pub fn blockers_can_go_on()
    ensures { (m : Seen) (actor : Actor) (blocker : Blocker) → Right m.orders m.past → WaitsOn m.orders actor blocker m.past → BlockerGoesOn m blocker }
{}

/// A right history stays right where an actor that hasn't written `gone` is given a command more.
pub fn pushes_keep_right()
    ensures { (o : Orders) (actor : Actor) (command : Command) (past : List Entry) → gone actor past ≡ false → Right o past → Right (with_command o actor command) past }
{}
