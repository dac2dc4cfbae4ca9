//! What plans promise.

ghost use Rattle.gm_base.specs.declared.calls.Ioctl.{Ioctl};
ghost use Rattle.gm_base.specs.declared.values.Setup.{Setup};
ghost use Rattle.gm_flat.specs.Calls.{plan};
ghost use Rattle.gm_flat.specs.FlatState.{Flat};
ghost use Rattle.gm_state.specs.Promised.{Promised};

/// The effect of a plan is one of its call, and can be made over the state in which the call is judged.
pub fn plans_keep_their_promises()
    ensures { (s : Setup) (i : Ioctl) (f : Flat) → Promised s i f (plan s i f) }
{}
