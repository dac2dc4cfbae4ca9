//! What the words of this crate mean in those of the flat state.

ghost use Rattle.gm_flat.specs.declared.effect.Effect.{Effect};
ghost use Rattle.gm_flat.specs.FlatState.{Flat};
ghost use Rattle.gm_views.specs.Follows.{FindsRoom, FollowsFlat};

/// What a change does to the slots and the attribute calls of a view is what the definitions say of the flat state,
/// wherever the flat state asks for nothing that isn't there, and a new slot or one that moves finds room.
pub fn views_follow_the_flat_state()
    ensures { (e : Effect) (f : Flat) → FindsRoom e f → FollowsFlat e f }
{}
