//! What a call does to the slots.

ghost use Rattle.std.specs.Prelude.{◌≡◌, ◌≤◌};

/// Nothing, a new slot, the deletion of a slot, or its move to another base.
#[derive(Clone, Copy, Debug, PartialEq, Eq)]
pub enum Change {
    Nothing,
    Make,
    Delete,
    Move,
}

impl Change {
    ghost use Rattle.gm_slots.specs.Changes.{rise_by};

    /// How much the generation rises by it.
    pub(crate) fn rise(self) -> u64
        ensures rise { result ≡ rise_by self }
        ensures bound { result ≤ 1 }
    {
        match self {
            Change::Nothing => 0,
            Change::Make | Change::Delete | Change::Move => 1,
        }
    }
}
