//! The ids of slots by age, the one added last last.

ghost use Rattle.std.specs.Prelude.{◌≡◌, ℕ, ◌<◌, ◌≤◌, ◌++◌, ◌∷◌, [], length, slice_index_or, vec_capacity};
ghost use Rattle.std.specs.List.{Contains};

/// The place of an id. It begins with the one added last, so it looks at as many as a removal moves.
pub(crate) fn place_of(ages: &[u32], id: u32) -> usize
    requires { Contains ages.now id }
    ensures bound { result < length ages.now }
    ensures is { (d : ℕ) → slice_index_or ages.now result d ≡ id }
{
    let mut place = ages.len();
    while place > 0 {
        place -= 1;
        if ages[place] == id {
            return place;
        }
    }
    unreachable!()
}

/// Puts an id after the others. There is room for it.
pub(crate) fn put_last(ages: &mut Vec<u32>, id: u32)
    requires { length ages.old.items < vec_capacity ages.old }
    ensures items { ages.new.items ≡ ages.old.items ++ id ∷ [] }
    ensures capacity { vec_capacity ages.old ≤ vec_capacity ages.new }
{
    match ages.push(id) {
        Ok(()) => {}
        Err(_) => unreachable!(),
    }
}
