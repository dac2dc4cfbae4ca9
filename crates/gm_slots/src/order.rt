//! Where slots begin, by rising base.

ghost use Rattle.std.specs.Prelude.{◌≡◌, ℕ, ◌<◌, ◌≤◌, IfSome, IfNone, length, slice_index_or, vec_capacity};
ghost use Rattle.std.specs.List.{Contains};
ghost use Rattle.gm_slots.specs.Order.{Rises, IsLastOther, IsPut, IsTaken};
ghost use Rattle.gm_slots.specs.declared.order.Begin.{Begin};

/// Where a slot begins: its first guest page, and its id.
#[derive(Clone, Copy, Debug, PartialEq, Eq)]
pub(crate) struct Begin {
    pub base: u64,
    pub id: u32,
}

/// How many slots begin at the page or before it.
pub(crate) fn count_begun(order: &[Begin], page: u64) -> usize
    requires { Rises order.now }
    ensures bound { result ≤ length order.now }
    ensures low { (at : ℕ) (d : Begin) → at < result → (slice_index_or order.now at d).base ≤ page }
    ensures high { (at : ℕ) (d : Begin) → result ≤ at → at < length order.now → page < (slice_index_or order.now at d).base }
{
    order.partition_point(|begin| begin.base <= page)
}

/// Of the first so many the last one with another id. No two have one id, so it looks at two at most.
pub(crate) fn last_other(order: &[Begin], count: usize, id: u32) -> Option<Begin>
    requires { count ≤ length order.now }
    ensures some { IfSome result (λ begin. IsLastOther order.now count id begin) }
    ensures none { IfNone result ((at : ℕ) (d : Begin) → at < count → (slice_index_or order.now at d).id ≡ id) }
{
    let mut place = count;
    while place > 0 {
        place -= 1;
        if order[place].id != id {
            return Some(order[place]);
        }
    }
    None
}

/// Puts one more in its place. There is room for it.
pub(crate) fn put_begin(order: &mut Vec<Begin>, begin: Begin)
    requires order { Rises order.old.items }
    requires room { length order.old.items < vec_capacity order.old }
    ensures put { IsPut order.old.items order.new.items begin }
    ensures capacity { vec_capacity order.old ≤ vec_capacity order.new }
{
    let place = count_begun(order, begin.base);
    match order.insert(place, begin) {
        Ok(()) => {}
        Err(_) => unreachable!(),
    }
}

/// Takes away the one that begins where this one does.
pub(crate) fn take_begin(order: &mut Vec<Begin>, begin: Begin)
    requires order { Rises order.old.items }
    requires there { Contains order.old.items begin }
    ensures taken { IsTaken order.old.items order.new.items begin.base }
    ensures capacity { vec_capacity order.new ≡ vec_capacity order.old }
{
    let count = count_begun(order, begin.base);
    order.remove(count - 1);
}
