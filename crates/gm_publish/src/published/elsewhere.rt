//! What changes leave of a page's look. No function here takes memory.

ghost use Rattle.std.specs.Prelude.{◌≡◌, ℕ, IfSome, IsTrue, List, None, Some, fold};
ghost use Rattle.gm_flat.specs.Attribute.{attr_of};
ghost use Rattle.gm_flat.specs.Slots.{slot_over};
ghost use Rattle.gm_slots.specs.Good.{Good};
ghost use Rattle.gm_views.specs.Follows.{sight_slots, slots_after};
ghost use Rattle.gm_views.specs.Shows.{changed, shown_after};
ghost use Rattle.gm_views.specs.declared.sights.Sight.{Sight};

use gm_base::{Kind, Page};
use gm_flat::{Effect, SlotView};
use gm_views::Change;

/// Whether what lies over any page after these changes, if it is this, lay there before them too, where the slots
/// before them had no two of one id or one page.
pub(super) fn leave_slot(changes: &[Change], slot: Option<SlotView>) -> bool
    ensures { IsTrue result → (page : ℕ) (s : Sight) → Good s.slots → slot_over (fold changed s changes.now).slots page ≡ slot → slot_over s.slots page ≡ slot }
{
    for change in changes {
        if !leaves_slot(change, slot) {
            return false;
        }
    }
    true
}

/// Whether none of these changes, one after another, touches the page's attribute.
pub(super) fn leave_attribute(changes: &[Change], page: Page) -> bool
    ensures { IsTrue result → (s : Sight) → attr_of page (fold changed s changes.now).calls ≡ attr_of page s.calls }
{
    for change in changes {
        if kind_set(change, page).is_some() {
            return false;
        }
    }
    true
}

/// The page's attribute after these changes of the opening: that of the newest call whose span holds the page. It walks
/// back to that call.
pub(super) fn attribute_after(changes: &[Change], page: Page) -> Kind
    ensures { result ≡ attr_of page (shown_after changes.now).calls }
{
    let mut count = changes.len();
    while count > 0 {
        if let Some(kind) = kind_set(&changes[count - 1], page) {
            return kind;
        }
        count -= 1;
    }
    Kind::Shared
}

// Whether what lies over any page after the change, if it is this, lay there before it too.
fn leaves_slot(change: &Change, slot: Option<SlotView>) -> bool
    ensures { IsTrue result → (page : ℕ) (slots : List SlotView) → Good slots → slot_over (sight_slots change.now.effect slots) page ≡ slot → slot_over slots page ≡ slot }
{
    let Some(effect) = change.effect else {
        return true;
    };
    match slot {
        Some(slot) => leaves_it(&effect, slot),
        None => leaves_none(&effect),
    }
}

// Whether a slot that lies over any page after the effect lay there before it, just as it is: the effect doesn't make,
// mark or move it, nor may it have shut its file.
#[tactic(auto, using(crate::proofs::Before::before_add, crate::proofs::Before::before_mark, crate::proofs::Before::before_move, crate::proofs::Before::before_drop, crate::proofs::Before::before_shut))]
fn leaves_it(effect: &Effect, slot: SlotView) -> bool
    ensures { IsTrue result → (page : ℕ) (slots : List SlotView) → Good slots → slot_over (slots_after effect.now slots) page ≡ Some slot → slot_over slots page ≡ Some slot }
{
    match *effect {
        Effect::Slot { slot: id, .. } => slot.id != id,
        Effect::Mark { slot: id } => slot.id != id,
        Effect::Move { slot: id, .. } => slot.id != id,
        Effect::Shut { .. } => slot.file.is_some(),
        _ => true,
    }
}

// Whether a page with no slot over it after the effect had none before it: no slot goes or moves by it.
#[tactic(auto, using(crate::proofs::Before::free_add, crate::proofs::Before::free_mark, crate::proofs::Before::free_shut))]
fn leaves_none(effect: &Effect) -> bool
    ensures { IsTrue result → (page : ℕ) (slots : List SlotView) → slot_over (slots_after effect.now slots) page ≡ None → slot_over slots page ≡ None }
{
    !matches!(effect, Effect::NoSlot { .. } | Effect::Move { .. })
}

// The kind that the change sets at the page, if it is a call that does.
fn kind_set(change: &Change, page: Page) -> Option<Kind>
    ensures some { IfSome result (λ kind. (s : Sight) → attr_of page (changed s change.now).calls ≡ kind) }
    ensures none { result ≡ None → (s : Sight) → attr_of page (changed s change.now).calls ≡ attr_of page s.calls }
{
    match change.effect {
        Some(Effect::Attr { span, kind }) if span.holds(page.number()) => Some(kind),
        _ => None,
    }
}
