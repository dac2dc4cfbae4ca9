//! Changes of attributes.

ghost use Rattle.std.specs.Prelude.{◌≡◌, ◌+◌, ◌%◌, ◌<◌, []};
ghost use Rattle.gm_base.specs.declared.numbers.TheConstants.{PAGE_BYTES};
ghost use Rattle.gm_flat.specs.Calls.{kind_of};
ghost use Rattle.gm_flat.specs.Effects.{U64_LIMIT};
ghost use Rattle.gm_flat.specs.FlatState.{Flat};
ghost use Rattle.gm_ioctl.specs.Remaining.{set_kind};
ghost use Rattle.gm_calls.specs.Judgements.{Tells};
ghost use Rattle.gm_calls.specs.Lent.{LentStand};

use crate::judged::Judged;
use crate::parts::Parts;
use crate::spanned::put;
use gm_base::{KVM_MEMORY_ATTRIBUTE_PRIVATE, Kind, PAGE_BYTES, Span};
use gm_flat::{Effect, Spans};

/// Nothing changes where every page has the kind already.
pub(crate) fn judge_attrs(
    parts: &Parts<'_>,
    address: u64,
    size: u64,
    attributes: u64,
    spans: &mut Spans,
) -> Judged
    requires some { 0 < size }
    requires paged_address { address % PAGE_BYTES ≡ 0 }
    requires paged_size { size % PAGE_BYTES ≡ 0 }
    requires end { address + size < U64_LIMIT }
    requires room { 0 < spans.old.spare }
    requires empty { spans.old.list ≡ [] }
    ensures { (f : Flat) → LentStand parts.now f → Tells parts.now.user.now (set_kind address size attributes f) result spans.new.list }
{
    let kind = wanted_kind(attributes);
    match Span::new(address / PAGE_BYTES, (address + size) / PAGE_BYTES) {
        None => unreachable!(),
        Some(span) => {
            if parts.attrs.same(span, kind) {
                Judged::Same(0)
            } else {
                put(spans, span);
                Judged::Bracket(Effect::Attr { span, kind })
            }
        }
    }
}

/// The kind that the attributes ask for.
fn wanted_kind(attributes: u64) -> Kind
    ensures { result ≡ kind_of attributes }
{
    if attributes == KVM_MEMORY_ATTRIBUTE_PRIVATE {
        Kind::Private
    } else {
        Kind::Shared
    }
}
