//! Flags of slots.

ghost use Rattle.std.specs.Prelude.{◌≡◌};
ghost use Rattle.gm_base.specs.declared.numbers.TheConstants.{KVM_MEM_GUEST_MEMFD};
ghost use Rattle.gm_flat.specs.FlatState.{has_flag};

use gm_base::KVM_MEM_GUEST_MEMFD;

/// Whether the flags ask for a guest_memfd.
pub(crate) fn is_file_backed(flags: u32) -> bool
    ensures { result ≡ has_flag KVM_MEM_GUEST_MEMFD flags }
{
    flags & KVM_MEM_GUEST_MEMFD != 0
}
