//! What the rows of the arguments mean for a call's whole table.

ghost use Rattle.std.specs.Prelude.{ℕ, ◌≡◌, ◌↔◌, None, Some, true};
ghost use Rattle.gm_base.specs.declared.calls.Ioctl.{Ioctl};
ghost use Rattle.gm_base.specs.declared.values.Errno.{Errno};
ghost use Rattle.gm_base.specs.declared.values.Errno.TheVariants.{Inval};
ghost use Rattle.gm_base.specs.declared.values.Setup.{Setup};
ghost use Rattle.gm_flat.specs.Calls.{plan, Refused};
ghost use Rattle.gm_flat.specs.FlatState.{Flat};
ghost use Rattle.gm_ioctl.specs.Arguments.{argument_refusal, passes};
ghost use Rattle.gm_ioctl.specs.InRange.{InRange};
ghost use Rattle.gm_ioctl.specs.Remaining.{state_plan};

/// A call whose arguments are refused is refused so by its table, in every state.
#[tactic(auto, using(crate::proofs::Refusals::refused_plan))]
pub fn refused_arguments_are_refused()
    ensures { (setup : Setup) (call : Ioctl) (f : Flat) (e : Errno) → argument_refusal setup.user call ≡ Some e → plan setup call f ≡ Refused e }
{}

/// A call whose arguments pass has the answer of the rows that need the state.
#[tactic(auto, using(crate::proofs::Refusals::passed_plan))]
pub fn passing_leaves_the_rows_of_the_state()
    ensures { (setup : Setup) (call : Ioctl) (f : Flat) → argument_refusal setup.user call ≡ None → plan setup call f ≡ state_plan setup call f }
{}

/// The arguments are refused with Inval alone.
pub fn refusals_are_inval()
    ensures { (user : ℕ) (call : Ioctl) (e : Errno) → argument_refusal user call ≡ Some e → e ≡ Inval }
{}

/// `passes` is true exactly where the arguments aren't refused.
#[tactic(auto, using(crate::proofs::Refusals::passes_is_none))]
pub fn passes_means_no_refusal()
    ensures { (user : ℕ) (call : Ioctl) → (passes user call ≡ true) ↔ (argument_refusal user call ≡ None) }
{}

/// The numbers of a call whose arguments pass are in range.
pub fn arguments_that_pass_are_in_range()
    ensures { (user : ℕ) (call : Ioctl) → argument_refusal user call ≡ None → InRange user call }
{}
