//! What comes next in a right history, told both ways.

ghost use Rattle.std.specs.Prelude.{◌≡◌, ◌∷◌, false, ℕ, List, [], None, Some};
ghost use Rattle.std.specs.declared.option.Option.{Option};
ghost use Rattle.gm_base.specs.Aim.{Aim};
ghost use Rattle.gm_base.specs.Scripts.{Orders};
ghost use Rattle.gm_base.specs.declared.calls.Ioctl.{Ioctl};
ghost use Rattle.gm_base.specs.declared.values.Actor.TheVariants.{Caller, Vcpu};
ghost use Rattle.gm_base.specs.declared.values.Errno.{Errno};
ghost use Rattle.gm_flat.specs.Calls.{Refused, plan};
ghost use Rattle.gm_flat.specs.Histories.{Faulting, Gotten, Seen, fault, same_turn};
ghost use Rattle.gm_flat.specs.Plays.{turn_entries};
ghost use Rattle.gm_flat.specs.Replay.{flat};
ghost use Rattle.gm_flat.specs.RightHistory.{Right};
ghost use Rattle.gm_flat.specs.RightOrder.{IsBlocked};
ghost use Rattle.gm_flat.specs.declared.effect.Reply.TheVariants.{Bad};
ghost use Rattle.gm_flat.specs.declared.entry.Entry.{Entry};
ghost use Rattle.gm_flat.specs.declared.entry.What.TheVariants.{Answer, Flush, Judge};
ghost use Rattle.gm_laws.specs.Stands.{Stands};
ghost use Rattle.gm_determined.specs.Exactly.{AfterGet, AfterLook, OnlyAnswers};

/// After a Look, the fault's next entry but a Flush, told both ways: by the route, or for a file by whether it is shut,
/// its index cached, and a frame free now.
pub fn what_follows_a_look()
    ensures { (o : Orders) (e : Entry) (past history : List Entry) (v : ℕ) (a : Aim) (missed : ℕ) (sample : Option ℕ) (seen : Seen) → Right o history → Stands e past history → e.actor ≡ Vcpu v → (e.what ≡ Flush → ⊥) → fault v past ≡ Faulting a missed sample (Some seen) None → AfterLook o.setup.frames e.what a seen past }
{}

/// After a Get, the fault's next entry but a Flush, told both ways: a Retry where it is stale there, else its Install.
pub fn what_follows_a_get()
    ensures { (o : Orders) (e : Entry) (past history : List Entry) (v : ℕ) (a : Aim) (missed : ℕ) (sample : Option ℕ) (look : Option Seen) (gotten : Gotten) → Right o history → Stands e past history → e.actor ≡ Vcpu v → (e.what ≡ Flush → ⊥) → fault v past ≡ Faulting a missed sample look (Some gotten) → AfterGet o.setup.huge e.what a sample past }
{}

/// No turn of a caller begins where it is blocked.
pub fn blocked_callers_write_nothing()
    ensures { (o : Orders) (e : Entry) (past history : List Entry) (c : ℕ) → Right o history → Stands e past history → e.actor ≡ Caller c → same_turn e past ≡ false → IsBlocked o (Caller c) past → ⊥ }
{}

/// A call that its table refuses has its Judge and, right after it, its Answer with that errno, and nothing else in the
/// turn; and where a turn is so, its call was refused.
pub fn refused_calls_only_answer()
    ensures only { (o : Orders) (e : Entry) (past history : List Entry) (c : ℕ) (ioctl : Ioctl) (errno : Errno) → Right o history → Stands e past history → e.actor ≡ Caller c → e.what ≡ Judge ioctl → plan o.setup ioctl (flat past) ≡ Refused errno → OnlyAnswers errno ioctl e past history }
    ensures so_only { (o : Orders) (e : Entry) (past history : List Entry) (c : ℕ) (ioctl : Ioctl) (errno : Errno) → Right o history → Stands e past history → e.actor ≡ Caller c → e.what ≡ Judge ioctl → turn_entries e.turn history ≡ Judge ioctl ∷ (Answer (Bad errno) ∷ []) → plan o.setup ioctl (flat past) ≡ Refused errno }
{}
