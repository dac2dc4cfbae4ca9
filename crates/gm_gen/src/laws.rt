//! What a generated text is.

ghost use Rattle.std.specs.Prelude.{ℕ, ◌≡◌, ◌≤◌};
ghost use Rattle.gm_base.specs.Scripts.{Schedule};
ghost use Rattle.gm_script.specs.Grammar.{Good, script_of};
ghost use Rattle.gm_gen.specs.Workload.{workload_text};

/// The text of each number forms a script.
pub fn workloads_are_scripts()
    ensures { (number turns : ℕ) → turns ≤ 262144 → (script : Schedule) × (script_of (workload_text number turns) ≡ Good script) }
{}
