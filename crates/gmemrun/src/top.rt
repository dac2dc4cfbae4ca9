//! The call that does all that the program does.

ghost use Rattle.std.specs.Prelude.{◌≡◌, ◌↔◌, ◌⊎◌, IfSome, IsTrue, List, None, ℕ, codes};
ghost use Rattle.gm_gen.specs.Workload.{workload_text};
ghost use Rattle.gm_history.specs.declared.limits.TheConstants.{MOST_HISTORY_BYTES};
ghost use Rattle.gm_io.specs.Causes.{Rose};
ghost use Rattle.gmemrun.specs.Bulk.{BulkDue};
ghost use Rattle.gmemrun.specs.Coming.{CameTo, Put, PutAll};
ghost use Rattle.gmemrun.specs.Migrating.{MigrateDue, MigrateEndsBy};
ghost use Rattle.gmemrun.specs.Reading.{TookTooMuch};
ghost use Rattle.gmemrun.specs.Running.{EndsBy, StepsDue};
ghost use Rattle.gmemrun.specs.Threading.{ThreadsDue};
ghost use Rattle.gmemrun.specs.Words.{IsBulk, IsMigrate, IsSteps, IsThreads};
ghost use Rattle.gmemrun.specs.declared.bulk.TheConstants.{BULK_TURNS};

use crate::bulk::run_bulk;
use crate::migrating::run_migrate;
use crate::status::Status;
use crate::steps::run_steps;
use crate::threads::run_threads;
use gm_base::MOST_SCRIPT_BYTES;
use gm_io::{Gate, Sink, Source};
use gm_script::read_number;
use std::alloc::Global;
use std::sync::Wait;
use std::thread::Threads;

fn says_steps(words: &[String]) -> bool
    ensures { IsTrue result ↔ IsSteps words.now }
{
    match words {
        [word] => word.as_str() == "steps",
        _ => false,
    }
}

fn says_migrate(words: &[String]) -> bool
    ensures { IsTrue result ↔ IsMigrate words.now }
{
    match words {
        [word] => word.as_str() == "migrate",
        _ => false,
    }
}

fn says_threads(words: &[String]) -> bool
    ensures { IsTrue result ↔ IsThreads words.now }
{
    match words {
        [word] => word.as_str() == "threads",
        _ => false,
    }
}

// The number of the two words `bulk N`.
fn bulk_number(words: &[String]) -> Option<u64>
    ensures some { IfSome result (λ number. IsBulk words.now number) }
    ensures none { result ≡ None → (number : ℕ) → IsBulk words.now number → ⊥ }
    ensures alone { IfSome result (λ _. (IsSteps words.now → ⊥) × (IsMigrate words.now → ⊥) × (IsThreads words.now → ⊥)) }
{
    match words {
        [word, digits] => {
            if word.as_str() != "bulk" {
                return None;
            }
            read_number(digits.as_bytes())
        }
        _ => None,
    }
}

/// Does what the words say: for `steps` what `run_steps` does, for `threads` what `run_threads` does, for `migrate` what
/// `run_migrate` does, for `bulk` and a number what `run_bulk` does, and for all other words nothing. With `bulk` the source
/// stays as it was.
pub fn run<R: Threads + Wait + Sync, S: Source, K: Sink, G: Gate + Sync>(
    rt: &R,
    alloc: Global,
    words: &[String],
    source: &mut S,
    sink: &mut K,
    gate: &G,
) -> Status
    ensures usage { result ≡ Status.Usage ↔ ((IsSteps words.now → ⊥) × (IsMigrate words.now → ⊥) × (IsThreads words.now → ⊥) × ((number : ℕ) → IsBulk words.now number → ⊥)) }
    ensures unread { result ≡ Status.Usage → S.left source.new ≡ S.left source.old }
    ensures unwritten { result ≡ Status.Usage → K.held sink.new ≡ K.held sink.old }
    ensures read_fault { result ≡ Status.ReadFault → Rose (S.faults source.old) (S.faults source.new) }
    ensures write_fault { result ≡ Status.WriteFault → Rose (K.faults sink.old) (K.faults sink.new) }

    // For `steps`.
    ensures came_to { IsSteps words.now → CameTo MOST_SCRIPT_BYTES StepsDue result (S.left source.old) (S.left source.new) (K.held sink.old) (K.held sink.new) }
    ensures long_only { IsSteps words.now → IfSome (S.left source.old) (λ _. TookTooMuch MOST_SCRIPT_BYTES (S.left source.old) (S.left source.new) → (result ≡ Status.TooLong) ⊎ (result ≡ Status.NoMemory)) }
    ensures bad_only { IsSteps words.now → IfSome (S.left source.old) (λ bytes. IfSome (K.held sink.new) (λ _. PutAll StepsDue bytes Status.BadScript (K.held sink.old) (K.held sink.new) → result ≡ Status.BadScript)) }
    ensures complete { IsSteps words.now → (Rose (S.faults source.old) (S.faults source.new) → ⊥) → (Rose (K.faults sink.old) (K.faults sink.new) → ⊥) → IfSome (S.left source.old) (λ bytes. EndsBy bytes result) }

    // For `threads`.
    ensures threads_came_to { IsThreads words.now → CameTo MOST_SCRIPT_BYTES ThreadsDue result (S.left source.old) (S.left source.new) (K.held sink.old) (K.held sink.new) }
    ensures threads_long_only { IsThreads words.now → IfSome (S.left source.old) (λ _. TookTooMuch MOST_SCRIPT_BYTES (S.left source.old) (S.left source.new) → (result ≡ Status.TooLong) ⊎ (result ≡ Status.NoMemory)) }
    ensures threads_bad_only { IsThreads words.now → IfSome (S.left source.old) (λ bytes. IfSome (K.held sink.new) (λ _. PutAll ThreadsDue bytes Status.BadScript (K.held sink.old) (K.held sink.new) → result ≡ Status.BadScript)) }
    ensures threads_complete { IsThreads words.now → (Rose (S.faults source.old) (S.faults source.new) → ⊥) → (Rose (K.faults sink.old) (K.faults sink.new) → ⊥) → IfSome (S.left source.old) (λ bytes. EndsBy bytes result) }

    // For `migrate`.
    ensures migrate_came_to { IsMigrate words.now → CameTo MOST_HISTORY_BYTES MigrateDue result (S.left source.old) (S.left source.new) (K.held sink.old) (K.held sink.new) }
    ensures migrate_long_only { IsMigrate words.now → IfSome (S.left source.old) (λ _. TookTooMuch MOST_HISTORY_BYTES (S.left source.old) (S.left source.new) → (result ≡ Status.TooLong) ⊎ (result ≡ Status.NoMemory)) }
    ensures migrate_bad_only { IsMigrate words.now → IfSome (S.left source.old) (λ bytes. IfSome (K.held sink.new) (λ _. PutAll MigrateDue bytes Status.BadHistory (K.held sink.old) (K.held sink.new) → result ≡ Status.BadHistory)) }
    ensures migrate_complete { IsMigrate words.now → (Rose (S.faults source.old) (S.faults source.new) → ⊥) → (Rose (K.faults sink.old) (K.faults sink.new) → ⊥) → IfSome (S.left source.old) (λ bytes. MigrateEndsBy bytes result) }

    // For `bulk` and a number.
    ensures bulk_unread { (number : ℕ) → IsBulk words.now number → S.left source.new ≡ S.left source.old }
    ensures bulk_put { (number : ℕ) → IsBulk words.now number → Put (BulkDue number) (workload_text number BULK_TURNS) result (K.held sink.old) (K.held sink.new) }
    ensures bulk_only { (number : ℕ) → IsBulk words.now number → (result ≡ Status.Ok) ⊎ ((result ≡ Status.WriteFault) ⊎ (result ≡ Status.NoMemory)) }
    ensures bulk_complete { (number : ℕ) → IsBulk words.now number → (Rose (K.faults sink.old) (K.faults sink.new) → ⊥) → (result ≡ Status.Ok) ⊎ (result ≡ Status.NoMemory) }
{
    match bulk_number(words) {
        Some(number) => run_bulk(alloc, number, sink),
        None => run_one_word(rt, alloc, words, source, sink, gate),
    }
}

// What the words do that are one word alone.
fn run_one_word<R: Threads + Wait + Sync, S: Source, K: Sink, G: Gate + Sync>(
    rt: &R,
    alloc: Global,
    words: &[String],
    source: &mut S,
    sink: &mut K,
    gate: &G,
) -> Status
    ensures usage { result ≡ Status.Usage ↔ ((IsSteps words.now → ⊥) × (IsMigrate words.now → ⊥) × (IsThreads words.now → ⊥)) }
    ensures unread { result ≡ Status.Usage → S.left source.new ≡ S.left source.old }
    ensures unwritten { result ≡ Status.Usage → K.held sink.new ≡ K.held sink.old }
    ensures read_fault { result ≡ Status.ReadFault → Rose (S.faults source.old) (S.faults source.new) }
    ensures write_fault { result ≡ Status.WriteFault → Rose (K.faults sink.old) (K.faults sink.new) }

    // For `steps`.
    ensures came_to { IsSteps words.now → CameTo MOST_SCRIPT_BYTES StepsDue result (S.left source.old) (S.left source.new) (K.held sink.old) (K.held sink.new) }
    ensures long_only { IsSteps words.now → IfSome (S.left source.old) (λ _. TookTooMuch MOST_SCRIPT_BYTES (S.left source.old) (S.left source.new) → (result ≡ Status.TooLong) ⊎ (result ≡ Status.NoMemory)) }
    ensures bad_only { IsSteps words.now → IfSome (S.left source.old) (λ bytes. IfSome (K.held sink.new) (λ _. PutAll StepsDue bytes Status.BadScript (K.held sink.old) (K.held sink.new) → result ≡ Status.BadScript)) }
    ensures complete { IsSteps words.now → (Rose (S.faults source.old) (S.faults source.new) → ⊥) → (Rose (K.faults sink.old) (K.faults sink.new) → ⊥) → IfSome (S.left source.old) (λ bytes. EndsBy bytes result) }

    // For `threads`.
    ensures threads_came_to { IsThreads words.now → CameTo MOST_SCRIPT_BYTES ThreadsDue result (S.left source.old) (S.left source.new) (K.held sink.old) (K.held sink.new) }
    ensures threads_long_only { IsThreads words.now → IfSome (S.left source.old) (λ _. TookTooMuch MOST_SCRIPT_BYTES (S.left source.old) (S.left source.new) → (result ≡ Status.TooLong) ⊎ (result ≡ Status.NoMemory)) }
    ensures threads_bad_only { IsThreads words.now → IfSome (S.left source.old) (λ bytes. IfSome (K.held sink.new) (λ _. PutAll ThreadsDue bytes Status.BadScript (K.held sink.old) (K.held sink.new) → result ≡ Status.BadScript)) }
    ensures threads_complete { IsThreads words.now → (Rose (S.faults source.old) (S.faults source.new) → ⊥) → (Rose (K.faults sink.old) (K.faults sink.new) → ⊥) → IfSome (S.left source.old) (λ bytes. EndsBy bytes result) }

    // For `migrate`.
    ensures migrate_came_to { IsMigrate words.now → CameTo MOST_HISTORY_BYTES MigrateDue result (S.left source.old) (S.left source.new) (K.held sink.old) (K.held sink.new) }
    ensures migrate_long_only { IsMigrate words.now → IfSome (S.left source.old) (λ _. TookTooMuch MOST_HISTORY_BYTES (S.left source.old) (S.left source.new) → (result ≡ Status.TooLong) ⊎ (result ≡ Status.NoMemory)) }
    ensures migrate_bad_only { IsMigrate words.now → IfSome (S.left source.old) (λ bytes. IfSome (K.held sink.new) (λ _. PutAll MigrateDue bytes Status.BadHistory (K.held sink.old) (K.held sink.new) → result ≡ Status.BadHistory)) }
    ensures migrate_complete { IsMigrate words.now → (Rose (S.faults source.old) (S.faults source.new) → ⊥) → (Rose (K.faults sink.old) (K.faults sink.new) → ⊥) → IfSome (S.left source.old) (λ bytes. MigrateEndsBy bytes result) }
{
    if says_steps(words) {
        return run_steps(alloc, source, sink);
    }
    if says_threads(words) {
        return run_threads(rt, alloc, source, sink, gate);
    }
    if says_migrate(words) {
        return run_migrate(alloc, source, sink);
    }
    Status::Usage
}
