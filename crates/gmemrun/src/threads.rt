//! Runs a script's actors, each in a thread of its own.

ghost use Rattle.std.specs.Prelude.{◌≡◌, ◌⊎◌, IfSome};
ghost use Rattle.gm_io.specs.Causes.{Rose};
ghost use Rattle.gm_script.specs.Grammar.{script_of};
ghost use Rattle.gmemrun.specs.Coming.{CameTo, Put, PutAll};
ghost use Rattle.gmemrun.specs.Reading.{TookTooMuch};
ghost use Rattle.gmemrun.specs.Running.{EndsAs, EndsBy};
ghost use Rattle.gmemrun.specs.Threading.{ThreadsDue};

use crate::read::{Unread, read_all};
use crate::refusal::write_refusal;
use crate::status::Status;
use gm_base::MOST_SCRIPT_BYTES;
use gm_io::{Gate, Sink, Source};
use gm_script::{ScriptError, read_script};
use gm_text::write_history;
use gm_threads::run_actors;
use std::alloc::Global;
use std::sync::Wait;
use std::thread::Threads;

/// Reads a script, runs each of its actors in a thread of its own, and writes the history. The script's turns are read and
/// not used.
pub fn run_threads<R: Threads + Wait + Sync, S: Source, K: Sink, G: Gate + Sync>(
    rt: &R,
    alloc: Global,
    source: &mut S,
    sink: &mut K,
    gate: &G,
) -> Status
    ensures came_to { CameTo MOST_SCRIPT_BYTES ThreadsDue result (S.left source.old) (S.left source.new) (K.held sink.old) (K.held sink.new) }
    ensures read_fault { result ≡ Status.ReadFault → Rose (S.faults source.old) (S.faults source.new) }
    ensures write_fault { result ≡ Status.WriteFault → Rose (K.faults sink.old) (K.faults sink.new) }
    ensures long_only { IfSome (S.left source.old) (λ _. TookTooMuch MOST_SCRIPT_BYTES (S.left source.old) (S.left source.new) → (result ≡ Status.TooLong) ⊎ (result ≡ Status.NoMemory)) }
    ensures bad_only { IfSome (S.left source.old) (λ bytes. IfSome (K.held sink.new) (λ _. PutAll ThreadsDue bytes Status.BadScript (K.held sink.old) (K.held sink.new) → result ≡ Status.BadScript)) }
    ensures usage { result ≡ Status.Usage → ⊥ }
    ensures complete { (Rose (S.faults source.old) (S.faults source.new) → ⊥) → (Rose (K.faults sink.old) (K.faults sink.new) → ⊥) → IfSome (S.left source.old) (λ bytes. EndsBy bytes result) }
{
    match read_all(alloc, MOST_SCRIPT_BYTES, source) {
        Ok(bytes) => run_whole(rt, alloc, &bytes, sink, gate),
        Err(Unread::Failed) => Status::ReadFault,
        Err(Unread::TooLong) => Status::TooLong,
        Err(Unread::NoMemory) => Status::NoMemory,
    }
}

fn run_whole<R: Threads + Wait + Sync, K: Sink, G: Gate + Sync>(
    rt: &R,
    alloc: Global,
    bytes: &[u8],
    sink: &mut K,
    gate: &G,
) -> Status
    ensures put { Put ThreadsDue bytes.now result (K.held sink.old) (K.held sink.new) }
    ensures write_fault { result ≡ Status.WriteFault → Rose (K.faults sink.old) (K.faults sink.new) }
    ensures usage { result ≡ Status.Usage → ⊥ }
    ensures no_read { result ≡ Status.ReadFault → ⊥ }
    ensures not_long { result ≡ Status.TooLong → ⊥ }
    ensures bad_only { IfSome (K.held sink.new) (λ _. PutAll ThreadsDue bytes.now Status.BadScript (K.held sink.old) (K.held sink.new) → result ≡ Status.BadScript) }
    ensures complete { (Rose (K.faults sink.old) (K.faults sink.new) → ⊥) → EndsAs (script_of bytes.now) result }
{
    match read_script(alloc, bytes) {
        Ok(script) => match run_actors(rt, alloc, &script, gate) {
            Ok(machine) => {
                match write_history(sink, machine.setup(), machine.history(), machine.turns()) {
                    Ok(()) => Status::Ok,
                    Err(_) => Status::WriteFault,
                }
            }
            Err(_) => Status::NoMemory,
        },
        Err(ScriptError::BadLine { line, cause }) => match write_refusal(sink, line, cause) {
            Ok(()) => Status::BadScript,
            Err(_) => Status::WriteFault,
        },
        Err(ScriptError::NoMemory) => Status::NoMemory,
    }
}
