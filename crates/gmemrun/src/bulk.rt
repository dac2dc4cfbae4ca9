//! Plays the script that a number stands for, and tells what its history comes to.

ghost use Rattle.std.specs.Prelude.{◌≡◌, ◌⊎◌};
ghost use Rattle.gm_gen.specs.Workload.{workload_text};
ghost use Rattle.gm_io.specs.Causes.{Rose};
ghost use Rattle.gmemrun.specs.Bulk.{BulkDue};
ghost use Rattle.gmemrun.specs.Coming.{Put};

use crate::status::Status;
use crate::steps::play;
use gm_gen::workload;
use gm_io::Sink;
use gm_script::{ScriptError, read_script};
use gm_summary::write_summary;
use std::alloc::Global;

/// The turns of the script of a number.
pub const BULK_TURNS: u32 = 100_000;

/// Plays the script of a number and writes the line of what its history comes to. It always returns.
pub fn run_bulk<K: Sink>(alloc: Global, number: u64, sink: &mut K) -> Status
    ensures put { Put (BulkDue number) (workload_text number BULK_TURNS) result (K.held sink.old) (K.held sink.new) }
    ensures write_fault { result ≡ Status.WriteFault → Rose (K.faults sink.old) (K.faults sink.new) }
    ensures only { (result ≡ Status.Ok) ⊎ ((result ≡ Status.WriteFault) ⊎ (result ≡ Status.NoMemory)) }
    ensures complete { (Rose (K.faults sink.old) (K.faults sink.new) → ⊥) → (result ≡ Status.Ok) ⊎ (result ≡ Status.NoMemory) }
{
    match workload(alloc, number, BULK_TURNS) {
        Ok(bytes) => sum_up(alloc, number, &bytes, sink),
        Err(_) => Status::NoMemory,
    }
}

fn sum_up<K: Sink>(alloc: Global, number: u64, bytes: &[u8], sink: &mut K) -> Status
    requires { bytes.now ≡ workload_text number BULK_TURNS }
    ensures put { Put (BulkDue number) bytes.now result (K.held sink.old) (K.held sink.new) }
    ensures write_fault { result ≡ Status.WriteFault → Rose (K.faults sink.old) (K.faults sink.new) }
    ensures only { (result ≡ Status.Ok) ⊎ ((result ≡ Status.WriteFault) ⊎ (result ≡ Status.NoMemory)) }
    ensures complete { (Rose (K.faults sink.old) (K.faults sink.new) → ⊥) → (result ≡ Status.Ok) ⊎ (result ≡ Status.NoMemory) }
{
    match read_script(alloc, bytes) {
        Ok(script) => match play(alloc, &script) {
            Ok(machine) => {
                match write_summary(sink, number, machine.turns(), machine.history()) {
                    Ok(()) => Status::Ok,
                    Err(_) => Status::WriteFault,
                }
            }
            Err(_) => Status::NoMemory,
        },
        Err(ScriptError::BadLine { .. }) => unreachable!(),
        Err(ScriptError::NoMemory) => Status::NoMemory,
    }
}
