//! Brings a history of version 1 up to version 2.

ghost use Rattle.std.specs.Prelude.{◌≡◌, ◌⊎◌, IfSome};
ghost use Rattle.gm_history.specs.declared.limits.TheConstants.{MOST_HISTORY_BYTES};
ghost use Rattle.gm_io.specs.Causes.{Rose};
ghost use Rattle.gmemrun.specs.Coming.{CameTo, Put, PutAll};
ghost use Rattle.gmemrun.specs.Migrating.{MigrateDue, MigrateEndsAs, MigrateEndsBy};
ghost use Rattle.gmemrun.specs.Reading.{TookTooMuch};

use crate::read::{Unread, read_all};
use crate::refusal::write_bad_history;
use crate::status::Status;
use gm_history::{MOST_HISTORY_BYTES, MigrateError, migrate};
use gm_io::{Sink, Source};
use std::alloc::Global;

/// Reads a history of version 1 and writes it in version 2. It always returns.
pub fn run_migrate<S: Source, K: Sink>(alloc: Global, source: &mut S, sink: &mut K) -> Status
    ensures came_to { CameTo MOST_HISTORY_BYTES MigrateDue result (S.left source.old) (S.left source.new) (K.held sink.old) (K.held sink.new) }
    ensures read_fault { result ≡ Status.ReadFault → Rose (S.faults source.old) (S.faults source.new) }
    ensures write_fault { result ≡ Status.WriteFault → Rose (K.faults sink.old) (K.faults sink.new) }
    ensures long_only { IfSome (S.left source.old) (λ _. TookTooMuch MOST_HISTORY_BYTES (S.left source.old) (S.left source.new) → (result ≡ Status.TooLong) ⊎ (result ≡ Status.NoMemory)) }
    ensures bad_only { IfSome (S.left source.old) (λ bytes. IfSome (K.held sink.new) (λ _. PutAll MigrateDue bytes Status.BadHistory (K.held sink.old) (K.held sink.new) → result ≡ Status.BadHistory)) }
    ensures usage { result ≡ Status.Usage → ⊥ }
    ensures complete { (Rose (S.faults source.old) (S.faults source.new) → ⊥) → (Rose (K.faults sink.old) (K.faults sink.new) → ⊥) → IfSome (S.left source.old) (λ bytes. MigrateEndsBy bytes result) }
{
    match read_all(alloc, MOST_HISTORY_BYTES, source) {
        Ok(bytes) => migrate_bytes(alloc, &bytes, sink),
        Err(Unread::Failed) => Status::ReadFault,
        Err(Unread::TooLong) => Status::TooLong,
        Err(Unread::NoMemory) => Status::NoMemory,
    }
}

fn migrate_bytes<K: Sink>(alloc: Global, bytes: &[u8], sink: &mut K) -> Status
    ensures put { Put MigrateDue bytes.now result (K.held sink.old) (K.held sink.new) }
    ensures write_fault { result ≡ Status.WriteFault → Rose (K.faults sink.old) (K.faults sink.new) }
    ensures usage { result ≡ Status.Usage → ⊥ }
    ensures no_read { result ≡ Status.ReadFault → ⊥ }
    ensures not_long { result ≡ Status.TooLong → ⊥ }
    ensures bad_only { IfSome (K.held sink.new) (λ _. PutAll MigrateDue bytes.now Status.BadHistory (K.held sink.old) (K.held sink.new) → result ≡ Status.BadHistory) }
    ensures complete { (Rose (K.faults sink.old) (K.faults sink.new) → ⊥) → MigrateEndsAs bytes.now result }
{
    match migrate(alloc, bytes, sink) {
        Ok(()) => Status::Ok,
        Err(MigrateError::BadText { line }) => match write_bad_history(sink, line) {
            Ok(()) => Status::BadHistory,
            Err(_) => Status::WriteFault,
        },
        Err(MigrateError::Failed) => Status::WriteFault,
        Err(MigrateError::NoMemory) => Status::NoMemory,
    }
}
