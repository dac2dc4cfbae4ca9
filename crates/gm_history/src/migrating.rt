//! Texts brought up from version 1 to version 2.

ghost use Rattle.std.specs.Prelude.{◌≤◌, OnOk, IfErr};
ghost use Rattle.gm_history.specs.Migrating.{PutsUp, StoppedAs};

use crate::error::{HistoryError, MigrateError};
use crate::history::read_text;
use crate::version::Version;
use gm_io::Sink;
use gm_text::write_history;
use std::alloc::Global;

/// Puts the text of version 2 of the history whose text of version 1 the bytes are: each touch of a folio has the frame
/// that an earlier line gave last to its serial. `BadText` comes exactly where the bytes are no such text, with the bad
/// line: the least such that the lines up to it begin no such text. `Failed` comes only where the sink's count of faults
/// rose, and then a front of the text was put. `NoMemory` is the other error. It takes all its memory before it puts
/// anything.
pub fn migrate<K: Sink>(alloc: Global, bytes: &[u8], sink: &mut K) -> Result<(), MigrateError>
    ensures ok { OnOk result (PutsUp bytes.now (K.held sink.old) (K.held sink.new)) }
    ensures err { IfErr result (StoppedAs bytes.now (K.held sink.old) (K.held sink.new) (K.faults sink.old) (K.faults sink.new)) }
    ensures later { K.faults sink.old ≤ K.faults sink.new }
{
    let history = match read_text(alloc, Version::One, bytes) {
        Ok(history) => history,
        Err(HistoryError::BadText { line }) => return Err(MigrateError::BadText { line }),
        Err(HistoryError::NoMemory) => return Err(MigrateError::NoMemory),
    };
    match write_history(sink, history.setup(), history.entries(), history.turns()) {
        Ok(()) => Ok(()),
        Err(_) => Err(MigrateError::Failed),
    }
}
