//! Reads a source to its end.

ghost use Rattle.std.specs.Prelude.{◌≡◌, ◌+◌, ◌++◌, ◌<◌, ◌≤◌, ◌^◌, [], List, ℕ, length, take, IfOk, OnOk, IsErrOf};
ghost use Rattle.std.specs.Io.KnownBytes.{Consumes, IsAtEnd};
ghost use Rattle.gm_io.specs.Causes.{Rose};
ghost use Rattle.gmemrun.specs.Reading.{ReadAll, TookOneTooMany, TookWithin};

use gm_base::NoMemory;
use gm_io::Source;
use std::alloc::Global;

/// Why a source wasn't read to its end.
#[derive(Clone, Copy, Debug, PartialEq, Eq)]
pub enum Unread {
    Failed,
    TooLong,
    NoMemory,
}

// A source is asked for pieces of this size, so that a script takes few calls.
const PIECE: usize = 65_536;

/// Reads to the end, and no more bytes than may be. `TooLong` comes where one byte more was taken.
pub fn read_all<S: Source>(alloc: Global, most: usize, source: &mut S) -> Result<Vec<u8>, Unread>
    requires { most < 2 ^ 32 }
    ensures bytes { IfOk result (λ v. ReadAll most (S.left source.old) (S.left source.new) v.items) }
    ensures failed { IsErrOf result Unread.Failed → Rose (S.faults source.old) (S.faults source.new) }
    ensures few { IsErrOf result Unread.Failed → (bytes : List ℕ) × TookWithin most (S.left source.old) (S.left source.new) bytes }
    ensures long { IsErrOf result Unread.TooLong → (bytes : List ℕ) × TookOneTooMany most (S.left source.old) (S.left source.new) bytes }
    ensures later { S.faults source.old ≤ S.faults source.new }
{
    let mut bytes = Vec::new(alloc);
    let mut buffer = match empty_buffer(alloc) {
        Ok(buffer) => buffer,
        Err(NoMemory) => return Err(Unread::NoMemory),
    };
    while bytes.len() <= most {
        match read_some(most, source, &mut buffer, &mut bytes) {
            Ok(0) => return Ok(bytes),
            Ok(_) => {}
            Err(unread) => return Err(unread),
        }
    }
    Err(Unread::TooLong)
}

fn empty_buffer(alloc: Global) -> Result<Vec<u8>, NoMemory>
    ensures { IfOk result (λ v. length v.items ≡ 65536) }
{
    let buffer = vec![in alloc; 0u8; PIECE]?;
    Ok(buffer)
}

// Reads some more, and no more than one byte past the most.
fn read_some<S: Source>(
    most: usize,
    source: &mut S,
    buffer: &mut Vec<u8>,
    bytes: &mut Vec<u8>,
) -> Result<usize, Unread>
    requires most { most < 2 ^ 32 }
    requires short { length bytes.old.items ≤ most }
    requires room { length buffer.old.items ≡ 65536 }
    ensures bytes { IfOk result (λ n. (more : List ℕ) × (length more ≡ n) × (bytes.new.items ≡ bytes.old.items ++ more) × Consumes (S.left source.old) (S.left source.new) more) }
    ensures end { IfOk result (λ n. n ≡ 0 → IsAtEnd (S.left source.new)) }
    ensures short { OnOk result (length bytes.new.items ≤ most + 1) }
    ensures room { length buffer.new.items ≡ 65536 }
    ensures later { S.faults source.old ≤ S.faults source.new }
    ensures failed { IsErrOf result Unread.Failed → Rose (S.faults source.old) (S.faults source.new) }
    ensures none { IsErrOf result Unread.Failed → Consumes (S.left source.old) (S.left source.new) [] }
    ensures not_long { IsErrOf result Unread.TooLong → ⊥ }
{
    let room = (most + 1 - bytes.len()).min(PIECE);
    let piece = buffer.as_mut_slice();
    match source.take(&mut piece[..room]) {
        Ok(count) => match bytes.extend_from_slice(&piece[..count]) {
            Ok(()) => Ok(count),
            Err(_) => Err(Unread::NoMemory),
        },
        Err(_) => Err(Unread::Failed),
    }
}
