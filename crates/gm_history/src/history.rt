//! Histories read from their text.

ghost use Rattle.std.specs.Prelude.{◌≡◌, ◌+◌, ◌<◌, ◌^◌, ◌++◌, [], ◌∷◌, length, None, Some, true, IfOk, IfErr, IfSome, MatchOption};
ghost use Rattle.gm_history.specs.Cuts.{split_at};
ghost use Rattle.gm_history.specs.declared.version.Version.{Version};
ghost use Rattle.gm_history.specs.Lines.{machine_of, setup_of, counts_of, is_within};
ghost use Rattle.gm_history.specs.Patterns.{ended};
ghost use Rattle.gm_history.specs.Reading.{Good, Bad, header, is_header, told_at, told_on, last_line, lines_on, machine_on};
ghost use Rattle.gm_history.specs.Refusals.{RefusedAs, RefusedIn, JudgedBad};
ghost use Rattle.gm_history.specs.TextForm.{Tells, TellsIn, last_turn};

use crate::cuts::{first_piece, strip};
use crate::error::HistoryError;
use crate::fields::{number_after, small_after, switch_after};
use crate::frames::Frames;
use crate::lines::read_entry;
use crate::version::Version;
use gm_base::{MOST_CALLERS, MOST_FRAMES, MOST_USER_PAGES, MOST_VCPUS, Setup};
use gm_flat::Entry;
use std::alloc::Global;
use std::marker::Model;

/// A history as its text tells it.
#[derive(Drop)]
pub struct History {
    setup: Setup,
    entries: Vec<Entry>,
    turns: u64,
}

impl Model for History {
    ghost use Rattle.gm_history.specs.TextForm.{Told};

    ghost Value = { Told };

    ghost view = { λ h. record { setup = h.setup; entries = h.entries.items; turns = h.turns } };
}

impl History {
    /// The setup of its machine.
    pub fn setup(&self) -> Setup
        ensures { result ≡ self.now.setup }
    {
        self.setup
    }

    /// Its entries, oldest first.
    pub fn entries(&self) -> &[Entry]
        ensures { result.now ≡ self.now.entries }
    {
        &self.entries
    }

    /// How many turns were taken.
    pub fn turns(&self) -> u64
        ensures { result ≡ self.now.turns }
    {
        self.turns
    }
}

/// Whether a setup is within the limits of a machine.
#[tactic(auto, unfolding(crate::specs::Lines::is_within))]
fn is_within(setup: Setup) -> bool
    ensures { result ≡ is_within setup }
{
    setup.frames <= MOST_FRAMES
        && setup.user <= MOST_USER_PAGES
        && setup.vcpus != 0
        && setup.vcpus <= MOST_VCPUS
        && setup.callers <= MOST_CALLERS
}

fn ended(rest: &[u8], setup: Setup) -> Option<Setup>
    ensures { result ≡ ended setup rest.now }
{
    if rest.is_empty() { Some(setup) } else { None }
}

/// The setup of a line, within the limits or not.
#[tactic(auto, unfolding(crate::specs::Lines::machine_of))]
fn read_machine(line: &[u8]) -> Option<Setup>
    ensures { result ≡ machine_of line.now }
{
    let frames = small_after(b"machine frames=", line)?;
    let user = small_after(b" user=", frames.rest)?;
    let vcpus = small_after(b" vcpus=", user.rest)?;
    let callers = small_after(b" callers=", vcpus.rest)?;
    let huge = switch_after(b" huge=", callers.rest)?;
    let setup = Setup {
        frames: frames.value,
        user: user.value,
        vcpus: vcpus.value,
        callers: callers.value,
        huge: huge.value,
    };
    ended(huge.rest, setup)
}

/// The setup of a `machine` line.
#[tactic(auto, unfolding(crate::specs::Lines::setup_of))]
fn read_setup(line: &[u8]) -> Option<Setup>
    ensures { result ≡ setup_of line.now }
{
    let setup = read_machine(line)?;
    if is_within(setup) { Some(setup) } else { None }
}

/// The counts of a last line.
#[derive(Clone, Copy, Debug, PartialEq, Eq)]
struct Counts {
    turns: u64,
    entries: u64,
}

#[tactic(auto, unfolding(crate::specs::Lines::counts_of))]
fn read_counts(line: &[u8]) -> Option<Counts>
    ensures { MatchOption result (counts_of line.now ≡ None) (λ c. counts_of line.now ≡ Some (record { turns = c.turns; entries = c.entries })) }
{
    let turns = number_after(b"end turns=", line)?;
    let entries = number_after(b" entries=", turns.rest)?;
    if !entries.rest.is_empty() {
        return None;
    }
    Some(Counts {
        turns: turns.value,
        entries: entries.value,
    })
}

/// Reads the lines after the `machine` line.
#[tactic(auto, using(crate::proofs::Splits::more_after, crate::proofs::LastTurns::last_push, crate::proofs::Runs::given_push))]
fn read_entries(
    alloc: Global,
    version: Version,
    setup: Setup,
    bytes: &[u8],
) -> Result<History, HistoryError>
    requires { length bytes.now < 2 ^ 63 }
    ensures ok { IfOk result (λ h. told_on version setup (split_at 10 bytes.now) [] ≡ Good h) }
    ensures bad { IfErr result (JudgedBad (told_on version setup (split_at 10 bytes.now) [])) }
{
    let mut frames = Frames::new(alloc);
    let mut entries = Vec::new(alloc);
    let mut last = 0;
    let mut rest = bytes;
    loop {
        let next = first_piece(rest, 10);
        let number = entries.len() as u64 + 3;
        let after = match next.rest {
            Some(after) => after,
            None => return Err(HistoryError::BadText { line: number }),
        };
        match read_entry(alloc, version, &mut frames, next.piece)? {
            Some(entry) => {
                last = entry.turn;
                match entries.push(entry) {
                    Ok(()) => {}
                    Err(_) => return Err(HistoryError::NoMemory),
                }
                rest = after;
            }
            None => {
                return finish(setup, entries, last, next.piece, after);
            }
        }
    }
}

/// Reads the last line, after which these bytes stand.
fn finish(
    setup: Setup,
    entries: Vec<Entry>,
    last: u64,
    line: &[u8],
    after: &[u8],
) -> Result<History, HistoryError>
    requires few { length entries.items + 4 < 2 ^ 64 }
    requires last { last ≡ last_turn entries.items }
    ensures ok { IfOk result (λ h. last_line setup entries.items (counts_of line.now) (split_at 10 after.now) ≡ Good h) }
    ensures bad { IfErr result (JudgedBad (last_line setup entries.items (counts_of line.now) (split_at 10 after.now))) }
{
    let number = entries.len() as u64 + 3;
    let counts = match read_counts(line) {
        Some(counts) => counts,
        None => return Err(HistoryError::BadText { line: number }),
    };
    if counts.entries != entries.len() as u64 || last > counts.turns {
        return Err(HistoryError::BadText { line: number });
    }
    close(setup, entries, counts.turns, after)
}

/// The history, if nothing stands after its last line.
#[tactic(auto, using(crate::proofs::Splits::told_more))]
fn close(
    setup: Setup,
    entries: Vec<Entry>,
    turns: u64,
    after: &[u8],
) -> Result<History, HistoryError>
    requires { length entries.items + 4 < 2 ^ 64 }
    ensures ok { IfOk result (λ h. told_at setup entries.items turns (split_at 10 after.now) ≡ Good h) }
    ensures bad { IfErr result (JudgedBad (told_at setup entries.items turns (split_at 10 after.now))) }
{
    if !after.is_empty() {
        let line = entries.len() as u64 + 4;
        return Err(HistoryError::BadText { line });
    }
    Ok(History {
        setup,
        entries,
        turns,
    })
}

/// What stands after the `machine` line, with its setup.
#[derive(Drop)]
struct Started<'a> {
    setup: Setup,
    rest: &'a [u8],
}

fn header(version: Version) -> &'static [u8]
    ensures { result.now ≡ header version }
{
    match version {
        Version::One => b"gmem-history 1",
        Version::Two => b"gmem-history 2",
    }
}

/// Whether a line is the first one of a history.
#[tactic(auto, unfolding(crate::specs::Reading::is_header))]
fn is_header(version: Version, line: &[u8]) -> bool
    ensures { result ≡ is_header version line.now }
{
    match strip(header(version), line) {
        Some(rest) => rest.is_empty(),
        None => false,
    }
}

/// What stands after the first line, if it is that of a history.
#[tactic(auto, using(crate::proofs::Splits::more_after))]
fn after_first(version: Version, bytes: &[u8]) -> Option<&[u8]>
    ensures lines { MatchOption result (lines_on version (split_at 10 bytes.now) ≡ Bad 1) (λ rest. lines_on version (split_at 10 bytes.now) ≡ machine_on version (split_at 10 rest.now)) }
    ensures less { IfSome result (λ rest. length rest.now < length bytes.now) }
{
    let first = first_piece(bytes, 10);
    let after = first.rest?;
    if is_header(version, first.piece) {
        Some(after)
    } else {
        None
    }
}

/// What stands after the `machine` line, with its setup. It is the same in both versions.
#[tactic(auto, using(crate::proofs::Splits::more_after))]
fn after_machine(bytes: &[u8]) -> Option<Started<'_>>
    ensures lines { (version : Version) → MatchOption result (machine_on version (split_at 10 bytes.now) ≡ Bad 2) (λ s. machine_on version (split_at 10 bytes.now) ≡ told_on version s.setup (split_at 10 s.rest.now) []) }
    ensures less { IfSome result (λ s. length s.rest.now < length bytes.now) }
{
    let next = first_piece(bytes, 10);
    let rest = next.rest?;
    let setup = read_setup(next.piece)?;
    Some(Started { setup, rest })
}

/// Reads a history's text in a version. `BadText` comes exactly where the bytes aren't the text of a history that the
/// version can say, with the bad line: the least such that the lines up to it begin no such text. `NoMemory` is the
/// other error.
pub(crate) fn read_text(
    alloc: Global,
    version: Version,
    bytes: &[u8],
) -> Result<History, HistoryError>
    ensures ok { IfOk result (TellsIn version bytes.now) }
    ensures bad { IfErr result (RefusedIn version bytes.now) }
{
    let machine = match after_first(version, bytes) {
        Some(machine) => machine,
        None => return Err(HistoryError::BadText { line: 1 }),
    };
    let started = match after_machine(machine) {
        Some(started) => started,
        None => return Err(HistoryError::BadText { line: 2 }),
    };
    read_entries(alloc, version, started.setup, started.rest)
}

/// Reads a history's text, version 2. `BadText` comes exactly where the bytes aren't the text of a history, with the
/// bad line: the least such that the lines up to it begin no such text. `NoMemory` is the other error.
pub fn read_history(alloc: Global, bytes: &[u8]) -> Result<History, HistoryError>
    ensures ok { IfOk result (Tells bytes.now) }
    ensures bad { IfErr result (RefusedAs bytes.now) }
{
    read_text(alloc, Version::Two, bytes)
}
