//! The `machine` line.

ghost use Rattle.std.specs.Prelude.{◌≡◌, IfOk, drop, true};
ghost use Rattle.gm_script.specs.Numbers.{number_of};
ghost use Rattle.gm_script.specs.Setups.{is_machine, huge_of, counts_of, is_within, setup_by, setup_of};
ghost use Rattle.gm_script.specs.Schedules.{IsWithin};

use crate::error::Cause;
use crate::numbers::read_number;
use crate::split::{begins, is_word};
use crate::words::Words;
use gm_base::{MOST_CALLERS, MOST_FRAMES, MOST_USER_PAGES, MOST_VCPUS, Setup};

/// The numbers of the line, as they were given.
#[derive(Clone, Copy, Debug, PartialEq, Eq)]
pub struct Counts {
    pub frames: u64,
    pub user: u64,
    pub vcpus: u64,
    pub callers: u64,
}

/// The setup that the first line that isn't skipped tells, or its first cause.
#[tactic(auto, unfolding(crate::specs::Setups::setup_of))]
pub fn read_setup(words: &Words<'_>) -> Result<Setup, Cause>
    ensures setup { result ≡ setup_of words.now }
    ensures within { IfOk result IsWithin }
{
    if !is_machine(words) {
        return Err(Cause::Machine);
    }
    let huge = match read_huge(words.word(5)) {
        Some(huge) => huge,
        None => return Err(Cause::Word),
    };
    let counts = match read_counts(words) {
        Some(counts) => counts,
        None => return Err(Cause::Number),
    };
    if !is_within(counts) {
        return Err(Cause::Limit);
    }
    Ok(setup_by(huge, counts))
}

#[tactic(auto, unfolding(crate::specs::Setups::is_machine))]
fn is_machine(words: &Words<'_>) -> bool
    ensures { result ≡ is_machine words.now }
{
    words.count() == 6
        && is_word(words.word(0), b"machine")
        && begins(b"frames=", words.word(1))
        && begins(b"user=", words.word(2))
        && begins(b"vcpus=", words.word(3))
        && begins(b"callers=", words.word(4))
        && begins(b"huge=", words.word(5))
}

#[tactic(auto, unfolding(crate::specs::Setups::huge_of))]
fn read_huge(word: &[u8]) -> Option<bool>
    ensures { result ≡ huge_of word.now }
{
    if is_word(word, b"huge=on") {
        return Some(true);
    }
    if is_word(word, b"huge=off") {
        return Some(false);
    }
    None
}

/// The number after a name of so many bytes.
fn number_from(word: &[u8], at: usize) -> Option<u64>
    ensures { result ≡ number_of (drop at word.now) }
{
    if at > word.len() {
        return read_number(&word[word.len()..]);
    }
    read_number(&word[at..])
}

#[tactic(auto, unfolding(crate::specs::Setups::counts_of))]
fn read_counts(words: &Words<'_>) -> Option<Counts>
    ensures { result ≡ counts_of words.now }
{
    let frames = number_from(words.word(1), 7)?;
    let user = number_from(words.word(2), 5)?;
    let vcpus = number_from(words.word(3), 6)?;
    let callers = number_from(words.word(4), 8)?;
    Some(Counts {
        frames,
        user,
        vcpus,
        callers,
    })
}

#[tactic(auto, unfolding(crate::specs::Setups::is_within))]
fn is_within(counts: Counts) -> bool
    ensures { result ≡ is_within counts }
{
    counts.frames <= u64::from(MOST_FRAMES)
        && counts.user <= u64::from(MOST_USER_PAGES)
        && counts.vcpus != 0
        && counts.vcpus <= u64::from(MOST_VCPUS)
        && counts.callers <= u64::from(MOST_CALLERS)
}

/// The setup with these numbers.
#[tactic(auto, unfolding(crate::specs::Setups::is_within))]
fn setup_by(huge: bool, counts: Counts) -> Setup
    requires { is_within counts ≡ true }
    ensures setup { result ≡ setup_by huge counts }
    ensures within { IsWithin result }
{
    Setup {
        frames: counts.frames as u32,
        user: counts.user as u32,
        vcpus: counts.vcpus as u32,
        callers: counts.callers as u32,
        huge,
    }
}
