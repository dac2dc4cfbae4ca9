//! The words of a line, found once.

ghost use Rattle.std.specs.Prelude.{◌≡◌, ℕ, ◌+◌, ◌-◌, ◌<◌, ◌≤◌, [], drop, length, slice_set};
ghost use Rattle.gm_script.specs.Lines.{words_of, word_at};
ghost use Rattle.gm_script.specs.Split.{cut_of};
ghost use Rattle.gm_script.specs.Places.{AreFound};

use crate::split::cut;
use std::marker::Model;

// No form reads more words of a line.
const MOST_WORDS: usize = 9;

/// The words of a line: how many there are, and where each of the first nine begins and ends.
#[derive(Drop)]
pub struct Words<'a> {
    line: &'a [u8],
    count: usize,
    starts: [usize; MOST_WORDS],
    ends: [usize; MOST_WORDS],
}

impl<'a> Model for Words<'a> {
    ghost use Rattle.std.specs.Prelude.{List, ℕ};
    ghost use Rattle.gm_script.specs.Lines.{words_of};
    ghost use Rattle.gm_script.specs.Places.{AreFound};

    ghost Value = { List (List ℕ) };

    ghost view = { λ w. words_of w.line.now };

    ghost invariant = { λ w. AreFound w.line.now w.count w.starts w.ends };
}

impl<'a> Words<'a> {
    /// Finds the words of a line.
    pub fn of(line: &'a [u8]) -> Words<'a>
        ensures { result ≡ words_of line.now }
    {
        let mut starts = [0; MOST_WORDS];
        let mut ends = [0; MOST_WORDS];
        let mut count = 0;
        let mut at = spaces(line);
        while at < line.len() {
            let end = at + cut(&line[at..], 32);
            put(&mut starts, count, at);
            put(&mut ends, count, end);
            count += 1;
            at = end + spaces(&line[end..]);
        }
        Words {
            line,
            count,
            starts,
            ends,
        }
    }

    /// How many there are.
    pub fn count(&self) -> usize
        ensures { result ≡ length self.now }
    {
        self.count
    }

    /// A word by its number, 0 to 8. It is empty past the last.
    pub fn word(&self, n: usize) -> &[u8]
        requires { n < 9 }
        ensures { result.now ≡ word_at self.now n }
    {
        &self.line[self.starts[n]..self.ends[n]]
    }
}

// Notes a place, if there is a field for it.
fn put(places: &mut [usize; MOST_WORDS], n: usize, place: usize)
    ensures { places.new ≡ slice_set places.old n place }
{
    if n < MOST_WORDS {
        places[n] = place;
    }
}

/// How many spaces the bytes begin with.
#[tactic(auto, using(crate::proofs::WordCuts::skip_space))]
fn spaces(bytes: &[u8]) -> usize
    ensures within { result ≤ length bytes.now }
    ensures words { words_of (drop result bytes.now) ≡ words_of bytes.now }
    ensures begun { cut_of 32 (drop result bytes.now) ≡ 0 → drop result bytes.now ≡ [] }
{
    let mut at = 0;
    for byte in bytes {
        if *byte != 32 {
            return at;
        }
        at += 1;
    }
    at
}
