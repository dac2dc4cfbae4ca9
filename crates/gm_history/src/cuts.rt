//! Bytes cut at separators.

ghost use Rattle.std.specs.Prelude.{◌≡◌, ◌<◌, ◌≤◌, length, ◌∷◌, None, Some, MatchOption, IfSome, option_map};
ghost use Rattle.gm_history.specs.Cuts.{cut_of, split_at, strip, pieces_after};

/// The length of the first piece.
fn cut(bytes: &[u8], separator: u8) -> usize
    ensures at { result ≡ cut_of separator bytes.now }
    ensures within { result ≤ length bytes.now }
{
    let mut at = 0;
    for byte in bytes {
        if *byte == separator {
            return at;
        }
        at += 1;
    }
    at
}

/// The bytes up to a separator, and those after it. No bytes are after it where there is no separator.
#[derive(Drop)]
pub struct FirstPiece<'a> {
    pub piece: &'a [u8],
    pub rest: Option<&'a [u8]>,
}

/// The first piece of bytes.
#[tactic(auto, using(crate::proofs::Splits::last_piece))]
pub fn first_piece(bytes: &[u8], separator: u8) -> FirstPiece<'_>
    ensures pieces { split_at separator bytes.now ≡ result.piece.now ∷ pieces_after separator (option_map (λ r. r.now) result.rest) }
    ensures less { IfSome result.rest (λ rest. length rest.now < length bytes.now) }
{
    let at = cut(bytes, separator);
    if at >= bytes.len() {
        return FirstPiece {
            piece: bytes,
            rest: None,
        };
    }
    FirstPiece {
        piece: &bytes[..at],
        rest: Some(&bytes[at + 1..]),
    }
}

/// What stands after a word that the bytes begin with.
#[tactic(auto, unfolding(crate::specs::Cuts::strip))]
pub fn strip<'a>(word: &[u8], bytes: &'a [u8]) -> Option<&'a [u8]>
    ensures { MatchOption result (strip word.now bytes.now ≡ None) (λ rest. strip word.now bytes.now ≡ Some rest.now) }
{
    match word.split_first() {
        None => Some(bytes),
        Some((w, ws)) => match bytes.split_first() {
            None => None,
            Some((x, xs)) => { if *w == *x { strip(ws, xs) } else { None } }
        },
    }
}
