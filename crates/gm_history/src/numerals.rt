//! Decimal numbers without leading zeros.

ghost use Rattle.std.specs.Prelude.{◌≡◌, ◌+◌, ◌*◌, ◌≤◌, length, None, Some, MatchOption};
ghost use Rattle.gm_history.specs.Numerals.{NUMBER_LIMIT, is_digit, digit_count, read_on, is_numeral, number_at, got};

/// A value that was read, and what stands after it.
#[derive(Drop)]
pub struct Field<'a, T: Drop> {
    pub value: T,
    pub rest: &'a [u8],
}

fn is_digit(byte: u8) -> bool
    ensures { result ≡ is_digit byte }
{
    byte >= 48 && byte <= 57
}

/// How many digits stand at the front.
fn digit_count(bytes: &[u8]) -> usize
    ensures count { result ≡ digit_count bytes.now }
    ensures within { result ≤ length bytes.now }
{
    let mut count = 0;
    for byte in bytes {
        if !is_digit(*byte) {
            return count;
        }
        count += 1;
    }
    count
}

/// One digit more after a number. None where that is 2^64 or more.
fn append(n: u64, digit: u64) -> Option<u64>
    ensures { MatchOption result (NUMBER_LIMIT ≤ 10 * n + digit) (λ more. more ≡ 10 * n + digit) }
{
    match n.checked_mul(10) {
        Some(scaled) => scaled.checked_add(digit),
        None => None,
    }
}

/// The number that digits make. None where it is 2^64 or more.
#[tactic(auto, using(crate::proofs::Readings::stays_great))]
fn value_of(digits: &[u8]) -> Option<u64>
    ensures { MatchOption result (NUMBER_LIMIT ≤ read_on 0 digits.now) (λ n. n ≡ read_on 0 digits.now) }
{
    let mut n: u64 = 0;
    for byte in digits {
        match append(n, u64::from(byte.saturating_sub(48))) {
            Some(more) => n = more,
            None => return None,
        }
    }
    Some(n)
}

/// Whether digits are a number: at least one, and no zero before others.
fn is_numeral(digits: &[u8]) -> bool
    ensures { result ≡ is_numeral digits.now }
{
    !digits.is_empty() && (digits.len() == 1 || digits[0] != 48)
}

/// The number at the front of bytes, below 2^64.
#[tactic(auto, unfolding(crate::specs::Numerals::number_at))]
pub fn number(bytes: &[u8]) -> Option<Field<'_, u64>>
    ensures { MatchOption result (number_at bytes.now ≡ None) (λ f. number_at bytes.now ≡ Some (got f.value f.rest.now)) }
{
    let count = digit_count(bytes);
    let digits = &bytes[..count];
    if !is_numeral(digits) {
        return None;
    }
    let value = value_of(digits)?;
    Some(Field {
        value,
        rest: &bytes[count..],
    })
}
