//! Numbers in digits.

ghost use Rattle.std.specs.Prelude.{◌≡◌, ◌≤◌, ◌<◌, ◌+◌, ◌*◌, ◌-◌, ◌^◌, ◌∷◌, false, MatchOption, SomeIff, IfOk, negsuc};
ghost use Rattle.change_vectors.specs.Reading.{Finds};
ghost use Rattle.feed_text.specs.Reading.{has_digit, number_at, byte_at, two_bytes_at, txn_at};

use change_vectors::unread::Unspelled;

/// The value of the digit in front, and the bytes behind it.
fn digit_of(text: &[u8]) -> Option<(u8, &[u8])>
    ensures { MatchOption result (has_digit text.now ≡ false) (λ x. (x.0 ≤ 9) × (text.now ≡ (48 + x.0) ∷ x.1.now)) }
{
    let [byte, rest @ ..] = text else {
        return None;
    };
    if *byte >= b'0' && *byte <= b'9' {
        Some((*byte - b'0', rest))
    } else {
        None
    }
}

/// The number with one more digit, where it is up to the limit.
fn with_digit(number: u64, digit: u8, limit: u64) -> Option<u64>
    requires digit { digit ≤ 9 }
    requires limit { 9 ≤ limit }
    ensures { SomeIff result (number * 10 + digit ≤ limit) (number * 10 + digit) }
{
    let digit = digit as u64;
    if number > (limit - digit) / 10 {
        None
    } else {
        Some(number * 10 + digit)
    }
}

/// The number up to a limit in front, and the bytes behind it.
pub fn number_of(limit: u64, text: &[u8]) -> Result<(u64, &[u8]), Unspelled>
    requires { 9 ≤ limit }
    ensures read { Finds (λ x. (x.0, x.1.now)) result (number_at limit text.now) }
    ensures within { IfOk result (λ x. x.0 ≤ limit) }
{
    let Some((first, after)) = digit_of(text) else {
        return Err(Unspelled);
    };
    let mut number = first as u64;
    let mut rest = after;
    while let Some((digit, others)) = digit_of(rest) {
        match with_digit(number, digit, limit) {
            Some(more) => number = more,
            None => return Err(Unspelled),
        }
        rest = others;
    }
    Ok((number, rest))
}

/// The number of a transaction in front, and the bytes behind it.
pub fn txn_of(text: &[u8]) -> Result<(u64, &[u8]), Unspelled>
    ensures { Finds (λ x. (x.0, x.1.now)) result (txn_at text.now) }
{
    number_of(u64::MAX, text)
}

/// The number up to 65,535 in front, and the bytes behind it.
pub fn two_bytes_of(text: &[u8]) -> Result<(u16, &[u8]), Unspelled>
    ensures { Finds (λ x. (x.0, x.1.now)) result (two_bytes_at text.now) }
{
    let (number, rest) = number_of(65_535, text)?;
    Ok((number as u16, rest))
}

/// The number up to 255 in front, and the bytes behind it.
pub fn byte_of(text: &[u8]) -> Result<(u8, &[u8]), Unspelled>
    ensures { Finds (λ x. (x.0, x.1.now)) result (byte_at text.now) }
{
    let (number, rest) = number_of(255, text)?;
    Ok((number as u8, rest))
}

/// The negative of a size.
pub fn negative_of(size: u64) -> i64
    requires low { 1 ≤ size }
    requires high { size ≤ 2 ^ 63 }
    ensures { result ≡ negsuc (size - 1) }
{
    -((size - 1) as i64) - 1
}
