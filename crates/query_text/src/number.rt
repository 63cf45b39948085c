//! Numbers in digits.

ghost use Rattle.std.specs.Prelude.{◌≡◌, ◌≤◌, ◌^◌, ◌-◌, ◌*◌, ◌+◌, pos, negsuc, MatchOption, SomeIff, FitsSigned, ◌∷◌};
ghost use Rattle.std.specs.Int.{w64};
ghost use Rattle.std.specs.Fmt.{decimal, signed_decimal};
ghost use Rattle.adg_model.specs.Command.{IsColumn};
ghost use Rattle.adg_model.specs.Spelling.{IsObj};
ghost use Rattle.query_text.specs.Stopping.{Reads};
ghost use Rattle.query_text.specs.Parts.{EndsNumber, Ended, IsNumber, IsZero};

use crate::fault::Fault;
use crate::word::behind_byte;

/// The value of the digit in front, and the bytes behind it.
fn digit_of(bytes: &[u8]) -> Option<(u8, &[u8])>
    ensures { MatchOption result (EndsNumber bytes.now) (λ x. (x.0 ≤ 9) × (bytes.now ≡ (48 + x.0) ∷ x.1.now)) }
{
    let [byte, rest @ ..] = bytes else {
        return None;
    };
    if *byte >= b'0' && *byte <= b'9' {
        Some((*byte - b'0', rest))
    } else {
        None
    }
}

/// The number with one more digit, where it is from 1 to the limit.
fn with_digit(number: u64, digit: u8, limit: u64) -> Option<u64>
    requires digit { digit ≤ 9 }
    requires limit { 9 ≤ limit }
    ensures { SomeIff result (IsNumber limit (number * 10 + digit)) (number * 10 + digit) }
{
    let digit = digit as u64;
    if number == 0 && digit == 0 || number > (limit - digit) / 10 {
        None
    } else {
        Some(number * 10 + digit)
    }
}

/// The number from 1 to a limit at the front, and the bytes behind it.
pub fn number_of(bytes: &[u8], limit: u64) -> Result<(u64, &[u8]), Fault>
    requires { 9 ≤ limit }
    ensures { Reads (λ x. x.0) (λ x. x.1.now) Ended (IsNumber limit) decimal bytes.now result }
{
    let mut number = 0;
    let mut rest = bytes;
    while let Some((digit, others)) = digit_of(rest) {
        match with_digit(number, digit, limit) {
            Some(more) => number = more,
            None => return Err(Fault::Stopped { left: rest.len() }),
        }
        rest = others;
    }
    if number == 0 {
        Err(Fault::Stopped { left: rest.len() })
    } else {
        Ok((number, rest))
    }
}

/// The column at the front, 1 to 16, and the bytes behind it.
pub fn column_of(bytes: &[u8]) -> Result<(u8, &[u8]), Fault>
    ensures { Reads (λ x. x.0) (λ x. x.1.now) Ended IsColumn decimal bytes.now result }
{
    let (column, rest) = number_of(bytes, 16)?;
    Ok((column as u8, rest))
}

/// The number of an object at the front, 1 to 65535, and the bytes behind it.
pub fn object_of(bytes: &[u8]) -> Result<(u16, &[u8]), Fault>
    ensures { Reads (λ x. x.0) (λ x. x.1.now) Ended IsObj decimal bytes.now result }
{
    let (obj, rest) = number_of(bytes, 65535)?;
    Ok((obj as u16, rest))
}

/// The negative of a size.
fn negative(size: u64) -> i64
    requires low { 1 ≤ size }
    requires high { size ≤ 2 ^ 63 }
    ensures { result ≡ negsuc (size - 1) }
{
    -((size - 1) as i64) - 1
}

/// Zero, behind which no digit stands.
fn zero_of(behind: &[u8]) -> Result<(i64, &[u8]), Fault>
    ensures { Reads (λ x. x.0) (λ x. x.1.now) Ended IsZero signed_decimal (48 ∷ behind.now) result }
{
    match digit_of(behind) {
        Some(_) => Err(Fault::Stopped { left: behind.len() }),
        None => Ok((0, behind)),
    }
}

/// The integer at the front, and the bytes behind it.
pub fn integer_of(bytes: &[u8]) -> Result<(i64, &[u8]), Fault>
    ensures { Reads (λ x. x.0) (λ x. x.1.now) Ended (FitsSigned w64) signed_decimal bytes.now result }
{
    if let Some(digits) = behind_byte(b'-', bytes) {
        let (size, rest) = number_of(digits, 1 << 63)?;
        return Ok((negative(size), rest));
    }
    if let Some(behind) = behind_byte(b'0', bytes) {
        return zero_of(behind);
    }
    let (size, rest) = number_of(bytes, (1 << 63) - 1)?;
    Ok((size as i64, rest))
}
