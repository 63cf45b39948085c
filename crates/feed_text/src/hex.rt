//! Bytes in hexadecimal: words of two digits, each behind a blank, and `*` and a number where a byte
//! stands more than once.

ghost use Rattle.std.specs.Prelude.{◌≡◌, ◌<◌, ◌++◌, replicate, IfOk, OnOk};
ghost use Rattle.change_vectors.specs.Reading.{Finds, Gives};
ghost use Rattle.feed_text.specs.LineReading.{hex_value, times_of, run_of, hex_of, runs_of, split};

use crate::number::number_of;
use crate::word::cut;
use change_vectors::unread::{Unread, Unspelled};
use std::alloc::{AllocError, Global};

/// The value of a digit.
fn digit_value(digit: u8) -> Result<u8, Unspelled>
    ensures value { Finds (λ x. x) result (hex_value digit) }
    ensures small { IfOk result (λ x. x < 16) }
{
    match digit {
        b'0'..=b'9' => Ok(digit - b'0'),
        b'a'..=b'f' => Ok(digit - b'a' + 10),
        _ => Err(Unspelled),
    }
}

/// How often the byte of a word stands.
fn times_in(text: &[u8]) -> Result<usize, Unspelled>
    ensures { Finds (λ x. x) result (times_of text.now) }
{
    match text {
        [] => Ok(1),
        [b'*', digits @ ..] => match number_of(u64::MAX, digits)? {
            (times, []) => Ok(times as usize),
            _ => Err(Unspelled),
        },
        _ => Err(Unspelled),
    }
}

/// The byte of a word, and how often it stands.
#[tactic(auto, unfolding(crate::specs::LineReading::run_of))]
fn run_in(word: &[u8]) -> Result<(u8, usize), Unspelled>
    ensures { Finds (λ x. x) result (run_of word.now) }
{
    let [high, low, rest @ ..] = word else {
        return Err(Unspelled);
    };
    let high = digit_value(*high)?;
    let low = digit_value(*low)?;
    let times = times_in(rest)?;
    Ok((high * 16 + low, times))
}

/// Adds a byte so many times.
fn put_times(bytes: &mut Vec<u8>, byte: u8, times: usize) -> Result<(), AllocError>
    ensures { OnOk result (bytes.new.items ≡ bytes.old.items ++ replicate times byte) }
{
    for _ in 0..times {
        bytes.push(byte)?;
    }
    Ok(())
}

/// The bytes of words between blanks.
fn words_in(alloc: Global, text: &[u8]) -> Result<Vec<u8>, Unread>
    ensures { Gives (λ x. x.items) result (runs_of (split 32 text.now)) }
{
    let mut bytes = Vec::new(alloc);
    let mut rest = text;
    loop {
        let (word, behind) = cut(b' ', rest);
        let (byte, times) = run_in(word)?;
        put_times(&mut bytes, byte, times)?;
        match behind {
            Some(more) => rest = more,
            None => return Ok(bytes),
        }
    }
}

/// The bytes that all of the text stands for.
#[tactic(auto, unfolding(crate::specs::LineReading::hex_of))]
pub fn bytes_in(alloc: Global, text: &[u8]) -> Result<Vec<u8>, Unread>
    ensures { Gives (λ x. x.items) result (hex_of text.now) }
{
    match text {
        [] => Ok(Vec::new(alloc)),
        [b' ', words @ ..] => words_in(alloc, words),
        _ => Err(Unread::Bad),
    }
}
