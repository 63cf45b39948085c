//! The text of bytes in hexadecimal.

ghost use Rattle.std.specs.Prelude.{◌≡◌, ◌++◌, ◌<◌, ◌≤◌, ◌^◌, ◌∷◌, [], OnOk, codes};
ghost use Rattle.feed_text.specs.Hex.{hex_digit, hex_byte, run, run_text, hex_text};

use crate::text::put_named;
use std::alloc::{AllocError, Global};

fn hex_digit(value: u8) -> u8
    requires { value < 16 }
    ensures { result ≡ hex_digit value }
{
    if value < 10 {
        b'0' + value
    } else {
        b'a' + (value - 10)
    }
}

/// Adds a byte and how often it stands, behind a blank.
fn put_run(out: &mut Vec<u8>, alloc: Global, byte: u8, count: u64) -> Result<(), AllocError>
    ensures { OnOk result (out.new.items ≡ out.old.items ++ (codes " " ++ run_text (run byte count))) }
{
    out.push(b' ')?;
    out.push(hex_digit(byte / 16))?;
    out.push(hex_digit(byte % 16))?;
    if count == 1 {
        return Ok(());
    }
    put_named(out, alloc, b"*", count)
}

/// Adds the runs of bytes behind a byte that they may go on with.
fn put_runs(out: &mut Vec<u8>, alloc: Global, first: u8, bytes: &[u8]) -> Result<(), AllocError>
    ensures { OnOk result (out.new.items ≡ out.old.items ++ hex_text (first ∷ bytes.now)) }
{
    let mut byte = first;
    let mut count: u64 = 1;
    for next in bytes {
        if *next == byte {
            count += 1;
        } else {
            put_run(out, alloc, byte, count)?;
            byte = *next;
            count = 1;
        }
    }
    put_run(out, alloc, byte, count)
}

/// Adds bytes in hexadecimal.
pub fn put_hex(out: &mut Vec<u8>, alloc: Global, bytes: &[u8]) -> Result<(), AllocError>
    ensures { OnOk result (out.new.items ≡ out.old.items ++ hex_text bytes.now) }
{
    match bytes {
        [] => Ok(()),
        [first, others @ ..] => put_runs(out, alloc, *first, others),
    }
}
