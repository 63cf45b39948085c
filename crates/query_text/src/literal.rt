//! Literals: integers, and texts between quotation marks.

ghost use Rattle.std.specs.Prelude.{◌≡◌};
ghost use Rattle.adg_base.specs.Text.{IsText, is_text_byte};
ghost use Rattle.adg_model.specs.Command.{literal_bytes};
ghost use Rattle.query_text.specs.Stopping.{Reads, Anything};
ghost use Rattle.query_text.specs.Parts.{IsLiteral, EndsLiteral, closed};
ghost use Rattle.query_text.specs.Literals.{IsTextLen};

use crate::fault::Fault;
use crate::number::integer_of;
use crate::word::behind_byte;
use adg_base::text::{Text, TextRefused};
use adg_base::value::Value;
use std::alloc::Global;

/// Whether a text may hold the byte.
fn is_allowed(byte: u8) -> bool
    ensures { result ≡ is_text_byte byte }
{
    byte >= 0x20 && byte <= 0x7e && byte != 0x27 && byte != 0x7c
}

/// How many bytes at the front are of a text: as many as it may hold.
fn text_len(bytes: &[u8]) -> usize
    ensures { IsTextLen bytes.now result }
{
    for (len, byte) in bytes.iter().enumerate() {
        if len == 64 || !is_allowed(*byte) {
            return len;
        }
    }
    bytes.len()
}

/// The text at the front, up to a quotation mark, and the bytes behind it.
fn text_of(alloc: Global, bytes: &[u8]) -> Result<(Text, &[u8]), Fault>
    ensures { Reads (λ x. x.0) (λ x. x.1.now) Anything IsText closed bytes.now result }
{
    let (text, rest) = bytes.split_at(text_len(bytes));
    let Some(behind) = behind_byte(b'\'', rest) else {
        return Err(Fault::Stopped { left: rest.len() });
    };
    match Text::new(alloc, text) {
        Ok(text) => Ok((text, behind)),
        Err(TextRefused::BadText) => Err(Fault::Stopped { left: rest.len() }),
        Err(TextRefused::Memory) => Err(Fault::Memory),
    }
}

/// The literal at the front, and the bytes behind it.
pub fn literal_of(alloc: Global, bytes: &[u8]) -> Result<(Value, &[u8]), Fault>
    ensures { Reads (λ x. x.0) (λ x. x.1.now) EndsLiteral IsLiteral literal_bytes bytes.now result }
{
    if let Some(text) = behind_byte(b'\'', bytes) {
        return match text_of(alloc, text) {
            Ok((text, rest)) => Ok((Value::Text(text), rest)),
            Err(fault) => Err(fault),
        };
    }
    let (number, rest) = integer_of(bytes)?;
    Ok((Value::Int(number), rest))
}
