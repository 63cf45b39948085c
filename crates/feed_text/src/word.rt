//! Words in front of a text, and the bytes up to a separator.

ghost use Rattle.std.specs.Prelude.{◌≡◌, ◌≤◌, ◌<◌, length, IfSome};
ghost use Rattle.std.specs.Option.{option_map};
ghost use Rattle.change_vectors.specs.Reading.{Finds};
ghost use Rattle.feed_text.specs.Reading.{behind, cut};

use change_vectors::unread::Unspelled;

/// The bytes behind a word; `Unspelled` where the text does not begin with it.
pub fn behind<'a>(word: &[u8], text: &'a [u8]) -> Result<&'a [u8], Unspelled>
    ensures { Finds (λ x. x.now) result (behind word.now text.now) }
{
    let mut rest = text;
    for expected in word {
        let [byte, others @ ..] = rest else {
            return Err(Unspelled);
        };
        if byte != expected {
            return Err(Unspelled);
        }
        rest = others;
    }
    Ok(rest)
}

/// The bytes before the first byte of a value, and those behind it where there is one.
pub fn cut(separator: u8, text: &[u8]) -> (&[u8], Option<&[u8]>)
    ensures parts { (result.0.now, option_map (λ x. x.now) result.1) ≡ cut separator text.now }
    ensures fewer { IfSome result.1 (λ rest. length rest.now < length text.now) }
{
    for (at, byte) in text.iter().enumerate() {
        if *byte == separator {
            return (&text[..at], Some(&text[at + 1..]));
        }
    }
    (text, None)
}
