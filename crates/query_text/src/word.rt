//! Words at the front of a text.

ghost use Rattle.std.specs.Prelude.{◌≡◌, ◌≢◌, ◌∷◌, MatchOption, MatchResult, Ok, Err, Some};
ghost use Rattle.query_text.specs.Stopping.{first, ReadsWord};
ghost use Rattle.query_text.specs.Words.{strip, Finds};

use crate::fault::Fault;

/// The bytes behind a byte, where the text begins with it.
pub fn behind_byte(byte: u8, bytes: &[u8]) -> Option<&[u8]>
    ensures { MatchOption result (first bytes.now ≢ Some byte) (λ rest. bytes.now ≡ byte ∷ rest.now) }
{
    let [front, rest @ ..] = bytes else {
        return None;
    };
    if *front == byte { Some(rest) } else { None }
}

/// The bytes behind a word; where the text does not begin with it, how many are left where the two
/// part.
fn after<'a>(word: &[u8], bytes: &'a [u8]) -> Result<&'a [u8], usize>
    ensures { MatchResult result (λ rest. strip word.now bytes.now ≡ Ok rest.now) (λ left. strip word.now bytes.now ≡ Err left) }
{
    let mut rest = bytes;
    for expected in word {
        let [byte, others @ ..] = rest else {
            return Err(0);
        };
        if byte != expected {
            return Err(rest.len());
        }
        rest = others;
    }
    Ok(rest)
}

/// The bytes behind a word that has to be in front.
pub fn behind_word<'a>(word: &[u8], bytes: &'a [u8]) -> Result<&'a [u8], Fault>
    ensures { ReadsWord (λ x. x.now) word.now bytes.now result }
{
    match after(word, bytes) {
        Ok(rest) => Ok(rest),
        Err(left) => Err(Fault::Stopped { left }),
    }
}

/// What the first of the words that the text begins with means, and the bytes behind it. Where it
/// begins with none, the text goes wrong where it parts from the last of them.
pub fn word_of<'a, T: Copy>(words: &[(&[u8], T)], bytes: &'a [u8]) -> Result<(T, &'a [u8]), Fault>
    ensures { Finds (λ w. w.now) words.now (λ x. x.0) (λ x. x.1.now) bytes.now result }
{
    let mut left = bytes.len();
    for (word, meaning) in words {
        match after(word, bytes) {
            Ok(rest) => return Ok((*meaning, rest)),
            Err(behind) => left = left.min(behind),
        }
    }
    Err(Fault::Stopped { left })
}
