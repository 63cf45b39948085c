ghost use Rattle.std.specs.Prelude.{◌≡◌, map, string_bytes};
ghost use Rattle.imadg_top.specs.Words.{number_of_workers, separate, joined, workers_of};

/// The number that one digit from 1 to 8 names; None for other digits. Read by hand, since exactly
/// the accepted lines are to be accepted.
fn number(digits: &[u8]) -> Option<u8>
    ensures { result ≡ number_of_workers digits.now }
{
    match digits {
        [digit] if *digit >= b'1' && *digit <= b'8' => Some(*digit - b'0'),
        _ => None,
    }
}

/// The number of workers of a mode and an option whose value is a word of its own.
fn two_words(mode: &[u8], name: &[u8], value: &[u8]) -> Option<u8>
    ensures { result ≡ separate mode.now name.now value.now }
{
    if mode == b"step".as_slice() && name == b"--workers".as_slice() {
        number(value)
    } else {
        None
    }
}

/// The number of workers of a mode and an option with its value in one word.
fn one_word(mode: &[u8], option: &[u8]) -> Option<u8>
    ensures { result ≡ joined mode.now option.now }
{
    if option.len() < 10 {
        return None;
    }
    let (name, value) = option.split_at(10);
    if mode == b"step".as_slice() && name == b"--workers=".as_slice() {
        number(value)
    } else {
        None
    }
}

/// The number of workers that an accepted line names; None for every other line.
pub fn workers(words: &[String]) -> Option<u8>
    ensures { result ≡ workers_of (map (λ w. string_bytes w) words.now) }
{
    match words {
        [mode, option] => one_word(mode.as_bytes(), option.as_bytes()),
        [mode, name, value] => two_words(mode.as_bytes(), name.as_bytes(), value.as_bytes()),
        _ => None,
    }
}
