//! An option of the words.

ghost use Rattle.std.specs.Prelude.{◌≡◌, ◌<◌, ◌^◌, ◌↔◌, ℕ, IsTrue, MatchOption, map, string_bytes, decimal};
ghost use Rattle.soak_run.specs.Words.{name_text, IsNumber, is_padded, IsNoSetting, BeginsWith, IsNoPair, IsPair};

/// The options of the mode.
#[derive(Clone, Copy, Debug, PartialEq, Eq)]
pub enum OptionName {
    Seed,
    Txns,
    Workers,
}

impl OptionName {
    /// Whether the option may have this number.
    fn allows(self, number: u64) -> bool
        ensures { IsTrue result ↔ IsNumber self number }
    {
        match self {
            OptionName::Seed => true,
            OptionName::Txns => number <= 100_000,
            OptionName::Workers => 1 <= number && number <= 8,
        }
    }
}

/// The option of a name.
fn name_of(word: &str) -> Option<OptionName>
    ensures { MatchOption result ((name : OptionName) → word.now ≡ name_text name → ⊥) (λ name. word.now ≡ name_text name) }
{
    match word {
        "--seed" => Some(OptionName::Seed),
        "--txns" => Some(OptionName::Txns),
        "--workers" => Some(OptionName::Workers),
        _ => None,
    }
}

/// Whether a plus stands in front, or a zero in front of more.
fn is_padded(digits: &[u8]) -> bool
    ensures { result ≡ is_padded digits.now }
{
    match digits {
        [] => false,
        [byte] => *byte == b'+',
        [byte, ..] => *byte == b'+' || *byte == b'0',
    }
}

/// The number of decimal digits. `parse` alone would take a plus and zeros in front of it as well.
fn number_of(digits: &str) -> Option<u64>
    ensures { MatchOption result ((n : ℕ) → n < 2 ^ 64 → digits.now ≡ decimal n → ⊥) (λ n. (n < 2 ^ 64) × (digits.now ≡ decimal n)) }
{
    if is_padded(digits.as_bytes()) {
        return None;
    }
    match digits.parse::<u64>() {
        Ok(number) => Some(number),
        Err(_) => None,
    }
}

/// The option of a name and its number.
fn pair_of(name: &str, digits: &str) -> Option<(OptionName, u64)>
    ensures { MatchOption result (IsNoPair name.now digits.now) (λ x. IsPair name.now digits.now x.0 x.1) }
{
    let name = name_of(name)?;
    let number = number_of(digits)?;
    if name.allows(number) {
        Some((name, number))
    } else {
        None
    }
}

/// The option in front of some words, its number, and the words behind it.
pub fn first_setting(words: &[String]) -> Option<(OptionName, u64, &[String])>
    ensures { MatchOption result (IsNoSetting (map (λ w. string_bytes w) words.now)) (λ x. BeginsWith (map (λ w. string_bytes w) words.now) x.0 x.1 (map (λ w. string_bytes w) x.2.now)) }
{
    let [word, rest @ ..] = words else {
        return None;
    };
    if let Some((name, digits)) = word.as_str().split_once('=') {
        let (name, number) = pair_of(name, digits)?;
        return Some((name, number, rest));
    }
    let [digits, behind @ ..] = rest else {
        return None;
    };
    let (name, number) = pair_of(word.as_str(), digits.as_str())?;
    Some((name, number, behind))
}
