//! The words of the mode.

ghost use Rattle.std.specs.Prelude.{◌≡◌, ℕ, MatchBool, MatchOption, map, string_bytes};
ghost use Rattle.std.specs.Prelude.{[], ◌∷◌};
ghost use Rattle.soak_run.specs.Words.{IsNumber, IsSoakLine, HasOptions, AddsSetting, AreRead, given, IsShort, IsFull};

use crate::setting::{OptionName, first_setting};

/// What an accepted line of the mode asks for.
#[derive(Clone, Copy, Debug, PartialEq, Eq)]
pub struct Job {
    pub seed: u64,
    /// How many transfers, at most 100,000.
    pub txns: u32,
    /// How many workers, 1 to 8.
    pub workers: u8,
}

/// The options that were read so far.
#[derive(Clone, Copy, Debug, PartialEq, Eq)]
struct Settings {
    seed: Option<u64>,
    txns: Option<u32>,
    workers: Option<u8>,
}

impl Settings {
    /// Takes an option, and says whether it is new. One that was there before is of no use.
    fn take(&mut self, name: OptionName, number: u64) -> bool
        requires { IsNumber name number }
        ensures { MatchBool result (AddsSetting self.old self.new name number) ((before : ℕ) × (given self.old name ≡ before ∷ [])) }
    {
        match name {
            OptionName::Seed => self.seed.replace(number).is_none(),
            OptionName::Txns => self.txns.replace(number as u32).is_none(),
            OptionName::Workers => self.workers.replace(number as u8).is_none(),
        }
    }

    /// What the options ask for, where each of them was there.
    fn into_job(self) -> Option<Job>
        ensures { MatchOption result (IsShort self) (λ job. IsFull self job) }
    {
        Some(Job {
            seed: self.seed?,
            txns: self.txns?,
            workers: self.workers?,
        })
    }
}

/// The options behind the mode.
fn settings_of(words: &[String]) -> Option<Settings>
    ensures { MatchOption result ((job : Job) → HasOptions (map (λ w. string_bytes w) words.now) job → ⊥) (λ s. AreRead (map (λ w. string_bytes w) words.now) [] s) }
{
    let mut settings = Settings {
        seed: None,
        txns: None,
        workers: None,
    };
    let mut rest = words;
    while !rest.is_empty() {
        let Some((name, number, behind)) = first_setting(rest) else {
            return None;
        };
        if !settings.take(name, number) {
            return None;
        }
        rest = behind;
    }
    Some(settings)
}

/// What the words that follow the program's name ask for, where they are an accepted line of this
/// mode: the mode, and behind it its three options, each once, in any order. An option and its number
/// are two words, or one with `=` between them. Read by hand, since exactly these lines are to be
/// accepted.
pub fn job_of(words: &[String]) -> Option<Job>
    ensures { MatchOption result ((job : Job) → IsSoakLine (map (λ w. string_bytes w) words.now) job → ⊥) (λ job. IsSoakLine (map (λ w. string_bytes w) words.now) job) }
{
    let [mode, options @ ..] = words else {
        return None;
    };
    if mode.as_str() != "soak" {
        return None;
    }
    let Some(settings) = settings_of(options) else {
        return None;
    };
    settings.into_job()
}
