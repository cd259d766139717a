//! What the options of a command line set.
ghost use Rattle.std.specs.Prelude.{◌≡◌};
ghost use Rattle.clap.specs.Words.{first_of, found_of, rows_of};
ghost use Rattle.pi_top_words.specs.Words as spec;

use crate::numbers::number_within;
use crate::run_mode::RunMode;
use clap::ArgMatches;

const MOST_ANSWERS: u64 = 1_000_000_000;

const MOST_STEPS: u64 = 1_000_000_000_000;

const MOST_WORK: u64 = 1_000_000_000_000;

/// How many Ticks a query may take, where no option says so.
const STEPS: u64 = 100_000_000;

/// How much work a query may take, where no option says so.
const WORK: u64 = 100_000_000;

/// What the options of a command line set.
#[derive(Clone, Copy)]
pub(crate) struct Settings {
    pub answers: u64,
    pub steps: u64,
    pub work: u64,
    pub mode: RunMode,
}

impl Settings {
    /// What these options set; None where one of them has a value that isn't one of its values.
    pub fn of(matches: &ArgMatches<'_>) -> Option<Settings>
        ensures { result ≡ spec.settings_in (rows_of (found_of matches.now)) }
    {
        let answers = number_or(MOST_ANSWERS, 1, MOST_ANSWERS, value_of(matches, "answers"));
        let steps = number_or(STEPS, 0, MOST_STEPS, value_of(matches, "steps"));
        let work = number_or(WORK, 0, MOST_WORK, value_of(matches, "work"));
        let mode = mode_or(RunMode::Query, value_of(matches, "mode"));
        Settings::together(answers, steps, work, mode)
    }

    /// All of them, where each is there.
    fn together(
        answers: Option<u64>,
        steps: Option<u64>,
        work: Option<u64>,
        mode: Option<RunMode>,
    ) -> Option<Settings>
        ensures { result ≡ spec.together answers steps work mode }
    {
        Some(Settings {
            answers: answers?,
            steps: steps?,
            work: work?,
            mode: mode?,
        })
    }
}

/// The word that stands for an argument.
pub(crate) fn value_of<'a>(matches: &ArgMatches<'a>, name: &str) -> Option<&'a str>
    ensures { spec.told result ≡ first_of name.now (rows_of (found_of matches.now)) }
{
    matches.get_str(name)
}

/// The number that a word is, and where there is none the default.
fn number_or(default: u64, least: u64, most: u64, word: Option<&str>) -> Option<u64>
    ensures { result ≡ spec.value_or default (spec.number_within least most) (spec.told word.entry) }
{
    match word {
        Some(word) => number_within(least, most, word),
        None => Some(default),
    }
}

/// The mode that a word names, and where there is none the default.
fn mode_or(default: RunMode, word: Option<&str>) -> Option<RunMode>
    ensures { result ≡ spec.value_or default spec.mode_named (spec.told word.entry) }
{
    match word {
        Some(word) => RunMode::named(word),
        None => Some(default),
    }
}
