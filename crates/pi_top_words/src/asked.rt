//! What a command line asks.
ghost use Rattle.std.specs.Prelude.{◌≡◌, ◌≤◌, IfSome, IfOk, IfErr, Some, None};
ghost use Rattle.clap.specs.Words.{found_of, rows_of};
ghost use Rattle.pi_top_words.specs.Words as spec;
ghost use Rattle.pi_top_words.specs.declared.words.WordsFault.TheVariants.{NoRecord};

use crate::numbers::places_by;
use crate::run_mode::RunMode;
use crate::settings::{Settings, value_of};
use crate::words::WordsFault;
use clap::ArgMatches;
use pi_terms::Text;
use std::alloc::{AllocError, Global};

/// What a command line asks.
#[derive(Drop)]
pub struct Options {
    /// How many answers are asked for.
    pub answers: u64,
    /// How many Ticks a query may take.
    pub steps: u64,
    /// How much work a query may take.
    pub work: u64,
    pub mode: RunMode,
    /// The name of the program's file, or in the mode `demo` a number.
    pub file: Text,
    /// The goal's text, in the mode `query`.
    pub goal: Option<Text>,
}

impl Options {
    /// How many places the program of the mode `demo` has.
    pub fn places(&self) -> Option<u32>
        ensures number { result ≡ spec.places_of self.now }
        ensures within { IfSome result (λ places. (1 ≤ places) × (places ≤ 400)) }
    {
        places_by(self.file.as_str())
    }

    /// What the matches of a command line ask.
    pub(crate) fn of(alloc: Global, matches: &ArgMatches<'_>) -> Result<Options, WordsFault>
        ensures ok { IfOk result (λ asked. spec.asked_in (rows_of (found_of matches.now)) ≡ Some asked) }
        ensures no_record { IfErr result (λ e. e ≡ NoRecord → spec.asked_in (rows_of (found_of matches.now)) ≡ None) }
    {
        let settings = Settings::of(matches);
        let file = value_of(matches, "file");
        let goal = value_of(matches, "goal");
        asked_with(alloc, settings, file, goal)
    }
}

/// What options, FILE and GOAL ask together, where the options have their values and FILE is there.
fn asked_with(
    alloc: Global,
    settings: Option<Settings>,
    file: Option<&str>,
    goal: Option<&str>,
) -> Result<Options, WordsFault>
    ensures ok { IfOk result (λ asked. spec.asked_with settings (spec.told file.entry) (spec.told goal.entry) ≡ Some asked) }
    ensures no_record { IfErr result (λ e. e ≡ NoRecord → spec.asked_with settings (spec.told file.entry) (spec.told goal.entry) ≡ None) }
{
    let Some(settings) = settings else {
        return Err(WordsFault::NoRecord);
    };
    let Some(file) = file else {
        return Err(WordsFault::NoRecord);
    };
    asked_by(alloc, settings, file, goal)
}

/// What options, FILE and GOAL ask together.
fn asked_by(
    alloc: Global,
    settings: Settings,
    file: &str,
    goal: Option<&str>,
) -> Result<Options, WordsFault>
    ensures ok { IfOk result (λ asked. spec.asked_by settings file.now (spec.told goal.entry) ≡ Some asked) }
    ensures no_record { IfErr result (λ e. e ≡ NoRecord → spec.asked_by settings file.now (spec.told goal.entry) ≡ None) }
{
    let mode = settings.mode;
    if !mode.takes_file(file) || !mode.takes_goal(goal.is_some()) {
        return Err(WordsFault::NoRecord);
    }
    let file = Text::new(alloc, file)?;
    let goal = text_of(alloc, goal)?;
    Ok(Options {
        answers: settings.answers,
        steps: settings.steps,
        work: settings.work,
        mode,
        file,
        goal,
    })
}

/// The text of a word that is there.
fn text_of(alloc: Global, word: Option<&str>) -> Result<Option<Text>, AllocError>
    ensures { IfOk result (λ text. text ≡ spec.told word.entry) }
{
    match word {
        Some(word) => Ok(Some(Text::new(alloc, word)?)),
        None => Ok(None),
    }
}
