//! What is asked in a mode, and how.
ghost use Rattle.std.specs.Prelude.{◌≡◌};
ghost use Rattle.pi_top.specs.Manner as spec;

use pi_top_words::{Options, RunMode};

/// Which lines of a goal's run are written, beside the texts that the program writes itself.
#[derive(Clone, Copy)]
pub enum Lines {
    All,
    /// Not those of answers, and not that of an end behind answers.
    WithoutAnswers,
}

/// How a goal is asked.
#[derive(Clone, Copy)]
pub struct Manner {
    /// How many answers are asked for.
    pub answers: u64,
    /// How many Ticks it may take.
    pub steps: u64,
    /// How much work it may take.
    pub work: u64,
    pub lines: Lines,
}

impl Manner {
    /// How the goal of a command line is asked.
    pub fn of(asked: &Options) -> Manner
        ensures { result ≡ spec.manner_of asked.now }
    {
        match asked.mode {
            RunMode::Run => Manner::once(asked),
            RunMode::Demo => Manner::once(asked),
            _ => Manner::as_asked(asked),
        }
    }

    /// As many answers as the words say, with all lines.
    pub fn as_asked(asked: &Options) -> Manner
        ensures { result ≡ spec.as_asked asked.now }
    {
        Manner {
            answers: asked.answers,
            steps: asked.steps,
            work: asked.work,
            lines: Lines::All,
        }
    }

    /// One answer, of which nothing is written.
    fn once(asked: &Options) -> Manner
        ensures { result ≡ spec.once asked.now }
    {
        Manner {
            answers: 1,
            steps: asked.steps,
            work: asked.work,
            lines: Lines::WithoutAnswers,
        }
    }
}

/// The goal of a command line: GOAL, and `main` where there is none.
pub fn goal_of(asked: &Options) -> &str
    ensures { result.now ≡ spec.goal_of asked.now }
{
    match &asked.goal {
        Some(goal) => goal.as_str(),
        None => "main",
    }
}
