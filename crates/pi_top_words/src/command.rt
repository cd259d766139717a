//! The command whose matches the words are.
ghost use Rattle.std.specs.Prelude.{◌≡◌, false, IfOk};
ghost use Rattle.clap.specs.Words.{app_of, rule_of};
ghost use Rattle.pi_top_words.specs.Command.{word_rule, option_rule, the_command};

use clap::{Arg, ArgAction, Command};
use std::alloc::{AllocError, Global};

/// The command: the options, each with a value, FILE, and GOAL, which may be absent.
pub(crate) fn command<'a>(alloc: Global) -> Result<Command<'a>, AllocError>
    ensures { IfOk result (λ command. app_of command ≡ the_command) }
{
    let command = Command::new(alloc, "picatq")
        .no_binary_name(true)
        .arg(option(alloc, "answers"))?
        .arg(option(alloc, "steps"))?
        .arg(option(alloc, "work"))?
        .arg(option(alloc, "mode"))?
        .arg(word(alloc, "file", true))?
        .arg(word(alloc, "goal", false))?;
    Ok(command)
}

/// An option with a value.
fn option<'a>(alloc: Global, name: &'a str) -> Arg<'a>
    ensures rule { rule_of result ≡ option_rule name.entry.now }
    ensures local { result.global ≡ false }
{
    Arg::new(alloc, name).long(name).action(ArgAction::Set)
}

/// A word that stands for itself.
fn word<'a>(alloc: Global, name: &'a str, is_required: bool) -> Arg<'a>
    ensures rule { rule_of result ≡ word_rule name.entry.now is_required }
    ensures local { result.global ≡ false }
{
    Arg::new(alloc, name)
        .required(is_required)
        .action(ArgAction::Set)
}
