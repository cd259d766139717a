//! The words of a command line.
ghost use Rattle.std.specs.Prelude.{◌≡◌, map, IfOk, IfErr, Some, None};
ghost use Rattle.std.specs.String.{string_bytes};
ghost use Rattle.clap.specs.Words.{kind_of};
ghost use Rattle.clap.specs.declared.error.kind.ErrorKind.TheVariants.{OutOfMemory};
ghost use Rattle.pi_top_words.specs.Words.{options};
ghost use Rattle.pi_top_words.specs.declared.words.WordsFault.TheVariants.{NoRecord, Memory};

use crate::asked::Options;
use crate::command::command;
use clap::error::{Error, ErrorKind};
use std::alloc::{AllocError, Global};

/// Why words aren't read.
#[derive(Clone, Copy)]
pub enum WordsFault {
    /// They aren't those of a command line.
    NoRecord,
    Memory,
}

impl From<AllocError> for WordsFault {
    ghost from_gives = { λ _ e. e ≡ Memory };

    fn from(_e: AllocError) -> WordsFault {
        WordsFault::Memory
    }
}

/// What the words behind the program's name ask.
pub fn read_words(alloc: Global, words: &[String]) -> Result<Options, WordsFault>
    ensures ok { IfOk result (λ asked. options (map string_bytes words.now) ≡ Some asked) }
    ensures no_record { IfErr result (λ e. e ≡ NoRecord → options (map string_bytes words.now) ≡ None) }
{
    let command = command(alloc)?;
    match command.try_get_matches_from(words) {
        Ok(matches) => Options::of(alloc, &matches),
        Err(error) => Err(fault_of(&error)),
    }
}

/// Why words aren't read, by the error of their parse.
fn fault_of(error: &Error) -> WordsFault
    ensures { kind_of error.now ≡ OutOfMemory → result ≡ Memory }
{
    match error.kind() {
        ErrorKind::OutOfMemory => WordsFault::Memory,
        _ => WordsFault::NoRecord,
    }
}
