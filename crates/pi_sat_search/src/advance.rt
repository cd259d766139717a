//! What a step of an open search comes to: what the free search offers is tested, and where a test refuses it the sure step is taken.
ghost use Rattle.std.specs.Prelude.{◌≡◌, IfOk, OnErr};
ghost use Rattle.pi_sat_search.specs.Nodes.{MayGo};
ghost use Rattle.pi_sat_search.specs.Steps.{IsFound};

use crate::append::append;
use crate::course::{Course, Sought};
use crate::given::Given;
use crate::solutions::is_solution;
use crate::sure::{Sure, find};
use pi_sat_spec::{Assignment, SatEntry, SatLog};
use std::alloc::AllocError;

/// What the search comes to.
pub(crate) enum Found {
    /// One more entry is kept.
    Learned,
    /// These values are a solution.
    Yes(Assignment),
}

/// Searches on, up to one more entry or to a solution. Where a test refuses what the free search offers, the sure step is taken.
pub(crate) fn advance(
    given: &Given,
    log: &mut SatLog,
    course: &mut Course,
) -> Result<Found, AllocError>
    requires { MayGo given.now.domains given.now.constraints log.old }
    ensures found { IfOk result (λ found. IsFound given.now.domains given.now.constraints log.old log.new found) }
    ensures err { OnErr result (log.new ≡ log.old) }
{
    match course.seek(given, log.as_slice())? {
        Sought::Entry(entry) => kept(given, log, entry),
        Sought::Fixed(values) => tested(given, log, values),
        Sought::Nothing => surely(given, log),
    }
}

/// Takes the sure step.
fn surely(given: &Given, log: &mut SatLog) -> Result<Found, AllocError>
    requires { MayGo given.now.domains given.now.constraints log.old }
    ensures found { IfOk result (λ found. IsFound given.now.domains given.now.constraints log.old log.new found) }
    ensures err { OnErr result (log.new ≡ log.old) }
{
    match find(given, log.as_slice())? {
        Sure::Yes(values) => Ok(Found::Yes(values)),
        Sure::Entry(entry) => {
            log.push(entry)?;
            Ok(Found::Learned)
        }
    }
}

/// Keeps an entry that passes its test.
fn kept(given: &Given, log: &mut SatLog, entry: SatEntry) -> Result<Found, AllocError>
    requires { MayGo given.now.domains given.now.constraints log.old }
    ensures found { IfOk result (λ found. IsFound given.now.domains given.now.constraints log.old log.new found) }
    ensures err { OnErr result (log.new ≡ log.old) }
{
    if append(given, log, entry)? {
        return Ok(Found::Learned);
    }
    surely(given, log)
}

/// Answers values that pass their test.
fn tested(given: &Given, log: &mut SatLog, values: Assignment) -> Result<Found, AllocError>
    requires { MayGo given.now.domains given.now.constraints log.old }
    ensures found { IfOk result (λ found. IsFound given.now.domains given.now.constraints log.old log.new found) }
    ensures err { OnErr result (log.new ≡ log.old) }
{
    if is_solution(given, values.as_slice())? {
        return Ok(Found::Yes(values));
    }
    surely(given, log)
}
