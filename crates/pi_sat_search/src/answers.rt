//! The answers of a search: those that stay, and those that a step comes to.
ghost use Rattle.std.specs.Prelude.{◌≡◌, ◌↔◌, IsTrue};
ghost use Rattle.pi_sat_spec.specs.Logs.{EndsEmpty};
ghost use Rattle.pi_sat_search.specs.Steps.{MaySeek, IsKept, IsAgain, IsAnswered, IsFirst};
ghost use Rattle.pi_sat_search.specs.declared.stand.Stand.{Stand};
ghost use Rattle.pi_sat_search.specs.declared.steps.SatStep.{SatStep};

use crate::advance::{Found, advance};
use crate::course::Course;
use crate::given::Given;
use crate::lemmas::lemma_of;
use crate::stand::Stand;
use crate::steps::SatStep;
use pi_sat_spec::{Assignment, SatEntry, SatLog};
use std::alloc::Global;

/// The answer that stays; None where the search is open. Where memory is refused to hand out a solution once more, that stays.
pub(crate) fn again(alloc: Global, stand: &mut Stand) -> Option<SatStep>
    ensures { IsAgain stand.old stand.new result }
{
    match stand {
        Stand::Open => None,
        Stand::No => Some(SatStep::No),
        Stand::Memory => Some(SatStep::Memory),
        Stand::Yes(values) => match values.copy(alloc) {
            Ok(same) => Some(SatStep::Yes(same)),
            Err(_) => {
                *stand = Stand::Memory;
                Some(SatStep::Memory)
            }
        },
    }
}

/// A step of a search that is open.
pub(crate) fn first_step(
    given: &Given,
    log: &mut SatLog,
    course: &mut Course,
    stand: &mut Stand,
) -> SatStep
    requires may { MaySeek given.now.domains given.now.constraints }
    requires kept { IsKept given.now.domains given.now.constraints log.old }
    requires open { stand.old ≡ Stand.Open }
    ensures { IsFirst given.now.domains given.now.constraints log.old log.new stand.new result }
{
    if ends_empty(log.as_slice()) {
        *stand = Stand::No;
        return SatStep::No;
    }
    match advance(given, log, course) {
        Ok(Found::Learned) => SatStep::Learned,
        Ok(Found::Yes(values)) => answered(given.alloc, values, stand),
        Err(_) => refused(stand),
    }
}

/// Answers a solution, which stays.
fn answered(alloc: Global, values: Assignment, stand: &mut Stand) -> SatStep
    ensures { IsAnswered values stand.new result }
{
    match values.copy(alloc) {
        Ok(same) => {
            *stand = Stand::Yes(same);
            SatStep::Yes(values)
        }
        Err(_) => refused(stand),
    }
}

/// Answers that memory was refused, which stays.
fn refused(stand: &mut Stand) -> SatStep
    ensures stand { stand.new ≡ Stand.Memory }
    ensures step { result ≡ SatStep.Memory }
{
    *stand = Stand::Memory;
    SatStep::Memory
}

/// Whether the last lemma is there and is empty.
fn ends_empty(entries: &[SatEntry]) -> bool
    ensures { IsTrue result ↔ EndsEmpty entries.now }
{
    match entries.last() {
        None => false,
        Some(entry) => lemma_of(entry).is_empty(),
    }
}
