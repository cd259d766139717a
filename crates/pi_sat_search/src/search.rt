//! The search for a solution, entry by entry.
ghost use Rattle.std.specs.Prelude.{◌≡◌, [], IfOk, Err, All};
ghost use Rattle.pi_constraints.specs.Constraint.{IsWithinLimits};
ghost use Rattle.pi_sat_spec.specs.Logs.{AreRight};
ghost use Rattle.pi_sat_search.specs.Steps.{IsStep, Stays, MaySeek, IsOnce, AreApart};
ghost use Rattle.pi_sat_search.specs.declared.fault.SearchFault.TheVariants.{Limits, TwoDomains};
ghost use Rattle.pi_sat_search.specs.declared.stand.Stand.{Stand};

use crate::answers::{again, first_step};
use crate::course::Course;
use crate::fault::SearchFault;
use crate::given::Given;
use crate::limits::{are_once, are_within_limits};
use crate::stand::Stand;
use crate::steps::SatStep;
use pi_constraints::{Constraints, VarDomains};
use pi_sat_spec::SatLog;
use std::alloc::Global;
use std::marker::Model;

/// A search for values of all variables that solve all constraints. Each step keeps one more lemma, or gives an answer that stays.
/// A contract sees what it was given, the lemmas that it keeps, and how far it is.
#[derive(Drop)]
pub struct SatSearch {
    given: Given,
    log: SatLog,
    course: Course,
    stand: Stand,
}

impl Model for SatSearch {
    ghost use Rattle.pi_sat_search.specs.Steps.{Searched};

    ghost Value = { Searched };

    ghost view = { λ a. record { domains = a.given.domains; constraints = a.given.constraints; log = a.log; stand = a.stand } };

    ghost use Rattle.pi_sat_search.specs.Steps.{MaySeek, IsKept, StandsFor};

    ghost invariant = { λ a. MaySeek a.given.domains a.given.constraints × IsKept a.given.domains a.given.constraints a.log ×
        StandsFor a.given.domains a.given.constraints a.log a.stand };
}

impl SatSearch {
    /// A search in these domains for values that solve these constraints, with no lemma yet.
    ///
    /// # Errors
    ///
    /// Limits where a constraint isn't within its limits; TwoDomains where two domains are given for one variable; or memory was
    /// refused.
    pub fn new(
        alloc: Global,
        domains: &VarDomains,
        constraints: &Constraints,
    ) -> Result<SatSearch, SearchFault>
        ensures domains { IfOk result (λ search. search.domains ≡ domains.now) }
        ensures constraints { IfOk result (λ search. search.constraints ≡ constraints.now) }
        ensures log { IfOk result (λ search. search.log ≡ []) }
        ensures open { IfOk result (λ search. search.stand ≡ Stand.Open) }
        ensures may { IfOk result (λ _. MaySeek domains.now constraints.now) }
        ensures limits { result ≡ Err Limits → ¬ All IsWithinLimits constraints.now }
        ensures two_domains { result ≡ Err TwoDomains → ¬ IsOnce domains.now }
    {
        if !are_within_limits(constraints.as_slice()) {
            return Err(SearchFault::Limits);
        }
        if !are_once(domains.as_slice()) {
            return Err(SearchFault::TwoDomains);
        }
        let given = Given::new(alloc, domains, constraints)?;
        let course = Course::new(alloc, &given)?;
        Ok(SatSearch {
            given,
            log: SatLog::new(alloc),
            course,
            stand: Stand::Open,
        })
    }

    /// The next step: one lemma more, which is right over those before it and not kept yet, or an answer. An answer stays: each
    /// step after it tells the same. Only a solution may be followed by a refusal of memory, which then stays. It is told that memory
    /// was refused only where an allocation failed.
    pub fn next(&mut self) -> SatStep
        ensures domains { self.new.domains ≡ self.old.domains }
        ensures constraints { self.new.constraints ≡ self.old.constraints }
        ensures step { IsStep self.old self.new result }
        ensures stays { Stays self.old.stand result }
    {
        match again(self.given.alloc, &mut self.stand) {
            Some(step) => step,
            None => first_step(
                &self.given,
                &mut self.log,
                &mut self.course,
                &mut self.stand,
            ),
        }
    }

    /// The lemmas that are kept, each right over those before it.
    pub fn log(&self) -> &SatLog
        ensures all { result.now ≡ self.now.log }
        ensures right { AreRight self.now.domains self.now.constraints self.now.log }
        ensures apart { AreApart self.now.log }
    {
        &self.log
    }
}
