//! What is learned where a lemma has no literal left.
ghost use Rattle.std.specs.Prelude.{◌≡◌};
ghost use Rattle.pi_sat_spec.specs.declared.entry.SatEntry.{SatEntry};

use crate::building::put_weaker;
use crate::clauses::Clauses;
use crate::trail::{Bound, Reason, Taken, Trail};
use pi_constraints::{Places, VarDomain};
use pi_sat_spec::{Lemma, Literal, SatEntry};
use std::alloc::{AllocError, Global};

/// A conflict that was looked at: what to keep, and the level to go back to. No entry where the lemma that has no literal left says
/// it already.
#[derive(Drop)]
pub(crate) struct Conflict {
    pub(crate) entry: Option<SatEntry>,
    pub(crate) level: u64,
}

/// What is known so far of how a conflict came to be.
#[derive(Drop)]
pub(crate) struct Analysis {
    /// Of each literal of the trail the bound that is needed, where one is.
    needs: Vec<Option<i64>>,
    /// How many of the present level are needed and not looked at yet.
    open: u64,
    lemma: Vec<Literal>,
    /// The entries that lead to the conflict, the last first.
    reasons: Vec<u64>,
    level: u64,
    /// The places of the literals that took part.
    pub(crate) places: Vec<usize>,
}

/// Looks at a conflict: back to the first literal of the present level that alone leads to it.
pub(crate) fn analysis_of(
    alloc: Global,
    domains: &[VarDomain],
    clauses: &Clauses,
    trail: &Trail,
    number: usize,
) -> Result<Analysis, AllocError> {
    let mut analysis = Analysis::new(alloc, trail.taken.len())?;
    analysis.need_all(clauses, trail, number, None);
    for i in (0..trail.taken.len()).rev() {
        let one = trail.taken[i];
        if let Some(bound) = analysis.need_at(i) {
            analysis.look_at(domains, clauses, trail, one, bound)?;
        }
    }
    Ok(analysis)
}

impl Analysis {
    /// Nothing is needed of a trail of this length.
    fn new(alloc: Global, count: usize) -> Result<Analysis, AllocError> {
        let mut needs = Vec::new(alloc);
        for _ in 0..count {
            needs.push(None)?;
        }
        Ok(Analysis {
            needs,
            open: 0,
            lemma: Vec::new(alloc),
            reasons: Vec::new(alloc),
            level: 0,
            places: Vec::new(alloc),
        })
    }

    fn need_at(&self, i: usize) -> Option<i64> {
        match self.needs.as_slice().get(i) {
            None => None,
            Some(need) => *need,
        }
    }

    /// Needs what refutes each literal of a lemma but the one that it implied.
    fn need_all(&mut self, clauses: &Clauses, trail: &Trail, number: usize, but: Option<Bound>) {
        if let Some(clause) = clauses.all.as_slice().get(number) {
            for literal in clause.literals.as_slice() {
                if !is_of(*literal, but) {
                    self.need(trail, *literal);
                }
            }
        }
    }

    /// Needs what refutes a literal.
    fn need(&mut self, trail: &Trail, literal: Bound) {
        let Some(i) = trail.first_against(literal) else {
            return;
        };
        let Some(one) = trail.taken.as_slice().get(i) else {
            return;
        };
        let bound = match self.need_at(i) {
            None => {
                if one.level == trail.level {
                    self.open = self.open.saturating_add(1);
                }
                literal.bound
            }
            Some(before) => stronger(before, literal),
        };
        if i < self.needs.len() {
            self.needs[i] = Some(bound);
        }
    }

    /// Looks at a literal that is needed: on the first level its reason stands for it, and so on the present one where another one
    /// of it is needed too.
    fn look_at(
        &mut self,
        domains: &[VarDomain],
        clauses: &Clauses,
        trail: &Trail,
        one: Taken,
        bound: i64,
    ) -> Result<(), AllocError> {
        self.places.push(one.literal.place)?;
        let others = if one.level == trail.level {
            self.open = self.open.saturating_sub(1);
            self.open
        } else {
            0
        };
        match one.reason {
            Reason::Entry(reason) if one.level == 0 || others > 0 => {
                self.reasons.push(reason as u64)?;
                self.need_all(clauses, trail, reason, Some(one.literal));
                Ok(())
            }
            _ => self.deny(domains, trail, one, bound),
        }
    }

    /// Puts into the lemma that a literal doesn't hold.
    fn deny(
        &mut self,
        domains: &[VarDomain],
        trail: &Trail,
        one: Taken,
        bound: i64,
    ) -> Result<(), AllocError> {
        if one.level < trail.level && self.level < one.level {
            self.level = one.level;
        }
        if let Some(here) = domains.get(one.literal.place) {
            put_weaker(
                &mut self.lemma,
                Literal {
                    var: here.var,
                    bound,
                    above: !one.literal.above,
                },
            )?;
        }
        Ok(())
    }

    /// What the analysis comes to, of a conflict of the entry with this number.
    pub(crate) fn finished(self, alloc: Global, number: usize) -> Result<Conflict, AllocError> {
        let Analysis {
            needs: _,
            open: _,
            lemma,
            reasons,
            level,
            places: _,
        } = self;
        if reasons.is_empty() && !lemma.is_empty() {
            return Ok(Conflict { entry: None, level });
        }
        let mut hints = Vec::new(alloc);
        for i in (0..reasons.len()).rev() {
            hints.push(reasons[i])?;
        }
        hints.push(number as u64)?;
        Ok(Conflict {
            entry: Some(learned(lemma, hints)),
            level,
        })
    }
}

/// Whether a literal is the one that was taken: it has its place and direction.
fn is_of(literal: Bound, taken: Option<Bound>) -> bool {
    match taken {
        None => false,
        Some(taken) => literal.place == taken.place && literal.above == taken.above,
    }
}

/// Of two bounds the one that a refuted literal needs more.
fn stronger(before: i64, literal: Bound) -> i64 {
    if literal.above {
        before.min(literal.bound)
    } else {
        before.max(literal.bound)
    }
}

/// The entry of a lemma that follows from others.
pub(crate) fn learned(lemma: Vec<Literal>, hints: Vec<u64>) -> SatEntry
    ensures { result ≡ SatEntry.Learned lemma.items hints.items }
{
    SatEntry::Learned {
        lemma: Lemma::from_vec(lemma),
        hints: Places::from_vec(hints),
    }
}
