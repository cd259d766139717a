//! The present ends of the domains, and how they came to be.
use pi_constraints::{Domain, VarDomain, max, min};
use std::alloc::{AllocError, Global};

/// A literal by the place of its variable.
#[derive(Clone, Copy)]
pub(crate) struct Bound {
    pub(crate) place: usize,
    pub(crate) bound: i64,
    pub(crate) above: bool,
}

/// Why a literal was taken.
#[derive(Clone, Copy)]
pub(crate) enum Reason {
    /// It was decided.
    Decision,
    /// The entry with this number allowed nothing else.
    Entry(usize),
}

/// The present ends of a domain, and the places in the trail of the literals that set them last.
#[derive(Clone, Copy)]
pub(crate) struct Ends {
    pub(crate) low: i64,
    pub(crate) high: i64,
    low_by: Option<usize>,
    high_by: Option<usize>,
}

/// A literal that was taken: the end that it set, the one before, and the place of the literal that had set that.
#[derive(Clone, Copy)]
pub(crate) struct Taken {
    pub(crate) literal: Bound,
    pub(crate) reason: Reason,
    pub(crate) level: u64,
    end: i64,
    before: i64,
    earlier: Option<usize>,
}

/// The present ends, by places, and the literals that cut the domains, from the first.
#[derive(Drop)]
pub(crate) struct Trail {
    pub(crate) ends: Vec<Ends>,
    pub(crate) taken: Vec<Taken>,
    pub(crate) level: u64,
}

impl Trail {
    /// The ends of the domains that are given.
    pub(crate) fn new(alloc: Global, domains: &[VarDomain]) -> Result<Trail, AllocError> {
        let mut ends = Vec::new(alloc);
        for one in domains {
            ends.push(ends_of(&one.domain))?;
        }
        Ok(Trail {
            ends,
            taken: Vec::new(alloc),
            level: 0,
        })
    }

    /// Whether the present ends leave a literal no value.
    pub(crate) fn is_false(&self, literal: Bound) -> bool {
        match self.ends.as_slice().get(literal.place) {
            None => true,
            Some(ends) => is_false(*ends, literal),
        }
    }

    /// Whether the present ends make a literal so.
    pub(crate) fn is_true(&self, literal: Bound) -> bool {
        match self.ends.as_slice().get(literal.place) {
            None => false,
            Some(ends) => is_true(*ends, literal),
        }
    }

    /// Takes a literal, and tells whether it cut anything.
    pub(crate) fn take(
        &mut self,
        domains: &[VarDomain],
        literal: Bound,
        reason: Reason,
    ) -> Result<bool, AllocError> {
        let Some(one) = domains.get(literal.place) else {
            return Ok(false);
        };
        let Some(ends) = ends_at(self.ends.as_slice(), literal.place) else {
            return Ok(false);
        };
        let Some(end) = end_by(&one.domain, literal) else {
            return Ok(false);
        };
        if is_true(ends, literal) {
            return Ok(false);
        }
        let (before, earlier) = if literal.above {
            (ends.low, ends.low_by)
        } else {
            (ends.high, ends.high_by)
        };
        let place = self.taken.len();
        self.taken.push(Taken {
            literal,
            reason,
            level: self.level,
            end,
            before,
            earlier,
        })?;
        self.set(literal, end, Some(place));
        Ok(true)
    }

    /// Sets an end, and what set it.
    fn set(&mut self, literal: Bound, end: i64, by: Option<usize>) {
        if literal.place < self.ends.len() {
            let ends = &mut self.ends[literal.place];
            if literal.above {
                ends.low = end;
                ends.low_by = by;
            } else {
                ends.high = end;
                ends.high_by = by;
            }
        }
    }

    /// Takes a literal that is decided, on a level of its own.
    pub(crate) fn decide(
        &mut self,
        domains: &[VarDomain],
        literal: Bound,
    ) -> Result<(), AllocError> {
        self.level = self.level.saturating_add(1);
        self.take(domains, literal, Reason::Decision)?;
        Ok(())
    }

    /// Takes back what was taken above a level.
    pub(crate) fn back_to(&mut self, level: u64) {
        for _ in 0..self.taken.len() {
            let Some(last) = last_above(self.taken.as_slice(), level) else {
                break;
            };
            self.taken.pop();
            self.set(last.literal, last.before, last.earlier);
        }
        self.level = level;
    }

    /// The place in the trail of the first literal that left this one no value; None where the given ends leave it none.
    pub(crate) fn first_against(&self, literal: Bound) -> Option<usize> {
        let ends = ends_at(self.ends.as_slice(), literal.place)?;
        let mut at = if literal.above {
            ends.high_by
        } else {
            ends.low_by
        };
        let mut found = None;
        for _ in 0..self.taken.len() {
            let Some(i) = at else {
                return found;
            };
            let Some(one) = self.taken.as_slice().get(i) else {
                return found;
            };
            if !is_against(one.end, literal) {
                return found;
            }
            found = Some(i);
            at = one.earlier;
        }
        found
    }
}

/// The ends at a place.
pub(crate) fn ends_at(ends: &[Ends], place: usize) -> Option<Ends> {
    match ends.get(place) {
        None => None,
        Some(ends) => Some(*ends),
    }
}

/// The ends of a domain; of one without a value they cross.
fn ends_of(domain: &Domain) -> Ends {
    let (low, high) = match (min(domain), max(domain)) {
        (Some(low), Some(high)) => (low, high),
        _ => (1, 0),
    };
    Ends {
        low,
        high,
        low_by: None,
        high_by: None,
    }
}

fn is_false(ends: Ends, literal: Bound) -> bool {
    if literal.above {
        ends.high <= literal.bound
    } else {
        literal.bound < ends.low
    }
}

fn is_true(ends: Ends, literal: Bound) -> bool {
    if literal.above {
        literal.bound < ends.low
    } else {
        ends.high <= literal.bound
    }
}

/// Whether an end, on the side that a literal asks of, leaves it no value.
fn is_against(end: i64, literal: Bound) -> bool {
    if literal.above {
        end <= literal.bound
    } else {
        literal.bound < end
    }
}

/// The last that was taken, where it was taken above a level.
fn last_above(taken: &[Taken], level: u64) -> Option<Taken> {
    let last = taken.last()?;
    if last.level > level {
        return Some(*last);
    }
    None
}

/// The end that a literal leaves of a domain.
fn end_by(domain: &Domain, literal: Bound) -> Option<i64> {
    if literal.above {
        value_above(domain, literal.bound)
    } else {
        value_at_most(domain, literal.bound)
    }
}

/// The least value above a bound.
pub(crate) fn value_above(domain: &Domain, bound: i64) -> Option<i64> {
    for span in domain.spans() {
        if bound < span.lo {
            return Some(span.lo);
        }
        if bound < span.hi {
            return Some(bound + 1);
        }
    }
    None
}

/// The greatest value that is at most a bound.
pub(crate) fn value_at_most(domain: &Domain, bound: i64) -> Option<i64> {
    let mut found = None;
    for span in domain.spans() {
        if span.lo <= bound {
            found = Some(span.hi.min(bound));
        }
    }
    found
}
