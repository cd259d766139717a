//! The free search: propagation, decisions, what is learned from conflicts, and restarts.
ghost use Rattle.std.specs.Prelude.{All};
ghost use Rattle.pi_constraints.specs.Constraint.{IsWithinLimits};

use crate::asking::Asking;
use crate::clauses::Clauses;
use crate::cuts::has_empty;
use crate::decisions::{Activity, decision, values_of};
use crate::given::Given;
use crate::learning::{Conflict, analysis_of};
use crate::lemmas::lemma_of;
use crate::lookup::place_of;
use crate::reasons::reason_of;
use crate::trail::{Bound, Trail};
use pi_constraints::VarDomain;
use pi_sat_spec::{Assignment, Literal, SatEntry};
use std::alloc::{AllocError, Global};
use std::mem;

/// After how many conflicts the search begins anew for the first time.
const FIRST: u64 = 100;

/// Where a search is.
#[derive(Drop)]
pub(crate) struct Course {
    trail: Trail,
    clauses: Clauses,
    asking: Asking,
    activity: Activity,
    /// A lemma that had no literal left, and is to be looked at again.
    again: Option<usize>,
    /// How many conflicts there were since the search began anew, and how many there may be.
    conflicts: u64,
    most: u64,
    /// A domain has no value.
    is_empty: bool,
}

/// What the search finds for the log, or for an answer.
pub(crate) enum Sought {
    /// An entry that is to be kept.
    Entry(SatEntry),
    /// All domains are fixed, to these values.
    Fixed(Assignment),
    /// Nothing.
    Nothing,
}

/// What the present ends ask for.
enum Wanted {
    /// The lemma of the entry with this number has no literal left.
    Conflict(usize),
    /// An entry is to be kept.
    Entry(SatEntry),
    /// All domains are fixed.
    Fixed(Assignment),
    /// To look again.
    More,
}

impl Course {
    /// The beginning of a search.
    pub(crate) fn new(alloc: Global, given: &Given) -> Result<Course, AllocError> {
        let domains = given.domains.as_slice();
        let trail = Trail::new(alloc, domains)?;
        let clauses = Clauses::new(alloc, domains.len())?;
        let asking = Asking::new(alloc, domains, given.constraints.as_slice())?;
        let activity = Activity::new(alloc, domains.len())?;
        Ok(Course {
            trail,
            clauses,
            asking,
            activity,
            again: None,
            conflicts: 0,
            most: FIRST,
            is_empty: has_empty(domains),
        })
    }

    /// Goes on up to what the log or an answer is to have.
    pub(crate) fn seek(&mut self, given: &Given, entries: &[SatEntry]) -> Result<Sought, AllocError>
        requires { All IsWithinLimits given.now.constraints }
    {
        if self.is_empty {
            return Ok(Sought::Nothing);
        }
        for _ in 0..u64::MAX {
            match self.look(given, entries)? {
                Wanted::More => {}
                Wanted::Entry(entry) => return Ok(Sought::Entry(entry)),
                Wanted::Fixed(values) => return Ok(Sought::Fixed(values)),
                Wanted::Conflict(number) => {
                    if let Some(entry) = self.learn(given, number)? {
                        return Ok(Sought::Entry(entry));
                    }
                }
            }
        }
        Ok(Sought::Nothing)
    }

    /// What the present ends ask for: what lemmas leave alone is taken first, then filters are asked, then a literal is decided.
    fn look(&mut self, given: &Given, entries: &[SatEntry]) -> Result<Wanted, AllocError>
        requires { All IsWithinLimits given.now.constraints }
    {
        let domains = given.domains.as_slice();
        if let Some(number) = self.taken_up(given.alloc, domains, entries)? {
            return Ok(Wanted::Conflict(number));
        }
        let found = self
            .clauses
            .propagate(given.alloc, domains, &mut self.trail)?;
        if let Some(number) = found {
            return Ok(Wanted::Conflict(number));
        }
        self.asking.see(&self.trail)?;
        match self.asking.next() {
            Some(number) => self.ask(given, number),
            None => self.decide(given),
        }
    }

    /// Asks the filter of a constraint.
    fn ask(&mut self, given: &Given, number: usize) -> Result<Wanted, AllocError>
        requires { All IsWithinLimits given.now.constraints }
    {
        match reason_of(given, self.trail.ends.as_slice(), number)? {
            Some(entry) => Ok(Wanted::Entry(entry)),
            None => {
                self.asking.done();
                Ok(Wanted::More)
            }
        }
    }

    /// Decides a literal; or all are fixed.
    fn decide(&mut self, given: &Given) -> Result<Wanted, AllocError> {
        let domains = given.domains.as_slice();
        match decision(domains, &self.trail, &self.activity) {
            Some(literal) => {
                self.trail.decide(domains, literal)?;
                Ok(Wanted::More)
            }
            None => {
                let values = values_of(given.alloc, domains, &self.trail)?;
                Ok(Wanted::Fixed(values))
            }
        }
    }

    /// Takes up the entries that are new, and the lemma that is to be looked at again. The number of one without a literal left.
    fn taken_up(
        &mut self,
        alloc: Global,
        domains: &[VarDomain],
        entries: &[SatEntry],
    ) -> Result<Option<usize>, AllocError> {
        if let Some(number) = mem::replace(&mut self.again, None) {
            if self
                .clauses
                .is_refuted_again(domains, &mut self.trail, number)?
            {
                return Ok(Some(number));
            }
        }
        for number in self.clauses.all.len()..entries.len() {
            let literals = bounds_of(alloc, domains, lemma_of(&entries[number]))?;
            if self.clauses.add(domains, &mut self.trail, literals)? {
                return Ok(Some(number));
            }
        }
        Ok(None)
    }

    /// Looks at a conflict, and goes back. The entry that is learned; None where the lemma without a literal left says it already.
    fn learn(&mut self, given: &Given, number: usize) -> Result<Option<SatEntry>, AllocError> {
        let domains = given.domains.as_slice();
        let analysis = analysis_of(given.alloc, domains, &self.clauses, &self.trail, number)?;
        self.activity.add(analysis.places.as_slice());
        let Conflict { entry, level } = analysis.finished(given.alloc, number)?;
        if entry.is_none() {
            self.back_to(level);
            self.again = Some(number);
            return Ok(None);
        }
        self.conflicts = self.conflicts.saturating_add(1);
        if self.conflicts < self.most {
            self.back_to(level);
        } else {
            self.conflicts = 0;
            self.most = self.most.saturating_add(self.most / 8);
            self.back_to(0);
        }
        Ok(entry)
    }

    /// Takes back what was taken above a level.
    fn back_to(&mut self, level: u64) {
        self.trail.back_to(level);
        self.clauses.went_back(&self.trail);
        self.asking.went_back(&self.trail);
    }
}

/// The literals of a lemma by the places of their variables.
fn bounds_of(
    alloc: Global,
    domains: &[VarDomain],
    lemma: &[Literal],
) -> Result<Vec<Bound>, AllocError> {
    let mut bounds = Vec::new(alloc);
    for literal in lemma {
        if let Some(place) = place_of(domains, literal.var) {
            bounds.push(Bound {
                place,
                bound: literal.bound,
                above: literal.above,
            })?;
        }
    }
    Ok(bounds)
}
