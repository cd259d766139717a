//! Logs of lemmas.
use crate::literal::Lemma;
use pi_constraints::Places;
use pi_terms::Series;

/// A lemma, and why it holds.
pub enum SatEntry {
    /// It follows from the constraint with this number alone.
    FromConstraint { lemma: Lemma, constraint: u64 },
    /// It follows from earlier lemmas, taken in order; the hints are the numbers of their entries.
    Learned { lemma: Lemma, hints: Places },
}

// By hand, so that letting one go is a call and not its parts at each way out.
impl Drop for SatEntry {
    fn drop(self) {
        match self {
            SatEntry::FromConstraint {
                lemma: _,
                constraint: _,
            } => {}
            SatEntry::Learned { lemma: _, hints: _ } => {}
        }
    }
}

/// Lemmas in the order in which they were found, each right over those before it.
pub type SatLog = Series<SatEntry>;
