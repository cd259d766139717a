//! Bounds of variables, lemmas, and assignments.
use pi_terms::Series;

/// A bound of a variable: it is at most `bound`, or above it where `above` is true.
#[derive(Clone, Copy)]
pub struct Literal {
    pub var: u64,
    pub bound: i64,
    pub above: bool,
}

/// Literals of which one at least has to hold: at most one for each variable and direction, ascending by variable and with
/// `above` last. Each bound is a value of its variable's domain.
pub type Lemma = Series<Literal>;

/// Variables, by their numbers, and their values.
pub type Assignment = Series<(u64, i64)>;
