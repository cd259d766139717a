//! What an iterator goes over: a range, which isn't built, or a list or an array.
use pi_rewrite_loops::Bounds;
use pi_terms::Term;

/// What an iterator goes over, once its parts are evaluated.
#[derive(Drop)]
pub enum Over {
    Range(Bounds),
    Collection(Term),
}
