//! What a step of the search tells.
use pi_sat_spec::Assignment;

/// What a step of the search tells. The steps are own.
#[derive(Drop)]
pub enum SatStep {
    /// One more lemma is kept.
    Learned,
    /// A solution.
    Yes(Assignment),
    /// There is no solution, as the log shows.
    No,
    /// Memory was refused: it is told only where an allocation failed.
    Memory,
}
