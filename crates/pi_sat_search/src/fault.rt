//! Why there is no search.
ghost use Rattle.std.specs.Prelude.{◌≡◌};
ghost use Rattle.pi_sat_search.specs.declared.fault.SearchFault.TheVariants.{Memory};

use std::alloc::AllocError;

/// Why there is no search of these domains and constraints. The faults are own.
#[derive(Clone, Copy)]
pub enum SearchFault {
    /// A constraint isn't within its limits.
    Limits,
    /// Two domains are given for one variable.
    TwoDomains,
    /// Memory ran out.
    Memory,
}

impl From<AllocError> for SearchFault {
    ghost from_gives = { λ _ e. e ≡ Memory };

    fn from(_error: AllocError) -> SearchFault {
        SearchFault::Memory
    }
}
