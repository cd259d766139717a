//! What the search knows states by, in their order.
ghost use Rattle.std.specs.Prelude.{◌≡◌, IfOk};

use crate::order::compare;
use pi_terms::Term;
use std::alloc::{AllocError, Global};
use std::cmp::Ordering;

/// A state, with its rest where the search is by rests, and with 0 where it isn't.
#[derive(Drop)]
pub(crate) struct Place {
    pub(crate) state: Term,
    pub(crate) rest: u128,
}

impl Place {
    pub(crate) fn copy(&self, alloc: Global) -> Result<Place, AllocError>
        ensures { IfOk result (λ made. made ≡ self.now) }
    {
        Ok(Place {
            state: self.state.copy(alloc)?,
            rest: self.rest,
        })
    }
}

impl PartialEq for Place {
    ghost use Rattle.std.specs.Ordering.{eq_by_cmp};
    ghost use Rattle.std.specs.Cmp.{partial_equiv_from_equiv, eq_by_cmp_equiv};
    ghost use Rattle.pi_plan.specs.Place.{place_order};
    ghost use Rattle.pi_plan.specs.Place.{place_order_total};

    ghost eq = { eq_by_cmp place_order };

    ghost laws = { partial_equiv_from_equiv (eq_by_cmp_equiv place_order_total) };

    fn eq(&self, other: &Place) -> bool {
        self.cmp(other).is_eq()
    }
}

impl Eq for Place {
    ghost use Rattle.std.specs.Cmp.{eq_by_cmp_equiv};
    ghost use Rattle.pi_plan.specs.Place.{place_order_total};

    ghost laws = { eq_by_cmp_equiv place_order_total };
}

impl PartialOrd for Place {
    ghost use Rattle.std.specs.Prelude.{Some, refl};
    ghost use Rattle.std.specs.Cmp.{po};
    ghost use Rattle.pi_plan.specs.Place.{place_order};
    ghost use Rattle.pi_plan.specs.Place.{place_order_total};

    ghost partial_cmp = { λ p q. Some (place_order p q) };

    ghost laws = { po place_order_total (λ p q. refl) };

    fn partial_cmp(&self, other: &Place) -> Option<Ordering> {
        Some(self.cmp(other))
    }
}

impl Ord for Place {
    ghost use Rattle.std.specs.Prelude.{refl};
    ghost use Rattle.pi_plan.specs.Place.{place_order};
    ghost use Rattle.pi_plan.specs.Place.{place_order_total};

    ghost cmp = { place_order };

    ghost total = { place_order_total };

    ghost matches_partial_cmp = { λ p q. refl };

    ghost matches_eq = { λ p q. refl };

    fn cmp(&self, other: &Place) -> Ordering {
        compare(&self.state, &other.state).then(self.rest.cmp(&other.rest))
    }
}
