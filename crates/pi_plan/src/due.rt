//! Ways that are due, in the order in which they are taken.
use std::cmp::Ordering;

/// The number of a way to a place that may have to be asked for, by the way's cost.
#[derive(Clone, Copy)]
pub(crate) struct Due {
    pub(crate) cost: u128,
    pub(crate) way: usize,
}

impl PartialEq for Due {
    ghost use Rattle.std.specs.Ordering.{eq_by_cmp};
    ghost use Rattle.std.specs.Cmp.{partial_equiv_from_equiv, eq_by_cmp_equiv};
    ghost use Rattle.pi_plan.specs.Due.{due_order, due_order_total};

    ghost eq = { eq_by_cmp due_order };

    ghost laws = { partial_equiv_from_equiv (eq_by_cmp_equiv due_order_total) };

    fn eq(&self, other: &Due) -> bool {
        self.cmp(other).is_eq()
    }
}

impl Eq for Due {
    ghost use Rattle.std.specs.Cmp.{eq_by_cmp_equiv};
    ghost use Rattle.pi_plan.specs.Due.{due_order_total};

    ghost laws = { eq_by_cmp_equiv due_order_total };
}

impl PartialOrd for Due {
    ghost use Rattle.std.specs.Prelude.{Some, refl};
    ghost use Rattle.std.specs.Cmp.{po};
    ghost use Rattle.pi_plan.specs.Due.{due_order, due_order_total};

    ghost partial_cmp = { λ p q. Some (due_order p q) };

    ghost laws = { po due_order_total (λ p q. refl) };

    fn partial_cmp(&self, other: &Due) -> Option<Ordering> {
        Some(self.cmp(other))
    }
}

impl Ord for Due {
    ghost use Rattle.std.specs.Prelude.{refl};
    ghost use Rattle.pi_plan.specs.Due.{due_order, due_order_total};

    ghost cmp = { due_order };

    ghost total = { due_order_total };

    ghost matches_partial_cmp = { λ p q. refl };

    ghost matches_eq = { λ p q. refl };

    fn cmp(&self, other: &Due) -> Ordering {
        self.cost.cmp(&other.cost).then(self.way.cmp(&other.way))
    }
}
