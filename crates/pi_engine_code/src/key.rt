//! What a fact shows in a place, and the order of what facts show.
ghost use Rattle.std.specs.Prelude.{◌≡◌};
ghost use Rattle.pi_engine_code.specs.Order.{rank, integer, atom, value_order, key};

use std::cmp::Ordering;

/// What stands in a place of a fact.
#[derive(Clone, Copy)]
pub enum FactValue {
    /// What has no key of its own: anything may stand there, or it may be a compound.
    Any,
    Int(i128),
    /// The number that a store has for the name.
    Atom(u64),
}

impl FactValue {
    /// The kind of value.
    fn rank(self) -> u8
        ensures { result ≡ rank self }
    {
        match self {
            FactValue::Any => 0,
            FactValue::Int(_) => 1,
            FactValue::Atom(_) => 2,
        }
    }

    fn integer(self) -> i128
        ensures { result ≡ integer self }
    {
        match self {
            FactValue::Int(n) => n,
            FactValue::Any | FactValue::Atom(_) => 0,
        }
    }

    fn atom(self) -> u64
        ensures { result ≡ atom self }
    {
        match self {
            FactValue::Atom(k) => k,
            FactValue::Any | FactValue::Int(_) => 0,
        }
    }
}

/// A place of a predicate's facts, and what stands there.
#[derive(Clone, Copy)]
pub struct FactPlace {
    pub predicate: u32,
    pub place: u32,
    pub value: FactValue,
}

/// That a fact with a number shows something in a place.
#[derive(Clone, Copy)]
pub(crate) struct FactKey {
    predicate: u32,
    place: u32,
    number: u32,
    value: FactValue,
}

impl FactKey {
    pub(crate) fn new(at: FactPlace, number: u32) -> FactKey
        ensures { result ≡ key at number }
    {
        FactKey {
            predicate: at.predicate,
            place: at.place,
            number,
            value: at.value,
        }
    }

    pub(crate) fn number(&self) -> u32
        ensures { result ≡ self.now.number }
    {
        self.number
    }
}

impl PartialEq for FactKey {
    ghost use Rattle.std.specs.Ordering.{eq_by_cmp};
    ghost use Rattle.std.specs.Cmp.{partial_equiv_from_equiv, eq_by_cmp_equiv};
    ghost use Rattle.pi_engine_code.specs.Order.{key_order, key_order_total};

    ghost eq = { eq_by_cmp key_order };

    ghost laws = { partial_equiv_from_equiv (eq_by_cmp_equiv key_order_total) };

    fn eq(&self, other: &FactKey) -> bool {
        self.cmp(other).is_eq()
    }
}

impl Eq for FactKey {
    ghost use Rattle.std.specs.Cmp.{eq_by_cmp_equiv};
    ghost use Rattle.pi_engine_code.specs.Order.{key_order_total};

    ghost laws = { eq_by_cmp_equiv key_order_total };
}

impl PartialOrd for FactKey {
    ghost use Rattle.std.specs.Prelude.{Some, refl};
    ghost use Rattle.std.specs.Cmp.{po};
    ghost use Rattle.pi_engine_code.specs.Order.{key_order, key_order_total};

    ghost partial_cmp = { λ p q. Some (key_order p q) };

    ghost laws = { po key_order_total (λ p q. refl) };

    fn partial_cmp(&self, other: &FactKey) -> Option<Ordering> {
        Some(self.cmp(other))
    }
}

impl Ord for FactKey {
    ghost use Rattle.std.specs.Prelude.{refl};
    ghost use Rattle.pi_engine_code.specs.Order.{key_order, key_order_total};

    ghost cmp = { key_order };

    ghost total = { key_order_total };

    ghost matches_partial_cmp = { λ p q. refl };

    ghost matches_eq = { λ p q. refl };

    fn cmp(&self, other: &FactKey) -> Ordering {
        self.predicate
            .cmp(&other.predicate)
            .then(self.place.cmp(&other.place))
            .then(compare_values(self.value, other.value))
            .then(self.number.cmp(&other.number))
    }
}

/// The order of values: by their kinds, and then by their numbers.
fn compare_values(one: FactValue, other: FactValue) -> Ordering
    ensures { result ≡ value_order one other }
{
    one.rank()
        .cmp(&other.rank())
        .then(one.integer().cmp(&other.integer()))
        .then(one.atom().cmp(&other.atom()))
}
