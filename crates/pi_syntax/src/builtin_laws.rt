//! A law of the definition, on a function that does nothing.
ghost use Rattle.std.specs.Prelude.{◌≡◌, ℕ, List, true, false};
ghost use Rattle.pi_syntax.specs.Names.{is_listed, function_rows, predicate_rows, prelude_rows};

/// No name and number of arguments stands in two of the tables.
pub fn tables_are_disjoint()
    ensures functions { (name : List ℕ) (arity : ℕ) → is_listed function_rows name arity ≡ true
        → (is_listed predicate_rows name arity ≡ false) × (is_listed prelude_rows name arity ≡ false) }
    ensures predicates { (name : List ℕ) (arity : ℕ) → is_listed predicate_rows name arity ≡ true
        → is_listed prelude_rows name arity ≡ false }
{}
