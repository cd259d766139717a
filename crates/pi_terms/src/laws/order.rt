//! Laws of the standard order, of substitution and of copies.
ghost use Rattle.pi_terms.specs.Order.{NamesByCodePoints, OrderIsTotal, EqualIsIdentity};
ghost use Rattle.pi_terms.specs.OrderLaws.{KindsAreInOrder, KindsAreOrderedWithin, FewerArgumentsComeFirst, NamesCountNext, ArgumentsCountLast};
ghost use Rattle.pi_terms.specs.Substitution.{SubstitutionComposes, GroundStays, OnlyItsVariablesCount};
ghost use Rattle.pi_terms.specs.Copy.{CopyRenames, CopyIsUnique, CopyKeepsCells, GroundIsItsOwnCopy};

/// The standard order is a total order, in which a term is equal to itself alone, and names stand in the order of their
/// code points.
pub fn terms_are_ordered()
    ensures total { OrderIsTotal }
    ensures identity { EqualIsIdentity }
    ensures names { NamesByCodePoints }
{}

/// What counts in the standard order: first of what kind the terms are. Variables go by number, integers by value and
/// atoms by name. In compounds the number of arguments counts, then the name, and then the arguments from the left.
pub fn kinds_and_arities_come_first()
    ensures kinds { KindsAreInOrder }
    ensures within { KindsAreOrderedWithin }
    ensures arities { FewerArgumentsComeFirst }
    ensures names { NamesCountNext }
    ensures arguments { ArgumentsCountLast }
{}

/// Substitutions compose, leave ground terms as they are, and go by the variables of a term alone.
pub fn substitutions_compose()
    ensures composes { SubstitutionComposes }
    ensures ground { GroundStays }
    ensures variables { OnlyItsVariablesCount }
{}

/// A copy is the term under the one renaming of its variables to new ones, in the order of their first occurrences. It
/// has as many cells, and a ground term is its own copy.
pub fn copies_are_renamings()
    ensures renaming { CopyRenames }
    ensures unique { CopyIsUnique }
    ensures cells { CopyKeepsCells }
    ensures ground { GroundIsItsOwnCopy }
{}
