//! Laws of domains.
ghost use Rattle.pi_constraints.specs.Domain.{ValuesLieInSpans, ValuesAscend, ValuesAreWithinBounds, SameValuesSameDomain, FirstSpanHasLeast, LastSpanHasGreatest};

/// A domain is the set of its values. They are those that lie in its spans, in ascending order, so that each stands once;
/// all are within the bounds. The same values make the same domain, the first span begins with the least one, and the last
/// span ends with the greatest.
pub fn domains_are_sets()
    ensures values { ValuesLieInSpans }
    ensures ascending { ValuesAscend }
    ensures bounds { ValuesAreWithinBounds }
    ensures same { SameValuesSameDomain }
    ensures least { FirstSpanHasLeast }
    ensures greatest { LastSpanHasGreatest }
{}
