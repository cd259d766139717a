//! Whether spans have all values of others.
ghost use Rattle.std.specs.Prelude.{◌↔◌, ◌≤ℤ◌, ℤ, IsTrue};
ghost use Rattle.pi_constraints.specs.Domain.{has_value};

use pi_constraints::Span;

/// Whether each of these spans lies within one of the others. It looks once at each span.
pub(crate) fn are_within(spans: &[Span], others: &[Span]) -> bool
    ensures { IsTrue result → (m : ℤ) → IsTrue (has_value spans.now m) → IsTrue (has_value others.now m) }
{
    let (mut i, mut j) = (0, 0);
    while i < spans.len() {
        if others.len() <= j {
            return false;
        }
        if others[j].hi < spans[i].lo {
            j += 1;
            continue;
        }
        if !lies_in(spans[i], others[j]) {
            return false;
        }
        i += 1;
    }
    true
}

/// Whether a span lies within another one.
fn lies_in(span: Span, other: Span) -> bool
    ensures { IsTrue result ↔ ((other.lo ≤ℤ span.lo) × (span.hi ≤ℤ other.hi)) }
{
    other.lo <= span.lo && span.hi <= other.hi
}
