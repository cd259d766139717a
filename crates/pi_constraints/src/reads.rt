//! What a domain shows of its values.
ghost use Rattle.std.specs.Prelude.{◌≡◌, ◌↔◌, [], IfSome, IsNone, suc, ◌≤ℤ◌};
ghost use Rattle.pi_constraints.specs.Domain.{IsWithinBounds, has_value, size_of, IsLeastValue, IsGreatestValue};
ghost use Rattle.std.specs.Int.{int_gap};

use crate::domain::{Domain, Span};

/// Whether `n` is a value. It looks at no more spans than their number has binary digits, and takes no memory.
pub fn contains(d: &Domain, n: i128) -> bool
    ensures { result ≡ has_value d.now n }
{
    let spans = d.spans();
    let at = spans.partition_point(|span| i128::from(span.hi) < n);
    at < spans.len() && i128::from(spans[at].lo) <= n
}

/// The least value; None where there is no value. It takes no memory.
pub fn min(d: &Domain) -> Option<i64>
    ensures some { IfSome result (IsLeastValue d.now) }
    ensures none { IsNone result ↔ (d.now ≡ []) }
{
    let first = d.spans().first()?;
    Some(first.lo)
}

/// The greatest value; None where there is no value. It takes no memory.
pub fn max(d: &Domain) -> Option<i64>
    ensures some { IfSome result (IsGreatestValue d.now) }
    ensures none { IsNone result ↔ (d.now ≡ []) }
{
    let last = d.spans().last()?;
    Some(last.hi)
}

/// How many values there are. It looks once at each span, and takes no memory.
pub fn size(d: &Domain) -> u64
    ensures { result ≡ size_of d.now }
{
    let mut count = 0;
    for span in d.spans() {
        count += width(*span);
    }
    count
}

/// How many values a span has.
fn width(span: Span) -> u64
    requires ordered { span.lo ≤ℤ span.hi }
    requires low { IsWithinBounds span.lo }
    requires high { IsWithinBounds span.hi }
    ensures { result ≡ suc (int_gap span.lo span.hi) }
{
    (span.hi - span.lo) as u64 + 1
}
