//! Questions about the values of domains that take no memory.
ghost use Rattle.std.specs.Prelude.{◌↔◌, IsTrue};
ghost use Rattle.pi_constraints.specs.Domain.{IsDomain};
ghost use Rattle.pi_prop_spec.specs.Rules.{ShareAValue};
ghost use Rattle.pi_prop_places.specs.Reads.{HasValueBetween};

use crate::narrowed::Narrowed;
use pi_constraints::Span;

/// Whether a domain has a value from `lo` to `hi`. It looks at no more spans than their number has binary digits.
pub(crate) fn has_value_between(domain: &Narrowed, lo: i128, hi: i128) -> bool
    ensures { IsTrue result ↔ HasValueBetween domain.now lo hi }
{
    if hi < lo {
        return false;
    }
    let spans = domain.spans();
    let at = spans.partition_point(|span| i128::from(span.hi) < lo);
    at < spans.len() && i128::from(spans[at].lo) <= hi
}

/// Whether two domains have a value in common. It looks once at each span, up to the first value that they share.
pub(crate) fn share(d: &Narrowed, e: &Narrowed) -> bool
    ensures { IsTrue result ↔ ShareAValue d.now e.now }
{
    spans_share(d.spans(), e.spans())
}

fn spans_share(d: &[Span], e: &[Span]) -> bool
    requires first { IsDomain d.now }
    requires second { IsDomain e.now }
    ensures { IsTrue result ↔ ShareAValue d.now e.now }
{
    let (mut i, mut j) = (0, 0);
    while i < d.len() && j < e.len() {
        if d[i].hi < e[j].lo {
            i += 1;
        } else if e[j].hi < d[i].lo {
            j += 1;
        } else {
            return true;
        }
    }
    false
}
