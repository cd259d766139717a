//! Whether spans are a domain.
ghost use Rattle.std.specs.Prelude.{◌≡◌, ◌<ℤ◌, ◌≤ℤ◌, pos, ◌+ℤ◌, int_le};
ghost use Rattle.pi_store_blocks.specs.Domain.{is_domain, may_follow};

use pi_constraints::{MAX_VALUE, Span};

/// Whether spans are a domain: within its bounds, ascending, and no two of them overlap or touch.
pub fn is_domain(spans: &[Span]) -> bool
    ensures { result ≡ is_domain spans.now }
{
    let mut least = -MAX_VALUE;
    for span in spans {
        if !may_follow(least, span) {
            return false;
        }
        least = span.hi + 2;
    }
    true
}

/// Whether a span begins there or above, isn't empty, and ends within the bounds.
pub(crate) fn may_follow(least: i64, span: &Span) -> bool
    ensures { result ≡ may_follow least span.now }
{
    least <= span.lo && span.lo <= span.hi && span.hi <= MAX_VALUE
}
