//! Numbers of helpers, which have 64 bits.
ghost use Rattle.std.specs.Prelude.{◌≡◌, ◌+◌, IfOk};
ghost use Rattle.pi_rewrite_sites.specs.Sums.{IsSum};

use std::alloc::AllocError;

/// How many helpers there are together. For more than 64 bits hold memory is wanted.
pub fn together(some: u64, more: u64) -> Result<u64, AllocError>
    ensures { IfOk result (λ all. all ≡ some + more) }
{
    match some.checked_add(more) {
        Some(all) => Ok(all),
        None => Err(AllocError),
    }
}

/// How many helpers there are together, where both were counted.
pub(crate) fn sum(
    some: Result<u64, AllocError>,
    more: Result<u64, AllocError>,
) -> Result<u64, AllocError>
    ensures { IfOk result (λ all. IsSum some more all) }
{
    together(some?, more?)
}
