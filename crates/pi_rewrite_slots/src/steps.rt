//! What is done in two steps.
ghost use Rattle.std.specs.Prelude.{IfOk};
ghost use Rattle.pi_rewrite_slots.specs.Steps.{Went};

use std::alloc::AllocError;

/// What two steps come to that were both done: an error where one of them went wrong.
pub fn both(one: Result<(), AllocError>, other: Result<(), AllocError>) -> Result<(), AllocError>
    ensures { IfOk result (λ _. Went one × Went other) }
{
    match one {
        Ok(()) => other,
        Err(error) => Err(error),
    }
}
