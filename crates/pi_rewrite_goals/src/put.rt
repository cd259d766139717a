//! Goals that are put behind others as they are made.
ghost use Rattle.std.specs.Prelude.{IfOk};
ghost use Rattle.pi_rewrite_goals.specs.Put.{IsPut};

use pi_core::CoreGoal;
use std::alloc::AllocError;

/// Puts a goal behind the others, where it was made.
pub(crate) fn push_made(
    made: Result<CoreGoal, AllocError>,
    goals: &mut Vec<CoreGoal>,
) -> Result<(), AllocError>
    ensures { IfOk result (λ _. IsPut made goals.old.items goals.new.items) }
{
    let goal = made?;
    goals.push(goal)?;
    Ok(())
}
