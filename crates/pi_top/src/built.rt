//! What of a program and of a goal isn't built.
ghost use Rattle.std.specs.Prelude.{◌≡◌, not};
ghost use Rattle.pi_syntax.specs.ProgramTree.{source_tree, goal_source};
ghost use Rattle.pi_rewrite_sound.specs.Built.{unbuilt_part, is_built_goal};

use pi_rewrite_sound::{is_built_goal, unbuilt as first_unbuilt};
use pi_syntax::{Goal, Program};

/// The number of a program's first part that isn't built, counted from 1; `None` exactly where all are. It takes no memory.
pub fn unbuilt(program: &Program) -> Option<u64>
    ensures { result ≡ unbuilt_part (source_tree program.now) }
{
    match first_unbuilt(program) {
        Some(number) => Some(number as u64),
        None => None,
    }
}

/// Whether a goal has a form or a name that isn't built. It takes no memory.
pub fn unbuilt_goal(goal: &Goal) -> bool
    ensures { result ≡ not (is_built_goal (goal_source goal.now)) }
{
    !is_built_goal(&goal.body)
}
