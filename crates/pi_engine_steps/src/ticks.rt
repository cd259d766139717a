//! Ticks, as a machine counts them.
ghost use Rattle.pi_meaning.specs.Machine.Budget.{Counts};
ghost use Rattle.pi_engine_stands.specs.Goes.{Ticks, TicksUnless, counting};

use pi_engine_arenas::{End, Now};
use pi_meaning::{Budget, Mode};

/// Counts the Tick of a call, unless it is a quiet one; false where the budget has none left, which ends the run.
#[inline(always)]
pub fn tick_call(is_quiet: bool, mode: Mode, now: &mut Now, budget: &mut Budget) -> bool
    ensures counts { Counts mode budget.old budget.new }
    ensures ticks { TicksUnless is_quiet (counting mode budget.old budget.new) now.old now.new result }
{
    is_quiet || tick(mode, now, budget)
}

/// Counts a Tick; false where the budget has none left, which ends the run.
#[inline(always)]
pub fn tick(mode: Mode, now: &mut Now, budget: &mut Budget) -> bool
    ensures counts { Counts mode budget.old budget.new }
    ensures ticks { Ticks mode budget.old budget.new now.old now.new result }
{
    match mode {
        Mode::Top => {
            if budget.ticks >= budget.steps {
                *now = Now::Ended(End::StepsSpent);
                return false;
            }
            budget.ticks += 1;
        }
        Mode::Inner(_) => {
            let work = budget.work;
            let spent = work
                .goals
                .saturating_add(work.runs)
                .saturating_add(work.expansions);
            if spent >= budget.limit {
                *now = Now::Ended(End::WorkSpent);
                return false;
            }
            budget.work.goals += 1;
        }
    }
    true
}
