//! `X := E`: the slot of X has another value from here on.
ghost use Rattle.std.specs.Prelude.{[], IfOk};
ghost use Rattle.pi_syntax.specs.ExpTree.{exp_tree};
ghost use Rattle.pi_rewrite_goals.specs.Calls.{assigned_to};
ghost use Rattle.pi_rewrite_loops.specs.Parts.{AreGoals};

use crate::slotted::push_itself;
use pi_core::CoreGoal;
use pi_rewrite_loops::push_fail;
use pi_rewrite_slots::Slots;
use pi_syntax::Exp;
use pi_terms::Term;
use std::alloc::{AllocError, Global};

/// Puts the goal behind the others that gives the slot of a variable the value. What is no variable is assigned nothing,
/// and there is no answer.
#[tactic(auto, unfolding(pi_syntax::specs::ExpTree::exp_tree))]
pub(crate) fn push_assigned<'a>(
    alloc: Global,
    to: &'a Exp,
    value: Term,
    slots: &mut Slots<'a>,
    goals: &mut Vec<CoreGoal>,
) -> Result<(), AllocError>
    ensures { IfOk result (λ _. AreGoals (assigned_to (exp_tree to.now) (record { goals = []; tree = value; names = slots.old }))
        goals.old.items goals.new.items slots.new) }
{
    match to {
        Exp::Var(name) => {
            let slot = slots.slot_for(name.as_str())?;
            push_itself(alloc, value, slot, goals)?;
            Ok(())
        }
        Exp::Int(_) => push_fail(alloc, goals),
        Exp::Atom(_) => push_fail(alloc, goals),
        Exp::Str(_) => push_fail(alloc, goals),
        Exp::List(_, _) => push_fail(alloc, goals),
        Exp::Array(_) => push_fail(alloc, goals),
        Exp::Call(_, _) => push_fail(alloc, goals),
        Exp::Quote(_) => push_fail(alloc, goals),
        Exp::Index(_, _) => push_fail(alloc, goals),
        Exp::Range(_, _, _) => push_fail(alloc, goals),
        Exp::At(_, _) => push_fail(alloc, goals),
        Exp::Collect(_, _, _) => push_fail(alloc, goals),
        Exp::And(_) => push_fail(alloc, goals),
        Exp::Or(_) => push_fail(alloc, goals),
        Exp::Arrow(_, _) => push_fail(alloc, goals),
        Exp::If(_, _) => push_fail(alloc, goals),
        Exp::Foreach(_, _) => push_fail(alloc, goals),
        Exp::While(_, _) => push_fail(alloc, goals),
        Exp::DoWhile(_, _) => push_fail(alloc, goals),
    }
}
