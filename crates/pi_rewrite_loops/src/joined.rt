//! Several goals as one, and goals that evaluate.
ghost use Rattle.std.specs.Prelude.{◌≡◌, ◌∷◌, ◌++◌, [], cond, codes, length, IfOk};
ghost use Rattle.pi_core.specs.GoalTree.{GoalTree};
ghost use Rattle.pi_rewrite_spec.specs.Values.{evaluating as evaluating_of, filling as filling_of, is_below as is_below_tree};
ghost use Rattle.pi_rewrite_spec.specs.Goals.{in_turn as turn_of, either_of as choice_of};

use pi_core::CoreGoal;
use pi_rewrite_slots::is_below;
use pi_terms::{Term, TermHead};
use std::alloc::{AllocError, Global};

/// The goals one after the other as one goal. Errors: no memory.
pub fn in_turn(alloc: Global, goals: Vec<CoreGoal>) -> Result<CoreGoal, AllocError>
    ensures { IfOk result (λ made. made ≡ turn_of goals.items) }
{
    if goals.is_empty() {
        return CoreGoal::truth(alloc);
    }
    if goals.len() == 1 {
        return only(alloc, goals);
    }
    CoreGoal::seq(alloc, &goals)
}

/// The goals as alternatives, as one goal.
pub fn either_of(alloc: Global, goals: Vec<CoreGoal>) -> Result<CoreGoal, AllocError>
    ensures { IfOk result (λ made. made ≡ choice_of goals.items) }
{
    if goals.is_empty() {
        return CoreGoal::fail(alloc);
    }
    if goals.len() == 1 {
        return only(alloc, goals);
    }
    CoreGoal::alt(alloc, &goals)
}

/// The one goal that there is.
fn only(alloc: Global, goals: Vec<CoreGoal>) -> Result<CoreGoal, AllocError>
    requires { length goals.items ≡ 1 }
    ensures { IfOk result (λ made. goals.items ≡ made ∷ []) }
{
    let mut goals = goals;
    match goals.pop() {
        Some(goal) => Ok(goal),
        None => CoreGoal::truth(alloc),
    }
}

/// A list of one goal.
pub fn one(alloc: Global, goal: CoreGoal) -> Result<Vec<CoreGoal>, AllocError>
    ensures { IfOk result (λ made. made.items ≡ goal ∷ []) }
{
    let mut goals = Vec::new(alloc);
    goals.push(goal)?;
    Ok(goals)
}

/// Puts the goal without an answer behind the others. Errors: no memory.
pub fn push_fail(alloc: Global, goals: &mut Vec<CoreGoal>) -> Result<(), AllocError>
    ensures { IfOk result (λ _. goals.new.items ≡ goals.old.items ++ GoalTree.fail ∷ []) }
{
    let goal = CoreGoal::fail(alloc)?;
    goals.push(goal)?;
    Ok(())
}

/// Puts what fills the slots of a term behind the others, unless a head fills them. `count` is how many slots there were
/// before the term.
pub fn push_filling(
    alloc: Global,
    head: u32,
    count: u32,
    term: &Term,
    goals: &mut Vec<CoreGoal>,
) -> Result<(), AllocError>
    ensures { IfOk result (λ _. goals.new.items ≡
        goals.old.items ++ cond (is_below_tree head term.now) [] (filling_of count term.now ∷ [])) }
{
    if is_below(term, head) {
        return Ok(());
    }
    let goal = filling(alloc, count, term)?;
    goals.push(goal)?;
    Ok(())
}

/// A goal that fills the slots of a term, by whether it is a slot that is new.
fn filling(alloc: Global, count: u32, term: &Term) -> Result<CoreGoal, AllocError>
    ensures { IfOk result (λ made. made ≡ filling_of count term.now) }
{
    match term.head() {
        TermHead::Var(slot) => {
            if slot < u64::from(count) {
                return evaluating(alloc, term);
            }
            equation(alloc, term)
        }
        TermHead::Int(_) => evaluating(alloc, term),
        TermHead::Atom(_) => evaluating(alloc, term),
        TermHead::Comp(_, _) => evaluating(alloc, term),
    }
}

/// A goal that does nothing but evaluate a term.
fn evaluating(alloc: Global, term: &Term) -> Result<CoreGoal, AllocError>
    ensures { IfOk result (λ made. made ≡ evaluating_of term.now) }
{
    let goal = CoreGoal::truth(alloc)?;
    let handler = CoreGoal::fail(alloc)?;
    CoreGoal::catch(alloc, goal, term, handler)
}

/// The equation of a term with itself.
fn equation(alloc: Global, term: &Term) -> Result<CoreGoal, AllocError>
    ensures { IfOk result (λ made. made ≡ GoalTree.call (codes "=") (term.now ∷ term.now ∷ [])) }
{
    let one = term.copy(alloc)?;
    let other = term.copy(alloc)?;
    CoreGoal::call(alloc, "=", &[one, other])
}
