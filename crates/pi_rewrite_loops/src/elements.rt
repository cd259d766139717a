//! The second helper of an iterator, which matches an element.
ghost use Rattle.std.specs.Prelude.{◌≡◌, ◌∷◌, ◌++◌, [], suc, replicate, IfOk};
ghost use Rattle.pi_terms.specs.PatternTree.{pattern};
ghost use Rattle.pi_core.specs.GoalTree.{GoalTree};
ghost use Rattle.pi_core.specs.CoreTree.{clause_tree, pattern_tree, pattern_trees, pred_tree};
ghost use Rattle.pi_syntax.specs.ExpTree.{exp_tree};
ghost use Rattle.pi_rewrite_spec.specs.Values.{SlotPattern, slot_pattern as pattern_of};
ghost use Rattle.pi_rewrite_spec.specs.Slots.{unnamed};
ghost use Rattle.pi_rewrite_spec.specs.Goals.{in_turn as turn_of};
ghost use Rattle.pi_rewrite_spec.specs.Loops.{slots_from, slots_head as head_of, clause_of, with_values};
ghost use Rattle.pi_rewrite_spec.specs.Iterators.{handed as handed_of, walk_slots, turn_slots, turn_clause as clause_by};
ghost use Rattle.pi_rewrite_loops.specs.Helpers.{loop_of, lowered, IsElement, turns_by};

use crate::clauses::{clause, head_with, matching_helper, slots_head};
use crate::joined::in_turn;
use crate::loops::{Loop, handed, wide};
use crate::terms::push_slots;
use pi_core::{CoreClause, CoreGoal, CorePred, Pattern, Patterns};
use pi_rewrite_slots::{Slots, slot_pattern};
use pi_syntax::Exp;
use std::alloc::{AllocError, Global};

/// The pattern of an iterator's elements, and how many slots it has.
#[derive(Drop)]
pub struct Element {
    pub form: Pattern,
    pub width: u32,
}

/// The pattern of an iterator's elements. Behind it there are the slots of a turn: those of the pattern, of the walk, of what
/// is handed on, and of the variables of the names that the loop keeps. Errors: no memory.
pub fn matching<'a>(
    alloc: Global,
    exp: &'a Exp,
    l: &Loop<'a>,
    slots: &mut Slots<'a>,
) -> Result<Element, AllocError>
    ensures is { IfOk result (λ made. IsElement (pattern_of (exp_tree exp.now) slots.old) made) }
    ensures slots { IfOk result (λ _. slots.new ≡ turn_slots (loop_of l.now) (pattern_of (exp_tree exp.now) slots.old)) }
{
    let form = slot_pattern(alloc, exp, slots)?;
    let width = slots.count()?;
    push_turn_slots(l, slots)?;
    Ok(Element { form, width })
}

/// Puts the slots of a turn behind those of a pattern.
fn push_turn_slots<'a>(l: &Loop<'a>, slots: &mut Slots<'a>) -> Result<(), AllocError>
    ensures { IfOk result (λ _. slots.new ≡ with_values (loop_of l.now).kept
        ((slots.old ++ replicate walk_slots unnamed) ++ (loop_of l.now).shared)) }
{
    slots.new_slots(&["_", "_", "_"])?;
    slots.new_slots(&l.shared)?;
    slots.value_slots(&l.kept)?;
    Ok(())
}

/// The helper of an iterator over a list or an array that matches an element: one that matches has the turn, whose slots
/// are those behind it, and one that doesn't is passed over. Errors: no memory.
pub fn turn_helper<'a>(
    alloc: Global,
    name: &str,
    l: &Loop<'a>,
    element: Element,
    turn: Vec<CoreGoal>,
    slots: &Slots<'a>,
) -> Result<CorePred, AllocError>
    ensures { IfOk result (λ made. (p : SlotPattern) → IsElement p element →
        pred_tree made ≡ turns_by name.now (loop_of l.now) p (lowered turn.items slots.now)) }
{
    let matched = turn_clause(alloc, l, element, turn, slots)?;
    let passed = passed_clause(alloc, l)?;
    matching_helper(alloc, name, l, matched, passed)
}

/// The clause of an element that doesn't match.
fn passed_clause(alloc: Global, l: &Loop<'_>) -> Result<CoreClause, AllocError>
    ensures { IfOk result (λ made. clause_tree made ≡
        clause_of (head_of 0 (suc (handed_of (loop_of l.now))))
        (GoalTree.call (loop_of l.now).name (slots_from 1 (handed_of (loop_of l.now)))) (suc (handed_of (loop_of l.now)))) }
{
    let arity = wide(l)?;
    let over = next_element(alloc, l, 1)?;
    let head = slots_head(alloc, arity)?;
    clause(alloc, head, over, arity)
}

/// The clause of an element that matches.
fn turn_clause<'a>(
    alloc: Global,
    l: &Loop<'a>,
    element: Element,
    turn: Vec<CoreGoal>,
    slots: &Slots<'a>,
) -> Result<CoreClause, AllocError>
    ensures { IfOk result (λ made. (p : SlotPattern) → IsElement p element →
        clause_tree made ≡ clause_by (loop_of l.now) p (lowered turn.items slots.now)) }
{
    let size = slots.count()?;
    let body = turn_body(alloc, l, element.width, turn)?;
    let head = element_head(alloc, l, element)?;
    clause(alloc, head, body, size)
}

/// The turn of an element that matches, and the call that goes on.
fn turn_body(
    alloc: Global,
    l: &Loop<'_>,
    width: u32,
    turn: Vec<CoreGoal>,
) -> Result<CoreGoal, AllocError>
    ensures { IfOk result (λ made. made ≡ turn_of
        (turn.items ++ GoalTree.call (loop_of l.now).name (slots_from width (handed_of (loop_of l.now))) ∷ [])) }
{
    let mut goals = turn;
    let next = next_element(alloc, l, width)?;
    goals.push(next)?;
    in_turn(alloc, goals)
}

/// The head of the clause of an element that matches.
pub(crate) fn element_head(
    alloc: Global,
    l: &Loop<'_>,
    element: Element,
) -> Result<Patterns, AllocError>
    ensures { IfOk result (λ made. pattern_trees made.items ≡
        pattern (pattern_tree element.form) (head_of element.width (handed_of (loop_of l.now)))) }
{
    let count = handed(l)?;
    head_with(alloc, element.form, element.width, count)
}

/// The call that goes on to the next element. What is handed on stands in slots from `first` on.
fn next_element(alloc: Global, l: &Loop<'_>, first: u32) -> Result<CoreGoal, AllocError>
    ensures { IfOk result (λ made. made ≡ GoalTree.call (loop_of l.now).name (slots_from first (handed_of (loop_of l.now)))) }
{
    let count = handed(l)?;
    let mut args = Vec::new(alloc);
    push_slots(alloc, &mut args, first, count)?;
    CoreGoal::call(alloc, l.name.as_str(), &args)
}
