//! Iterators over ranges, which are not built.
ghost use Rattle.std.specs.Prelude.{◌≡◌, ◌+◌, ◌∷◌, ◌++◌, [], ℕ, suc, length, codes, pos, IfOk};
ghost use Rattle.pi_terms.specs.Tree.{Tree, trees_of};
ghost use Rattle.pi_syntax.specs.PrintTerm.{array_name};
ghost use Rattle.pi_effects.specs.Inner.{range_count_name};
ghost use Rattle.pi_core.specs.GoalTree.{GoalTree};
ghost use Rattle.pi_core.specs.CoreTree.{clause_tree, pred_tree};
ghost use Rattle.pi_rewrite_spec.specs.Slots.{SlotNames, with_value};
ghost use Rattle.pi_rewrite_spec.specs.Values.{SlotPattern};
ghost use Rattle.pi_rewrite_spec.specs.Ranges.{next_turn as next_by, step_clause as clause_by, range_helper as helper_by, counting, first_turn as first_turn_of, number_goals, number_tree as number_of, through};
ghost use Rattle.pi_rewrite_spec.specs.Goals.{in_turn as turn_of};
ghost use Rattle.pi_rewrite_spec.specs.Loops.{slots_from, slots_head as head_of, clause_of};
ghost use Rattle.pi_rewrite_spec.specs.Iterators.{handed as handed_of, end_slots as end_slots_of, behind_collection, tick_then};
ghost use Rattle.pi_rewrite_loops.specs.Helpers.{loop_of, lowered, IsElement, steps_by, range_between};
ghost use Rattle.pi_rewrite_loops.specs.Turns.{IsNumber, last_args, value_args, next_value_by as value_by, walk_end as walk_end_of};
ghost use Rattle.pi_rewrite_loops.specs.Parts.{AreGoals};

use crate::clauses::{clause, matching_helper, simple_helper, slots_head};
use crate::elements::{Element, element_head};
use crate::ends::closing_slots;
use crate::entries::push_entered;
use crate::joined::in_turn;
use crate::loops::{Loop, handed, wide};
use crate::terms::{
    later, less, push_apply, push_of_slots, push_slot, push_slots, push_tick, push_with_one,
    variable_of,
};
use crate::walks::{ticked_call, walk_end};
use pi_core::{CoreClause, CoreGoal, CorePred};
use pi_rewrite_slots::Slots;
use pi_terms::{Term, TermHead};
use std::alloc::{AllocError, Global};

/// The bounds of a range, and its step, which is 1 where none is written.
pub struct Bounds {
    pub low: Term,
    pub step: Term,
    pub high: Term,
}

// By hand, so that letting one go is a call and not its parts at each way out.
impl Drop for Bounds {
    fn drop(self) {
        let Bounds {
            low: _,
            step: _,
            high: _,
        } = self;
    }
}

/// Puts an iterator over a range behind the goals, which stand behind those that evaluate its bounds and its step. `found`
/// are the slots behind these. Errors: no memory.
pub fn push_through<'a>(
    alloc: Global,
    l: &Loop<'a>,
    range: Bounds,
    found: Slots<'a>,
    slots: &mut Slots<'a>,
    goals: &mut Vec<CoreGoal>,
) -> Result<(), AllocError>
    ensures { IfOk result (λ _. AreGoals (through (loop_of l.now) [] slots.old
        (range_between range.low range.step range.high found.entry)) goals.old.items goals.new.items slots.new) }
{
    let count = three_behind(found, slots)?;
    let args = first_args(alloc, &range, count)?;
    push_counting(alloc, &range, count, goals)?;
    push_entered(alloc, l, args, slots, goals)
}

/// As many slots as there are found, and three more, of which this is the first. No name finds those that are new.
fn three_behind<'a>(found: Slots<'a>, slots: &mut Slots<'a>) -> Result<u32, AllocError>
    ensures is { IfOk result (λ count. count ≡ length found.entry) }
    ensures slots { IfOk result (λ _. slots.new ≡ behind_collection slots.old (with_value (with_value (with_value found.entry)))) }
{
    let mut found = found;
    let count = found.value_slot()?;
    found.value_slot()?;
    found.value_slot()?;
    slots.behind(&found)?;
    Ok(count)
}

/// What the helper of an iterator over a range is handed: its first value, how many there are, and its step. Three slots
/// have these, from `count` on, unless they are written.
fn first_args(alloc: Global, range: &Bounds, count: u32) -> Result<Vec<Term>, AllocError>
    ensures { IfOk result (λ made. (ns : SlotNames) → count ≡ length ns →
        made.items ≡ first_turn_of (range_between range.now.low range.now.step range.now.high ns)) }
{
    let low = later(count, 1)?;
    let step = later(count, 2)?;
    let mut args = Vec::new(alloc);
    let first = number(alloc, &range.low, low)?;
    args.push(first)?;
    push_slot(alloc, &mut args, count)?;
    let by = number(alloc, &range.step, step)?;
    args.push(by)?;
    Ok(args)
}

/// Puts what counts the values of a range behind the goals, and what its first number and its step are. Three slots are
/// free, from `count` on.
fn push_counting(
    alloc: Global,
    range: &Bounds,
    count: u32,
    goals: &mut Vec<CoreGoal>,
) -> Result<(), AllocError>
    ensures { IfOk result (λ _. (ns : SlotNames) → count ≡ length ns →
        goals.new.items ≡ goals.old.items ++ counting (range_between range.now.low range.now.step range.now.high ns)) }
{
    let first = later(count, 1)?;
    let second = later(count, 2)?;
    push_count(alloc, range, count, goals)?;
    push_number(alloc, &range.low, first, goals)?;
    push_number(alloc, &range.step, second, goals)
}

/// Puts what counts the values of a range behind the goals.
fn push_count(
    alloc: Global,
    range: &Bounds,
    into: u32,
    goals: &mut Vec<CoreGoal>,
) -> Result<(), AllocError>
    ensures { IfOk result (λ _. goals.new.items ≡
        goals.old.items ++ GoalTree.apply range_count_name
        (range.now.low ∷ Tree.comp array_name (trees_of (range.now.step ∷ range.now.high ∷ [])) ∷ []) into ∷ []) }
{
    let low = range.low.copy(alloc)?;
    let last = further(alloc, range)?;
    push_apply(alloc, ":=", &[low, last], into, goals)
}

/// The step of a range and its last number, as an array.
fn further(alloc: Global, range: &Bounds) -> Result<Term, AllocError>
    ensures { IfOk result (λ made. made ≡ Tree.comp array_name (trees_of (range.now.step ∷ range.now.high ∷ []))) }
{
    let step = range.step.copy(alloc)?;
    let high = range.high.copy(alloc)?;
    Term::comp(alloc, "{}", &[step, high])
}

/// Puts what the number is that a term comes to behind the goals, where it isn't written.
fn push_number(
    alloc: Global,
    term: &Term,
    into: u32,
    goals: &mut Vec<CoreGoal>,
) -> Result<(), AllocError>
    ensures { IfOk result (λ _. goals.new.items ≡ goals.old.items ++ number_goals term.now into) }
{
    if is_number(term) {
        return Ok(());
    }
    push_least(alloc, term, into, goals)
}

/// Puts what the number is that a term comes to behind the goals.
fn push_least(
    alloc: Global,
    term: &Term,
    into: u32,
    goals: &mut Vec<CoreGoal>,
) -> Result<(), AllocError>
    ensures { IfOk result (λ _. goals.new.items ≡ goals.old.items ++ GoalTree.apply (codes "min") (term.now ∷ term.now ∷ []) into ∷ []) }
{
    let one = term.copy(alloc)?;
    let other = term.copy(alloc)?;
    push_apply(alloc, "min", &[one, other], into, goals)
}

/// The number that a term comes to, which stands in a slot where it isn't written.
fn number(alloc: Global, term: &Term, slot: u32) -> Result<Term, AllocError>
    ensures { IfOk result (λ made. made ≡ number_of term.now slot) }
{
    if is_number(term) {
        return term.copy(alloc);
    }
    variable_of(alloc, slot)
}

/// Whether a term is a number that is written.
fn is_number(term: &Term) -> bool
    ensures { IsNumber term.now result }
{
    match term.head() {
        TermHead::Int(_) => true,
        TermHead::Var(_) => false,
        TermHead::Atom(_) => false,
        TermHead::Comp(_, _) => false,
    }
}

/// The helper of an iterator over a range that begins with its first turn, where there is a value, which is that of the
/// helper of this name, and the end. Errors: no memory.
pub fn range_helper<'a>(alloc: Global, turn: &str, l: &Loop<'a>) -> Result<CorePred, AllocError>
    ensures { IfOk result (λ made. pred_tree made ≡ helper_by turn.now (loop_of l.now)) }
{
    let count = handed(l)?;
    let size = closing_slots(l, count)?;
    let body = range_body(alloc, turn, l, count)?;
    simple_helper(alloc, l.name.as_str(), count, body, size)
}

/// The first turn, where there is a value, and the end. From `count` on slots are free.
fn range_body<'a>(
    alloc: Global,
    turn: &str,
    l: &Loop<'a>,
    count: u32,
) -> Result<CoreGoal, AllocError>
    ensures { IfOk result (λ made. made ≡ GoalTree.if_else (GoalTree.call (codes "<") (Tree.int (pos 0) ∷ Tree.var 1 ∷ []))
        (tick_then (GoalTree.call turn.now (Tree.var 0 ∷ slots_from 0 count) ∷ []))
        (walk_end_of (loop_of l.now) 3 count (end_slots_of 3 (loop_of l.now)))) }
{
    let test = is_some(alloc)?;
    let then = first_turn(alloc, turn, count)?;
    let other = walk_end(alloc, l, &["_", "_", "_"], 3, count)?;
    CoreGoal::if_else(alloc, test, then, other)
}

/// Whether a range has a value.
fn is_some(alloc: Global) -> Result<CoreGoal, AllocError>
    ensures { IfOk result (λ made. made ≡ GoalTree.call (codes "<") (Tree.int (pos 0) ∷ Tree.var 1 ∷ [])) }
{
    let none = Term::int(alloc, 0)?;
    less(alloc, none, 1)
}

/// The first turn: the value stands in front of all slots.
fn first_turn(alloc: Global, turn: &str, count: u32) -> Result<CoreGoal, AllocError>
    ensures { IfOk result (λ made. made ≡ tick_then (GoalTree.call turn.now (Tree.var 0 ∷ slots_from 0 count) ∷ [])) }
{
    let mut args = Vec::new(alloc);
    push_slot(alloc, &mut args, 0)?;
    push_slots(alloc, &mut args, 0, count)?;
    ticked_call(alloc, turn, &args)
}

/// The helper of an iterator over a range that matches a value: one that matches has the turn, whose slots are those behind
/// it, and one that doesn't is passed over. Errors: no memory.
pub fn step_helper<'a>(
    alloc: Global,
    name: &str,
    l: &Loop<'a>,
    element: Element,
    turn: Vec<CoreGoal>,
    slots: &Slots<'a>,
) -> Result<CorePred, AllocError>
    ensures { IfOk result (λ made. (p : SlotPattern) → IsElement p element →
        pred_tree made ≡ steps_by name.now (loop_of l.now) p (lowered turn.items slots.now)) }
{
    let matched = step_clause(alloc, name, l, element, turn, slots)?;
    let passed = step_passed(alloc, name, l)?;
    matching_helper(alloc, name, l, matched, passed)
}

/// The clause of a value that doesn't match.
fn step_passed(alloc: Global, name: &str, l: &Loop<'_>) -> Result<CoreClause, AllocError>
    ensures { IfOk result (λ made. clause_tree made ≡
        clause_of (head_of 0 (suc (handed_of (loop_of l.now))))
        (next_by name.now (loop_of l.now) 1 (suc (handed_of (loop_of l.now)))) (suc (handed_of (loop_of l.now)) + 2)) }
{
    let arity = wide(l)?;
    let size = later(arity, 2)?;
    let over = next_turn(alloc, name, l, 1, arity)?;
    let head = slots_head(alloc, arity)?;
    clause(alloc, head, over, size)
}

/// The clause of a value that matches.
fn step_clause<'a>(
    alloc: Global,
    name: &str,
    l: &Loop<'a>,
    element: Element,
    turn: Vec<CoreGoal>,
    slots: &Slots<'a>,
) -> Result<CoreClause, AllocError>
    ensures { IfOk result (λ made. (p : SlotPattern) → IsElement p element →
        clause_tree made ≡ clause_by name.now (loop_of l.now) p (lowered turn.items slots.now)) }
{
    let free = slots.count()?;
    let size = later(free, 2)?;
    let body = step_body(alloc, name, l, element.width, free, turn)?;
    let head = element_head(alloc, l, element)?;
    clause(alloc, head, body, size)
}

/// The turn of a value that matches, and what stands behind it.
fn step_body(
    alloc: Global,
    name: &str,
    l: &Loop<'_>,
    width: u32,
    free: u32,
    turn: Vec<CoreGoal>,
) -> Result<CoreGoal, AllocError>
    ensures { IfOk result (λ made. made ≡ turn_of (turn.items ++ next_by name.now (loop_of l.now) width free ∷ [])) }
{
    let mut goals = turn;
    let next = next_turn(alloc, name, l, width, free)?;
    goals.push(next)?;
    in_turn(alloc, goals)
}

/// Behind a turn: the next one, or the end. The value stands in the slot `first`, in front of how many there are and of the
/// step; from `free` on slots are free.
fn next_turn(
    alloc: Global,
    turn: &str,
    l: &Loop<'_>,
    first: u32,
    free: u32,
) -> Result<CoreGoal, AllocError>
    ensures { IfOk result (λ made. made ≡ next_by turn.now (loop_of l.now) first free) }
{
    let count = later(first, 1)?;
    let test = are_more(alloc, count)?;
    let then = next_value(alloc, turn, l, first, free)?;
    let other = last_call(alloc, l, first)?;
    CoreGoal::if_else(alloc, test, then, other)
}

/// Whether there are more values than one, whose number stands in a slot.
fn are_more(alloc: Global, count: u32) -> Result<CoreGoal, AllocError>
    ensures { IfOk result (λ made. made ≡ GoalTree.call (codes "<") (Tree.int (pos 1) ∷ Tree.var count ∷ [])) }
{
    let one = Term::int(alloc, 1)?;
    less(alloc, one, count)
}

/// The call behind the last value.
fn last_call(alloc: Global, l: &Loop<'_>, first: u32) -> Result<CoreGoal, AllocError>
    ensures { IfOk result (λ made. made ≡ GoalTree.call (loop_of l.now).name (last_args (loop_of l.now) first)) }
{
    let count = handed(l)?;
    let step = later(first, 2)?;
    let mut args = Vec::new(alloc);
    push_slot(alloc, &mut args, first)?;
    let none = Term::int(alloc, 0)?;
    args.push(none)?;
    push_slots(alloc, &mut args, step, count.saturating_sub(2))?;
    CoreGoal::call(alloc, l.name.as_str(), &args)
}

/// The turn of the next value, which is found by the step.
fn next_value(
    alloc: Global,
    turn: &str,
    l: &Loop<'_>,
    first: u32,
    free: u32,
) -> Result<CoreGoal, AllocError>
    ensures { IfOk result (λ made. made ≡ value_by turn.now (loop_of l.now) first free) }
{
    let count = later(first, 1)?;
    let step = later(first, 2)?;
    let left = later(free, 1)?;
    let mut goals = Vec::new(alloc);
    push_of_slots(alloc, "+", first, step, free, &mut goals)?;
    push_with_one(alloc, "-", count, left, &mut goals)?;
    push_tick(alloc, &mut goals)?;
    let call = value_call(alloc, turn, l, step, free, left)?;
    goals.push(call)?;
    in_turn(alloc, goals)
}

/// The call of a turn with the next value.
fn value_call(
    alloc: Global,
    turn: &str,
    l: &Loop<'_>,
    step: u32,
    free: u32,
    left: u32,
) -> Result<CoreGoal, AllocError>
    ensures { IfOk result (λ made. (first : ℕ) → step ≡ first + 2 → left ≡ free + 1 →
        made ≡ GoalTree.call turn.now (value_args (loop_of l.now) first free)) }
{
    let count = handed(l)?;
    let mut args = Vec::new(alloc);
    push_slot(alloc, &mut args, free)?;
    push_slot(alloc, &mut args, free)?;
    push_slot(alloc, &mut args, left)?;
    push_slots(alloc, &mut args, step, count.saturating_sub(2))?;
    CoreGoal::call(alloc, turn, &args)
}
