//! Iterators over lists and arrays, both walked in place.
ghost use Rattle.std.specs.Prelude.{◌≡◌, ◌+◌, ◌-◌, ◌∷◌, [], ◌++◌, codes, pos, IfOk};
ghost use Rattle.pi_terms.specs.Tree.{Tree};
ghost use Rattle.pi_terms.specs.PatternTree.{slot, exact_atom, compound, no_patterns, pattern};
ghost use Rattle.pi_terms.specs.ListNames.{nil, cell_name};
ghost use Rattle.pi_core.specs.GoalTree.{GoalTree};
ghost use Rattle.pi_core.specs.CoreTree.{clause_tree, pattern_tree, pattern_trees, pred_tree};
ghost use Rattle.pi_rewrite_slots.specs.Indexed.{names_in};
ghost use Rattle.pi_rewrite_spec.specs.Slots.{SlotNames, with_value};
ghost use Rattle.pi_rewrite_spec.specs.Loops.{with_values, slots_from, slots_head as head_of};
ghost use Rattle.pi_rewrite_spec.specs.Iterators.{tick_then, cell_clause as cell_by, nil_clause as nil_by, array_clause as array_by, element_helper as helper_by, handed as handed_of, end_slots as end_slots_of, walked, over};
ghost use Rattle.pi_rewrite_loops.specs.Helpers.{loop_of};
ghost use Rattle.pi_rewrite_loops.specs.Parts.{AreGoals, goals_before};
ghost use Rattle.pi_rewrite_loops.specs.Turns.{array_args, array_turn_by, walk_end as walk_end_of};

use crate::clauses::{clause, head_with, helper, slots_head};
use crate::ends::{closing_slots, end};
use crate::entries::push_entered;
use crate::joined::in_turn;
use crate::loops::{Loop, handed, shared_from, slots_behind, wide};
use crate::terms::{
    later, less, push_apply, push_of_slots, push_slot, push_slots, push_tick, push_with_one,
    variable_of,
};
use pi_core::{CoreClause, CoreGoal, CorePred, Pattern, Patterns};
use pi_rewrite_slots::Slots;
use pi_terms::{Term, Text};
use std::alloc::{AllocError, Global};

/// Puts an iterator over a list or an array behind the goals, which stand behind those that evaluate it. `found` are the
/// slots behind what is gone over. Errors: no memory.
pub fn push_over<'a>(
    alloc: Global,
    l: &Loop<'a>,
    collection: Term,
    found: Slots<'a>,
    slots: &mut Slots<'a>,
    goals: &mut Vec<CoreGoal>,
) -> Result<(), AllocError>
    ensures { IfOk result (λ _. AreGoals (over (loop_of l.now) []
        (walked slots.old (record { goals = []; tree = collection; names = found.entry }))) goals.old.items goals.new.items
        slots.new) }
{
    push_walked(alloc, &collection, found, slots, goals)?;
    let count = slots.count()?;
    let first = walk_args(alloc, collection, count.saturating_sub(1))?;
    push_entered(alloc, l, first, slots, goals)
}

/// What an iterator's first helper is handed: what it goes over, the first number, and the slot of that behind the last one.
fn walk_args(alloc: Global, collection: Term, past: u32) -> Result<Vec<Term>, AllocError>
    ensures { IfOk result (λ made. made.items ≡ collection ∷ Tree.int (pos 1) ∷ Tree.var past ∷ []) }
{
    let mut args = Vec::new(alloc);
    args.push(collection)?;
    let one = Term::int(alloc, 1)?;
    args.push(one)?;
    push_slot(alloc, &mut args, past)?;
    Ok(args)
}

/// Puts what counts the items behind the goals. The slots are as many then as there are behind that.
fn push_walked<'a>(
    alloc: Global,
    collection: &Term,
    found: Slots<'a>,
    slots: &mut Slots<'a>,
    goals: &mut Vec<CoreGoal>,
) -> Result<(), AllocError>
    ensures { IfOk result (λ _. AreGoals (goals_before
        (walked slots.old (record { goals = []; tree = collection.now; names = found.entry }))) goals.old.items goals.new.items
        slots.new) }
{
    let mut found = found;
    push_counted(alloc, collection, &mut found, goals)?;
    slots.behind(&found)
}

/// Puts what counts the items behind the goals. The number behind that of the last one stands in the last slot.
fn push_counted<'a>(
    alloc: Global,
    collection: &Term,
    found: &mut Slots<'a>,
    goals: &mut Vec<CoreGoal>,
) -> Result<(), AllocError>
    ensures { IfOk result (λ _. (ns : SlotNames) →
        AreGoals (record {
          goals = (walked ns (record { goals = []; tree = collection.now; names = found.old })).goals;
          names = with_value (with_value found.old);
        }) goals.old.items goals.new.items found.new) }
{
    let count = found.value_slot()?;
    let past = found.value_slot()?;
    let items = collection.copy(alloc)?;
    push_apply(alloc, "length", &[items], count, goals)?;
    push_with_one(alloc, "+", count, past, goals)
}

/// The helper of an iterator over a list or an array that takes the next element, and hands it to the helper of this name.
/// Errors: no memory.
pub fn element_helper<'a>(alloc: Global, turn: &str, l: &Loop<'a>) -> Result<CorePred, AllocError>
    ensures { IfOk result (λ made. pred_tree made ≡ helper_by turn.now (loop_of l.now)) }
{
    let count = handed(l)?;
    let mut clauses = Vec::new(alloc);
    let cell = cell_clause(alloc, turn, l)?;
    clauses.push(cell)?;
    let nil = nil_clause(alloc, l)?;
    clauses.push(nil)?;
    let array = array_clause(alloc, turn, l)?;
    clauses.push(array)?;
    helper(alloc, l.name.as_str(), count, clauses)
}

/// A list cell.
fn cell_clause(alloc: Global, turn: &str, l: &Loop<'_>) -> Result<CoreClause, AllocError>
    ensures { IfOk result (λ made. clause_tree made ≡ cell_by turn.now (loop_of l.now)) }
{
    let slots = wide(l)?;
    let body = cell_body(alloc, turn, slots)?;
    let head = cell_head(alloc, l)?;
    clause(alloc, head, body, slots)
}

/// The turn of a list cell: all slots are handed on.
fn cell_body(alloc: Global, turn: &str, slots: u32) -> Result<CoreGoal, AllocError>
    ensures { IfOk result (λ made. made ≡ tick_then (GoalTree.call turn.now (slots_from 0 slots) ∷ [])) }
{
    let mut args = Vec::new(alloc);
    push_slots(alloc, &mut args, 0, slots)?;
    ticked_call(alloc, turn, &args)
}

/// The head of a list cell.
fn cell_head(alloc: Global, l: &Loop<'_>) -> Result<Patterns, AllocError>
    ensures { IfOk result (λ made. pattern_trees made.items ≡
        pattern (compound cell_name (pattern (slot 0) (pattern (slot 1) no_patterns)))
        (head_of 2 (handed_of (loop_of l.now) - 1))) }
{
    let count = handed(l)?;
    let cell = cell_pattern(alloc)?;
    head_with(alloc, cell, 2, count.saturating_sub(1))
}

/// The pattern of a list cell, whose item and rest stand in the first two slots.
#[tactic(auto, unfolding(pi_core::specs::CoreTree::pattern_tree, pi_core::specs::CoreTree::pattern_trees))]
fn cell_pattern(alloc: Global) -> Result<Pattern, AllocError>
    ensures { IfOk result (λ made. pattern_tree made ≡ compound cell_name (pattern (slot 0) (pattern (slot 1) no_patterns))) }
{
    let name = Text::new(alloc, "[|]")?;
    let mut parts = Vec::new(alloc);
    parts.push(Pattern::Slot(0))?;
    parts.push(Pattern::Slot(1))?;
    Ok(Pattern::Comp(name, parts))
}

/// The list's end.
fn nil_clause<'a>(alloc: Global, l: &Loop<'a>) -> Result<CoreClause, AllocError>
    ensures { IfOk result (λ made. clause_tree made ≡ nil_by (loop_of l.now)) }
{
    let free = slots_behind(l, 2)?;
    let size = closing_slots(l, free)?;
    let body = walk_end(alloc, l, &["_", "_"], 2, free)?;
    let head = nil_head(alloc, l)?;
    clause(alloc, head, body, size)
}

/// The head of the list's end.
fn nil_head(alloc: Global, l: &Loop<'_>) -> Result<Patterns, AllocError>
    ensures { IfOk result (λ made. pattern_trees made.items ≡ pattern (exact_atom nil) (head_of 0 (handed_of (loop_of l.now) - 1))) }
{
    let count = handed(l)?;
    let nil = nil_pattern(alloc)?;
    head_with(alloc, nil, 0, count.saturating_sub(1))
}

/// The pattern of an empty list.
#[tactic(auto, unfolding(pi_core::specs::CoreTree::pattern_tree))]
fn nil_pattern(alloc: Global) -> Result<Pattern, AllocError>
    ensures { IfOk result (λ made. pattern_tree made ≡ exact_atom nil) }
{
    let name = Text::new(alloc, "[]")?;
    Ok(Pattern::Atom(name))
}

/// An array.
fn array_clause<'a>(alloc: Global, turn: &str, l: &Loop<'a>) -> Result<CoreClause, AllocError>
    ensures { IfOk result (λ made. clause_tree made ≡ array_by turn.now (loop_of l.now)) }
{
    let item = handed(l)?;
    let free = later(item, 2)?;
    let size = closing_slots(l, free)?;
    let body = array_body(alloc, turn, l, item, free)?;
    let head = slots_head(alloc, item)?;
    clause(alloc, head, body, size)
}

/// The next item of an array, and the end. From `item` on slots are free, and behind a turn from `free` on.
fn array_body<'a>(
    alloc: Global,
    turn: &str,
    l: &Loop<'a>,
    item: u32,
    free: u32,
) -> Result<CoreGoal, AllocError>
    ensures { IfOk result (λ made. made ≡ GoalTree.if_else (GoalTree.call (codes "<") (Tree.var 1 ∷ Tree.var 2 ∷ []))
        (array_turn_by turn.now (loop_of l.now) item) (walk_end_of (loop_of l.now) 3 free (end_slots_of 3 (loop_of l.now)))) }
{
    let test = is_left(alloc)?;
    let then = array_turn(alloc, turn, l, item)?;
    let other = walk_end(alloc, l, &["_", "_", "_"], 3, free)?;
    CoreGoal::if_else(alloc, test, then, other)
}

/// Whether an item of an array is left.
fn is_left(alloc: Global) -> Result<CoreGoal, AllocError>
    ensures { IfOk result (λ made. made ≡ GoalTree.call (codes "<") (Tree.var 1 ∷ Tree.var 2 ∷ [])) }
{
    let next = variable_of(alloc, 1)?;
    less(alloc, next, 2)
}

/// A turn of an array's item. From `item` on slots are free.
fn array_turn(alloc: Global, turn: &str, l: &Loop<'_>, item: u32) -> Result<CoreGoal, AllocError>
    ensures { IfOk result (λ made. made ≡ array_turn_by turn.now (loop_of l.now) item) }
{
    let next = later(item, 1)?;
    let mut goals = Vec::new(alloc);
    push_tick(alloc, &mut goals)?;
    push_of_slots(alloc, "in", 0, 1, item, &mut goals)?;
    push_with_one(alloc, "+", 1, next, &mut goals)?;
    let call = array_call(alloc, turn, l, item, next)?;
    goals.push(call)?;
    in_turn(alloc, goals)
}

/// The call of a turn with the item of an array.
fn array_call(
    alloc: Global,
    turn: &str,
    l: &Loop<'_>,
    item: u32,
    next: u32,
) -> Result<CoreGoal, AllocError>
    ensures { IfOk result (λ made. next ≡ item + 1 → made ≡ GoalTree.call turn.now (array_args (loop_of l.now) item)) }
{
    let count = handed(l)?;
    let mut args = Vec::new(alloc);
    push_slot(alloc, &mut args, item)?;
    push_slot(alloc, &mut args, 0)?;
    push_slot(alloc, &mut args, next)?;
    push_slots(alloc, &mut args, 2, count.saturating_sub(2))?;
    CoreGoal::call(alloc, turn, &args)
}

/// Where an iterator ends, in a clause whose first slots have these names and are so many; others are free from one on.
pub(crate) fn walk_end<'a>(
    alloc: Global,
    l: &Loop<'a>,
    first: &[&'a str],
    count: u32,
    free: u32,
) -> Result<CoreGoal, AllocError>
    ensures { IfOk result (λ made. made ≡ walk_end_of (loop_of l.now) count free
        (with_values (loop_of l.now).kept (names_in first.now ++ (loop_of l.now).shared))) }
{
    let variable = shared_from(l, count)?;
    let slots = end_slots(alloc, l, first)?;
    end(alloc, l, variable, free, &slots)
}

/// The slots of a clause without a pattern: these, then what is handed on, and the variables of the names that the loop
/// keeps.
fn end_slots<'a>(alloc: Global, l: &Loop<'a>, first: &[&'a str]) -> Result<Slots<'a>, AllocError>
    ensures { IfOk result (λ made. made ≡ with_values (loop_of l.now).kept (names_in first.now ++ (loop_of l.now).shared)) }
{
    let mut slots = Slots::new(alloc);
    slots.new_slots(first)?;
    slots.new_slots(&l.shared)?;
    slots.value_slots(&l.kept)?;
    Ok(slots)
}

/// A Tick, and then a call.
pub(crate) fn ticked_call(alloc: Global, name: &str, args: &[Term]) -> Result<CoreGoal, AllocError>
    ensures { IfOk result (λ made. made ≡ tick_then (GoalTree.call name.now args.now ∷ [])) }
{
    let mut goals = Vec::new(alloc);
    push_tick(alloc, &mut goals)?;
    let call = CoreGoal::call(alloc, name, args)?;
    goals.push(call)?;
    in_turn(alloc, goals)
}
