//! Helpers of loops that begin with no iterator.
ghost use Rattle.std.specs.Prelude.{◌≡◌, ◌∷◌, ◌++◌, [], length, IfOk};
ghost use Rattle.pi_core.specs.GoalTree.{GoalTree};
ghost use Rattle.pi_core.specs.CoreTree.{pred_tree};
ghost use Rattle.pi_rewrite_spec.specs.Loops.{loop_slots as slots_of, again as again_of, while_turn, do_turn, only_turn};
ghost use Rattle.pi_rewrite_spec.specs.Goals.{in_turn as turn_of};
ghost use Rattle.pi_rewrite_loops.specs.Helpers.{loop_of, lowered};
ghost use Rattle.pi_rewrite_loops.specs.Turns.{ends_by, helped};

use crate::clauses::simple_helper;
use crate::ends::{closing_slots, push_closing};
use crate::joined::in_turn;
use crate::loops::{Loop, loop_slots, shared_from, slots_behind};
use crate::terms::push_slots;
use pi_core::{CoreGoal, CorePred};
use pi_rewrite_slots::Slots;
use std::alloc::{AllocError, Global};

/// The helper of a `while`, of its test and of its body, whose slots are those behind the body: test, Tick and body, and
/// where the test fails the end. Errors: no memory.
pub fn while_helper<'a>(
    alloc: Global,
    l: &Loop<'a>,
    test: Vec<CoreGoal>,
    body: Vec<CoreGoal>,
    slots: &Slots<'a>,
) -> Result<CorePred, AllocError>
    ensures { IfOk result (λ made. pred_tree made ≡
        while_turn (loop_of l.now) (lowered test.items slots.now) (λ _. lowered body.items slots.now)) }
{
    let turn = ticked_again(alloc, l, body)?;
    let choice = tested(alloc, l, test, turn, slots)?;
    loop_helper(alloc, l, choice, slots)
}

/// The helper of a `do`, of its body and of its test, whose slots are those behind the test: Tick, body and test, and where
/// the test fails the end. Errors: no memory.
pub fn do_helper<'a>(
    alloc: Global,
    l: &Loop<'a>,
    body: Vec<CoreGoal>,
    test: Vec<CoreGoal>,
    slots: &Slots<'a>,
) -> Result<CorePred, AllocError>
    ensures { IfOk result (λ made. pred_tree made ≡
        do_turn (loop_of l.now) (lowered body.items slots.now) (λ _. lowered test.items slots.now)) }
{
    let choice = tested_again(alloc, l, test, slots)?;
    let turn = ticked(alloc, body, choice)?;
    loop_helper(alloc, l, turn, slots)
}

/// The helper of a loop that begins with a test: one turn, without a Tick, and the end. The slots are those behind the
/// turn. Errors: no memory.
pub fn only_turn_helper<'a>(
    alloc: Global,
    l: &Loop<'a>,
    turn: Vec<CoreGoal>,
    slots: &Slots<'a>,
) -> Result<CorePred, AllocError>
    ensures { IfOk result (λ made. pred_tree made ≡ only_turn (loop_of l.now) (lowered turn.items slots.now)) }
{
    let mut goals = turn;
    push_end(alloc, l, slots, &mut goals)?;
    let body = in_turn(alloc, goals)?;
    loop_helper(alloc, l, body, slots)
}

/// The helper of a loop that does this, behind which there are these slots.
fn loop_helper<'a>(
    alloc: Global,
    l: &Loop<'a>,
    body: CoreGoal,
    slots: &Slots<'a>,
) -> Result<CorePred, AllocError>
    ensures { IfOk result (λ made. pred_tree made ≡ helped (loop_of l.now) body slots.now) }
{
    let count = turn_slots(l)?;
    let free = slots.count()?;
    let size = closing_slots(l, free)?;
    simple_helper(alloc, l.name.as_str(), count, body, size)
}

/// How many slots a turn begins with.
fn turn_slots(l: &Loop<'_>) -> Result<u32, AllocError>
    ensures { IfOk result (λ count. count ≡ length (slots_of (loop_of l.now))) }
{
    slots_behind(l, 0)
}

/// A turn, where the test holds, and the end.
fn tested<'a>(
    alloc: Global,
    l: &Loop<'a>,
    test: Vec<CoreGoal>,
    turn: CoreGoal,
    slots: &Slots<'a>,
) -> Result<CoreGoal, AllocError>
    ensures { IfOk result (λ made. made ≡ GoalTree.if_else (turn_of test.items) turn (turn_of (ends_by (loop_of l.now) slots.now))) }
{
    let test = in_turn(alloc, test)?;
    let other = loop_end(alloc, l, slots)?;
    CoreGoal::if_else(alloc, test, turn, other)
}

/// The next turn, where the test holds, and the end.
fn tested_again<'a>(
    alloc: Global,
    l: &Loop<'a>,
    test: Vec<CoreGoal>,
    slots: &Slots<'a>,
) -> Result<CoreGoal, AllocError>
    ensures { IfOk result (λ made. made ≡ GoalTree.if_else (turn_of test.items) (again_of (loop_of l.now))
        (turn_of (ends_by (loop_of l.now) slots.now))) }
{
    let next = again(alloc, l)?;
    tested(alloc, l, test, next, slots)
}

/// The end of a loop, behind which there are these slots, as one goal.
fn loop_end<'a>(alloc: Global, l: &Loop<'a>, slots: &Slots<'a>) -> Result<CoreGoal, AllocError>
    ensures { IfOk result (λ made. made ≡ turn_of (ends_by (loop_of l.now) slots.now)) }
{
    let mut goals = Vec::new(alloc);
    push_end(alloc, l, slots, &mut goals)?;
    in_turn(alloc, goals)
}

/// Puts the end of a loop, behind which there are these slots, behind the goals.
fn push_end<'a>(
    alloc: Global,
    l: &Loop<'a>,
    slots: &Slots<'a>,
    goals: &mut Vec<CoreGoal>,
) -> Result<(), AllocError>
    ensures { IfOk result (λ _. goals.new.items ≡ goals.old.items ++ ends_by (loop_of l.now) slots.now) }
{
    let first = shared_from(l, 0)?;
    let free = slots.count()?;
    let head = loop_slots(alloc, l)?;
    push_closing(alloc, l, first, free, &head, goals)
}

/// The call of the next turn, which has the slots of this one's head.
fn again(alloc: Global, l: &Loop<'_>) -> Result<CoreGoal, AllocError>
    ensures { IfOk result (λ made. made ≡ again_of (loop_of l.now)) }
{
    let count = turn_slots(l)?;
    let mut args = Vec::new(alloc);
    push_slots(alloc, &mut args, 0, count)?;
    CoreGoal::call(alloc, l.name.as_str(), &args)
}

/// A Tick, then these goals, and the call of the next turn.
fn ticked_again(alloc: Global, l: &Loop<'_>, goals: Vec<CoreGoal>) -> Result<CoreGoal, AllocError>
    ensures { IfOk result (λ made. made ≡ turn_of (GoalTree.tick ∷ goals.items ++ again_of (loop_of l.now) ∷ [])) }
{
    let next = again(alloc, l)?;
    ticked(alloc, goals, next)
}

/// A Tick, and then these goals and a last one.
fn ticked(alloc: Global, goals: Vec<CoreGoal>, last: CoreGoal) -> Result<CoreGoal, AllocError>
    ensures { IfOk result (λ made. made ≡ turn_of (GoalTree.tick ∷ goals.items ++ last ∷ [])) }
{
    let mut turn = behind_tick(alloc, goals)?;
    turn.push(last)?;
    in_turn(alloc, turn)
}

/// A Tick, and then these goals.
fn behind_tick(alloc: Global, goals: Vec<CoreGoal>) -> Result<Vec<CoreGoal>, AllocError>
    ensures { IfOk result (λ made. made.items ≡ GoalTree.tick ∷ goals.items) }
{
    let mut goals = goals;
    let tick = CoreGoal::tick(alloc)?;
    let mut turn = Vec::new(alloc);
    turn.push(tick)?;
    turn.append(&mut goals)?;
    Ok(turn)
}
