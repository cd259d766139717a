//! Goals that tokens write.
ghost use Rattle.std.specs.Prelude.{◌≡◌, ◌≤◌, List, length, IfOk, IfErr, OnOk};
ghost use Rattle.pi_lex.specs.Kinds.{kinds};
ghost use Rattle.pi_expr.specs.Faults.{stretch, IsFault};
ghost use Rattle.pi_syntax.specs.Crowding.{IsRead};
ghost use Rattle.pi_syntax.specs.ExpTree.{exp_tree};
ghost use Rattle.pi_syntax.specs.ProgramTree.{ProgramTree, source_tree, goal_source};
ghost use Rattle.pi_syntax.specs.Tokens.{Token};
ghost use Rattle.pi_prog_clauses.specs.Faults.{IsGoalFault, IsGoalTold, AnswersGoal};
ghost use Rattle.pi_prog_clauses.specs.GoalVerdict.{GoalVerdict, a_goal, goal_verdict, HasGoalVerdict};
ghost use Rattle.pi_prog_clauses.specs.Reading.{variable_names};
ghost use Rattle.pi_prog_clauses.specs.Stretch.{without_end};

use crate::reading::stretch::is_end;
use crate::reading::variables::has_too_many_names;
use pi_expr::{ExpFault, read_exp};
use pi_lex::Tokens;
use pi_prog_clauses::{
    ProgFault, UnknownCall, first_unknown_of_goal, goal_has_bad_nodes, unknown_name,
};
use pi_syntax::{Exp, Goal, Program};
use std::alloc::Global;

/// The goal that these tokens are, asked of a program, or its first fault. Its final end point may be left out. A User's
/// Guide to Picat, 'Predicates and Functions'; the limits and the order of faults are own.
pub fn read_goal(alloc: Global, tokens: &Tokens, program: &Program) -> Result<Goal, ProgFault>
    ensures goal { IfOk result (λ goal. HasGoalVerdict (kinds tokens.now) (source_tree program.now) (a_goal (goal_source goal))) }
    ensures fault { IfErr result (IsGoalFault (kinds tokens.now) (source_tree program.now)) }
    ensures exact { (v : GoalVerdict) → HasGoalVerdict (kinds tokens.now) (source_tree program.now) v → AnswersGoal result v }
{
    read_judged(alloc, tokens, program)
}

/// The goal, which has no fault, or its first.
fn read_judged(alloc: Global, tokens: &Tokens, program: &Program) -> Result<Goal, ProgFault>
    ensures goal { IfOk result (λ goal. HasGoalVerdict (kinds tokens.now) (source_tree program.now) (a_goal (goal_source goal))) }
    ensures fault { IfErr result (IsGoalFault (kinds tokens.now) (source_tree program.now)) }
{
    match read_body(alloc, tokens) {
        Ok(body) => {
            if let Err(fault) = judge_goal(alloc, tokens, &body, program) {
                drop(body);
                return Err(fault);
            }
            Ok(Goal { body })
        }
        Err(fault) => Err(fault),
    }
}

/// The expression that a goal is.
fn read_body(alloc: Global, tokens: &Tokens) -> Result<Exp, ProgFault>
    ensures body { IfOk result (λ body. IsRead (without_end (kinds tokens.now)) (exp_tree body)) }
    ensures fault { (program : ProgramTree) → IfErr result (IsGoalFault (kinds tokens.now) program) }
{
    let to = goal_end(tokens);
    match read_exp(alloc, tokens, 0, to) {
        Ok(body) => Ok(body),
        Err(fault) => Err(unread(fault)),
    }
}

/// The fault of a goal that isn't read.
fn unread(fault: ExpFault) -> ProgFault
    ensures { (tokens : List Token) (program : ProgramTree) → IsFault (without_end tokens) fault → IsGoalFault tokens program result }
{
    match fault {
        ExpFault::NoExpression => ProgFault::BadClause { number: 1 },
        ExpFault::TooDeep => ProgFault::TooDeep { number: 1 },
        ExpFault::Memory => ProgFault::Memory,
    }
}

/// Where a goal's tokens end: before the final end point, where there is one.
fn goal_end(tokens: &Tokens) -> usize
    ensures within { result ≤ length tokens.now }
    ensures before { stretch (kinds tokens.now) 0 result ≡ without_end (kinds tokens.now) }
{
    let count = tokens.len();
    if count == 0 {
        return 0;
    }
    let last = count - 1;
    if is_end(tokens.kind(last)) {
        return last;
    }
    count
}

/// The first fault of a goal that is an expression.
fn judge_goal(
    alloc: Global,
    tokens: &Tokens,
    body: &Exp,
    program: &Program,
) -> Result<(), ProgFault>
    ensures ok { OnOk result (goal_verdict (source_tree program.now) (exp_tree body.now)
        (variable_names (without_end (kinds tokens.now))) ≡ a_goal (exp_tree body.now)) }
    ensures fault { IfErr result (IsGoalTold (goal_verdict (source_tree program.now) (exp_tree body.now)
        (variable_names (without_end (kinds tokens.now))))) }
{
    let is_bad = goal_has_bad_nodes(alloc, body)?;
    if is_bad {
        return Err(ProgFault::BadClause { number: 1 });
    }
    let to = goal_end(tokens);
    let has_too_many = has_too_many_names(alloc, tokens, 0, to)?;
    if has_too_many {
        return Err(ProgFault::TooManyVariables { number: 1 });
    }
    let unknown = first_unknown_of_goal(alloc, body, program)?;
    if let Some(called) = unknown {
        let call = UnknownCall { called, number: 1 };
        return Err(unknown_name(alloc, call));
    }
    Ok(())
}
