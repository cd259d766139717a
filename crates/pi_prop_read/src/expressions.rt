//! Operands that are read by themselves, as the expression of an objective is.
ghost use Rattle.pi_terms.specs.Tree.{Tree};
ghost use Rattle.pi_constraints.specs.State.{IsState, next};
ghost use Rattle.pi_constraints.specs.Store.{IsTerm};
ghost use Rattle.pi_prop_read.specs.Expressions.{expression_read, ShowsExpression};

use crate::called::{PostingStop, posting_stop};
use crate::operands::read_operand;
use pi_constraints::{Ref, StateStore};
use pi_prop_made::{Limit, Making, Posting};
use std::alloc::Global;

/// What an operand by itself reads to: the number that it is, where it is one, and what its reading posts.
#[derive(Drop)]
pub struct Expression {
    pub number: Option<i128>,
    pub posting: Posting,
}

/// What an operand by itself reads to, judged as a goal is: steps and operands first, then the finished constraints. A User's
/// Guide to Picat, 'Constraints'; the limits and their order are own.
pub fn read_expression<S: StateStore>(
    alloc: Global,
    s: &S,
    operand: Ref,
) -> Result<Expression, PostingStop>
    ensures { (t : Tree) → IsState (S.seen s.now).now.state → IsTerm (S.seen s.now) operand t →
        ShowsExpression (S.seen s.now).now result (next (S.seen s.now).now.state)
        (expression_read (S.seen s.now).now.state t) }
{
    let made = s.vars();
    let mut making = Making::new(alloc, made);
    match read_operand(alloc, s, &mut making, operand) {
        Ok(sum) => match making.finish(made) {
            Ok(posting) => Ok(Expression {
                number: sum.as_number(),
                posting,
            }),
            Err(Limit::Terms) => Err(PostingStop::TooManyTerms),
            Err(Limit::Width) => Err(PostingStop::WideCoefficient),
        },
        Err(stop) => {
            drop(making);
            Err(posting_stop(stop))
        }
    }
}
