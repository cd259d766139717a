//! The posting of a goal that is given by its kind and its arguments, as a call of it is.
ghost use Rattle.std.specs.Prelude.{◌≡◌};
ghost use Rattle.pi_constraints.specs.State.{IsState, next};
ghost use Rattle.pi_prop_spec.specs.Postings.{posting_of};
ghost use Rattle.pi_prop_read.specs.Called.{goal_as, HasParts, posting_stop, ShowsCalled};

use crate::goals::read_called;
use crate::operands::OperandStop;
use crate::relations::Comparison;
use crate::truths::Connective;
use pi_constraints::{Ref, StateStore};
use pi_prop_made::{Limit, Making, Posting};
use std::alloc::Global;

/// A goal that posts, with its arguments. A User's Guide to Picat, 'Constraints'.
#[derive(Clone, Copy)]
pub enum PostingGoal {
    /// A relation between two operands.
    Relation(Comparison, Ref, Ref),
    /// `#~ X`
    Negation(Ref),
    /// Two Boolean expressions that are joined.
    Joined(Connective, Ref, Ref),
    /// `all_different`
    Different(Ref),
    /// `all_distinct`
    Distinct(Ref),
    /// `element`: the index, the items, the value.
    Element(Ref, Ref, Ref),
}

/// Why a goal has no posting. The limits are own.
#[derive(Clone, Copy)]
pub enum PostingStop {
    /// This term can't stand where it does.
    NotAConstraint(Ref),
    /// A constraint has more than 1,048,576 terms or items.
    TooManyTerms,
    /// A coefficient of a constraint is past 2^40, its constant past 2^100, an integer item past the values of domains, or a
    /// number of a step past 128 bits.
    WideCoefficient,
    /// Memory was wanted.
    Memory,
}

/// What a goal posts: as `read_constraint` answers of the term that it is, but with the Ref of a wrong term. A User's Guide to
/// Picat, 'Constraints'; the limits and their order are own.
pub fn read_posting<S: StateStore>(
    alloc: Global,
    s: &S,
    goal: PostingGoal,
) -> Result<Posting, PostingStop>
    ensures { IsState (S.seen s.now).now.state → HasParts (S.seen s.now).now goal →
        ShowsCalled (S.seen s.now).now result (posting_of (next (S.seen s.now).now.state) (goal_as (S.seen s.now).now goal)) }
{
    let made = s.vars();
    let mut making = Making::new(alloc, made);
    match read_called(alloc, s, &mut making, goal) {
        Ok(()) => match making.finish(made) {
            Ok(posting) => Ok(posting),
            Err(Limit::Terms) => Err(PostingStop::TooManyTerms),
            Err(Limit::Width) => Err(PostingStop::WideCoefficient),
        },
        Err(stop) => {
            drop(making);
            Err(posting_stop(stop))
        }
    }
}

/// What stops a reading stops the posting.
pub(crate) fn posting_stop(stop: OperandStop) -> PostingStop
    ensures { result ≡ posting_stop stop }
{
    match stop {
        OperandStop::NotLinear(term) => PostingStop::NotAConstraint(term),
        OperandStop::Wide => PostingStop::WideCoefficient,
        OperandStop::Memory => PostingStop::Memory,
    }
}
