//! The posting of a term.
ghost use Rattle.std.specs.Prelude.{Result};
ghost use Rattle.pi_terms.specs.Tree.{Tree};
ghost use Rattle.pi_constraints.specs.State.{IsState};
ghost use Rattle.pi_constraints.specs.Store.{IsTerm};
ghost use Rattle.pi_prop_spec.specs.Steps.{Refusal};
ghost use Rattle.pi_prop_spec.specs.Postings.{Posting as PostingOf, posting_in};
ghost use Rattle.pi_prop_read.specs.Faults.{ShowsFault, ShowsPosting, Stops};

use crate::goals::read_goal;
use crate::operands::OperandStop;
use pi_constraints::{ReadStop, Ref, StateStore};
use pi_prop_made::{Limit, Making, Posting};
use pi_terms::Term;
use std::alloc::Global;

/// Why a term has no posting. The limits are own.
#[derive(Drop)]
pub enum ConFault {
    /// This term can't stand where it does.
    NotLinear(Term),
    /// A constraint has more than 1,048,576 terms or items.
    TooManyTerms,
    /// A coefficient of a constraint is past 2^40, its constant past 2^100, an integer item past the values of domains, or a
    /// number of a step past 128 bits.
    WideCoefficient,
    /// A term can't stand where it does, and has more than 16,777,216 cells.
    TooLarge,
    /// Memory was wanted.
    Memory,
}

/// What the goal that a term is posts: new variables, numbered behind those of the store, and constraints in the order of
/// their making; or the first refusal. No time is proved: each node of the term is looked at once, and a term of a sum moves as
/// often as the logarithm of their number. A User's Guide to Picat, 'Constraints'; the limits and their order are own.
pub fn read_constraint<S: StateStore>(alloc: Global, s: &S, goal: Ref) -> Result<Posting, ConFault>
    ensures { (t : Tree) → IsState (S.seen s.now).now.state → IsTerm (S.seen s.now) goal t →
        ShowsPosting result (posting_in (S.seen s.now).now.state t) }
{
    let made = s.vars();
    let mut making = Making::new(alloc, made);
    match read_goal(alloc, s, &mut making, goal) {
        Ok(()) => match making.finish(made) {
            Ok(posting) => Ok(posting),
            Err(Limit::Terms) => Err(ConFault::TooManyTerms),
            Err(Limit::Width) => Err(ConFault::WideCoefficient),
        },
        Err(stop) => {
            drop(making);
            Err(fault_of(alloc, s, stop))
        }
    }
}

/// What stopped a reading, with the term that it tells.
fn fault_of<S: StateStore>(alloc: Global, s: &S, stop: OperandStop) -> ConFault
    ensures { (whole : Result PostingOf Refusal) → IsState (S.seen s.now).now.state → Stops (S.seen s.now).now stop whole →
        ShowsFault result whole }
{
    match stop {
        OperandStop::NotLinear(term) => match s.read_term(alloc, term) {
            Ok(term) => ConFault::NotLinear(term),
            Err(ReadStop::TooLarge) => ConFault::TooLarge,
            Err(ReadStop::Memory) => ConFault::Memory,
        },
        OperandStop::Wide => ConFault::WideCoefficient,
        OperandStop::Memory => ConFault::Memory,
    }
}
