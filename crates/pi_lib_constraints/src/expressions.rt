//! Expressions of objectives: what the reading of one posts, what one comes to, and that one has a better value.
ghost use Rattle.std.specs.Prelude.{◌≡◌, IfOk};
ghost use Rattle.pi_terms.specs.Tree.{Tree, comp, no_trees, tree};
ghost use Rattle.pi_constraints.specs.State.{IsState};
ghost use Rattle.pi_constraints.specs.Store.{IsTerm, Keeps};
ghost use Rattle.pi_prop_spec.specs.Postings.{posting_in};
ghost use Rattle.pi_settling.specs.Read.{operand_in};
ghost use Rattle.pi_settling.specs.Reading.{operand_value};
ghost use Rattle.pi_lib_constraints.specs.Names.{comparison_name};
ghost use Rattle.pi_lib_constraints.specs.Posts.{ShowsPosted, ShowsOperandPosted};

use crate::posting::{fault_of, post_goal, put_posting};
use pi_constraints::{Ref, StateStore, StoredDomains};
use pi_effects::Stop;
use pi_prop_read::{Comparison, PostingGoal, PostingStop, read_expression};
use std::alloc::{AllocError, Global};

/// Posts what the reading of an operand by itself posts, and gives the variables of that which have no domain the default one; or
/// what is raised. What it leaves isn't settled yet. A User's Guide to Picat, 'Constraints'; limits and exceptions are own.
pub fn post_operand<S: StoredDomains>(alloc: Global, s: &mut S, operand: Ref) -> Result<(), Stop>
    ensures keeps { Keeps (S.seen s.old) (S.seen s.new) }
    ensures shows { (t : Tree) → IsState (S.seen s.old).now.state → IsTerm (S.seen s.old) operand t →
        ShowsOperandPosted (S.seen s.old) (S.seen s.new) result (operand_in t (S.seen s.old).now.state) }
{
    let _root = s.look(operand);
    match read_expression(alloc, s, operand) {
        Ok(read) => {
            put_posting(alloc, s, &read.posting)?;
            Ok(())
        }
        Err(stop) => Err(fault_of(stop)),
    }
}

/// The integer that an operand comes to; None where it is none, or is refused. A User's Guide to Picat, 'Constraints'.
pub fn number_of<S: StateStore>(
    alloc: Global,
    s: &S,
    operand: Ref,
) -> Result<Option<i128>, AllocError>
    ensures { IfOk result (λ found. (t : Tree) → IsState (S.seen s.now).now.state → IsTerm (S.seen s.now) operand t →
        found ≡ operand_value (operand_in t (S.seen s.now).now.state)) }
{
    match read_expression(alloc, s, operand) {
        Ok(read) => Ok(read.number),
        Err(PostingStop::NotAConstraint(_)) => Ok(None),
        Err(PostingStop::TooManyTerms) => Ok(None),
        Err(PostingStop::WideCoefficient) => Ok(None),
        Err(PostingStop::Memory) => Err(AllocError),
    }
}

/// Posts that two operands stand so to one another; or what is raised. What it leaves isn't settled yet. A User's Guide to Picat,
/// 'Constraints'; limits and exceptions are own.
pub fn post_relation<S: StoredDomains>(
    alloc: Global,
    s: &mut S,
    comparison: Comparison,
    a: Ref,
    b: Ref,
) -> Result<(), Stop>
    ensures keeps { Keeps (S.seen s.old) (S.seen s.new) }
    ensures shows { (t u : Tree) → IsState (S.seen s.old).now.state → IsTerm (S.seen s.old) a t →
        IsTerm (S.seen s.old) b u → ShowsPosted (S.seen s.old) (S.seen s.new) result
        (posting_in (S.seen s.old).now.state (comp (comparison_name comparison) (tree t (tree u no_trees)))) }
{
    let _root = s.look(a);
    post_goal(alloc, s, PostingGoal::Relation(comparison, a, b))
}
