//! Calls of goals of constraints.
ghost use Rattle.std.specs.Prelude.{◌≡◌, Some, codes, length};
ghost use Rattle.pi_terms.specs.Tree.{Tree, Trees, comp, no_trees, tree};
ghost use Rattle.pi_constraints.specs.State.{IsState};
ghost use Rattle.pi_constraints.specs.Store.{IsTerm, AreTerms, Keeps};
ghost use Rattle.pi_effects.specs.Effect.{Effect};
ghost use Rattle.pi_lib.specs.Outcomes.{ShowsOutcome};
ghost use Rattle.pi_settling.specs.Goals.{constraint_effect};
ghost use Rattle.pi_settling.specs.Posted.{posting_goal};
ghost use Rattle.pi_lib_constraints.specs.Done.{two_done};
ghost use Rattle.pi_lib_constraints.specs.Names.{one_name, comparison_name, connective_name, goal_name, goal_arity};

use crate::kinds::{ConstraintGoal, GoalOfOne, GoalOfTwo};
use crate::posting::post;
use crate::within::{not_in, within};
use pi_constraints::{Ref, StoredDomains};
use pi_effects::Stop;
use pi_lib::{Outcome, one, three, two};
use pi_prop_read::{Comparison, Connective, PostingGoal};
use std::alloc::Global;

/// What a call of a goal of constraints comes to, or what is raised. It is said where there are as many arguments as the goal
/// takes. What it leaves isn't settled yet. A User's Guide to Picat, 'Constraints'; limits and exceptions are own.
pub fn call_constraint<S: StoredDomains>(
    alloc: Global,
    s: &mut S,
    goal: ConstraintGoal,
    args: &[Ref],
) -> Result<Outcome, Stop>
    ensures keeps { Keeps (S.seen s.old) (S.seen s.new) }
    ensures shows { (ts : Trees) (e : Effect) → IsState (S.seen s.old).now.state → AreTerms (S.seen s.old) args.now ts →
        length args.now ≡ goal_arity goal → constraint_effect (goal_name goal) ts (S.seen s.old).now.state ≡ Some e →
        ShowsOutcome (S.seen s.old) (S.seen s.new) result e }
{
    match goal {
        ConstraintGoal::OfOne(goal) => match one(args) {
            Some(a) => call_of_one(alloc, s, goal, a),
            None => Err(Stop::Memory),
        },
        ConstraintGoal::OfTwo(goal) => match two(args) {
            Some((a, b)) => call_of_two(alloc, s, goal, a, b),
            None => Err(Stop::Memory),
        },
        ConstraintGoal::Element => match three(args) {
            Some((a, b, c)) => call_of_element(alloc, s, a, b, c),
            None => Err(Stop::Memory),
        },
    }
}

/// A call of a goal with two arguments.
fn call_of_two<S: StoredDomains>(
    alloc: Global,
    s: &mut S,
    goal: GoalOfTwo,
    a: Ref,
    b: Ref,
) -> Result<Outcome, Stop>
    ensures keeps { Keeps (S.seen s.old) (S.seen s.new) }
    ensures shows { (t u : Tree) → IsState (S.seen s.old).now.state → IsTerm (S.seen s.old) a t →
        IsTerm (S.seen s.old) b u → ShowsOutcome (S.seen s.old) (S.seen s.new) result
        (two_done goal (S.seen s.old).now.state t u) }
{
    match goal {
        GoalOfTwo::Within => within(alloc, s, a, b),
        GoalOfTwo::NotIn => not_in(alloc, s, a, b),
        GoalOfTwo::Relation(comparison) => relate(alloc, s, comparison, a, b),
        GoalOfTwo::Joined(connective) => join(alloc, s, connective, a, b),
    }
}

/// A call of a goal with one argument.
fn call_of_one<S: StoredDomains>(
    alloc: Global,
    s: &mut S,
    goal: GoalOfOne,
    a: Ref,
) -> Result<Outcome, Stop>
    ensures keeps { Keeps (S.seen s.old) (S.seen s.new) }
    ensures shows { (t : Tree) → IsState (S.seen s.old).now.state → IsTerm (S.seen s.old) a t →
        ShowsOutcome (S.seen s.old) (S.seen s.new) result
        (posting_goal (S.seen s.old).now.state (comp (one_name goal) (tree t no_trees))) }
{
    let _root = s.look(a);
    match goal {
        GoalOfOne::Negation => post(alloc, s, PostingGoal::Negation(a)),
        GoalOfOne::Different => post(alloc, s, PostingGoal::Different(a)),
        GoalOfOne::Distinct => post(alloc, s, PostingGoal::Distinct(a)),
    }
}

/// A relation of two operands.
fn relate<S: StoredDomains>(
    alloc: Global,
    s: &mut S,
    comparison: Comparison,
    a: Ref,
    b: Ref,
) -> Result<Outcome, Stop>
    ensures keeps { Keeps (S.seen s.old) (S.seen s.new) }
    ensures shows { (t u : Tree) → IsState (S.seen s.old).now.state → IsTerm (S.seen s.old) a t →
        IsTerm (S.seen s.old) b u → ShowsOutcome (S.seen s.old) (S.seen s.new) result
        (posting_goal (S.seen s.old).now.state (comp (comparison_name comparison) (tree t (tree u no_trees)))) }
{
    let _root = s.look(a);
    post(alloc, s, PostingGoal::Relation(comparison, a, b))
}

/// Two Boolean expressions that are joined.
fn join<S: StoredDomains>(
    alloc: Global,
    s: &mut S,
    connective: Connective,
    a: Ref,
    b: Ref,
) -> Result<Outcome, Stop>
    ensures keeps { Keeps (S.seen s.old) (S.seen s.new) }
    ensures shows { (t u : Tree) → IsState (S.seen s.old).now.state → IsTerm (S.seen s.old) a t →
        IsTerm (S.seen s.old) b u → ShowsOutcome (S.seen s.old) (S.seen s.new) result
        (posting_goal (S.seen s.old).now.state (comp (connective_name connective) (tree t (tree u no_trees)))) }
{
    let _root = s.look(a);
    post(alloc, s, PostingGoal::Joined(connective, a, b))
}

/// `element`: the index, the items, the value.
fn call_of_element<S: StoredDomains>(
    alloc: Global,
    s: &mut S,
    index: Ref,
    items: Ref,
    value: Ref,
) -> Result<Outcome, Stop>
    ensures keeps { Keeps (S.seen s.old) (S.seen s.new) }
    ensures shows { (t u w : Tree) → IsState (S.seen s.old).now.state → IsTerm (S.seen s.old) index t →
        IsTerm (S.seen s.old) items u → IsTerm (S.seen s.old) value w → ShowsOutcome (S.seen s.old) (S.seen s.new) result
        (posting_goal (S.seen s.old).now.state (comp (codes "element") (tree t (tree u (tree w no_trees))))) }
{
    let _root = s.look(index);
    post(alloc, s, PostingGoal::Element(index, items, value))
}
