//! What a term of a store is as a goal of constraints.
ghost use Rattle.std.specs.Prelude.{◌≡◌};
ghost use Rattle.pi_constraints.specs.State.{IsState};
ghost use Rattle.pi_prop_read.specs.Refs.{IsThere};
ghost use Rattle.pi_prop_read.specs.GoalNodes.{one_named, three_named, ShowsGoalNode, ShowsListGoal};

use crate::relations::Comparison;
use crate::truths::{TruthNode, truth_node_at};
use pi_constraints::{Cell, Ref, StateStore};

/// A goal over the items of a list or an array.
#[derive(Clone, Copy)]
pub(crate) enum ListGoal {
    Different(Ref),
    Distinct(Ref),
    Element(Ref, Ref, Ref),
    Other,
}

/// What a term is as a goal of constraints.
#[derive(Clone, Copy)]
pub(crate) enum GoalNode {
    Relation(Comparison, Ref, Ref),
    Truth,
    Different(Ref),
    Distinct(Ref),
    Element(Ref, Ref, Ref),
    Other,
}

/// What a term is as a goal, at its root. It takes no memory. A User's Guide to Picat, 'Constraints'.
pub(crate) fn goal_node_at<S: StateStore>(s: &S, term: Ref) -> GoalNode
    ensures { IsState (S.seen s.now).now.state → IsThere (S.seen s.now).now term → ShowsGoalNode (S.seen s.now).now term result }
{
    match list_goal_at(s, term) {
        ListGoal::Different(items) => GoalNode::Different(items),
        ListGoal::Distinct(items) => GoalNode::Distinct(items),
        ListGoal::Element(index, items, value) => GoalNode::Element(index, items, value),
        ListGoal::Other => match truth_node_at(s, term) {
            TruthNode::Variable(_) => GoalNode::Other,
            TruthNode::Number(_) => GoalNode::Other,
            TruthNode::Relation(comparison, left, right) => {
                GoalNode::Relation(comparison, left, right)
            }
            TruthNode::Negation(_) => GoalNode::Truth,
            TruthNode::Joined(_, _, _) => GoalNode::Truth,
            TruthNode::Other => GoalNode::Other,
        },
    }
}

/// What a term is as a goal over items.
fn list_goal_at<S: StateStore>(s: &S, term: Ref) -> ListGoal
    ensures { IsState (S.seen s.now).now.state → IsThere (S.seen s.now).now term → ShowsListGoal (S.seen s.now).now term result }
{
    match s.look(term) {
        Cell::Var(_) => ListGoal::Other,
        Cell::Int(_) => ListGoal::Other,
        Cell::Atom(_) => ListGoal::Other,
        Cell::Comp(name, count) => {
            if count == 1 {
                one_named(s.name(name), s.arg(term, 0))
            } else if count == 3 {
                three_named(s.name(name), s.arg(term, 0), s.arg(term, 1), s.arg(term, 2))
            } else {
                ListGoal::Other
            }
        }
    }
}

/// What a name with one argument is.
fn one_named(name: &str, items: Ref) -> ListGoal
    ensures { result ≡ one_named name.now items }
{
    if name == "all_different" {
        ListGoal::Different(items)
    } else if name == "all_distinct" {
        ListGoal::Distinct(items)
    } else {
        ListGoal::Other
    }
}

/// What a name with three arguments is.
fn three_named(name: &str, index: Ref, items: Ref, value: Ref) -> ListGoal
    ensures { result ≡ three_named name.now index items value }
{
    if name == "element" {
        ListGoal::Element(index, items, value)
    } else {
        ListGoal::Other
    }
}
