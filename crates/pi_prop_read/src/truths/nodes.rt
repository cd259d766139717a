//! What a term of a store is as a Boolean expression.
ghost use Rattle.std.specs.Prelude.{◌≡◌};
ghost use Rattle.std.specs.Option.{option_map};
ghost use Rattle.pi_constraints.specs.State.{IsState};
ghost use Rattle.pi_prop_spec.specs.Terms.{comparison_named, connective_named};
ghost use Rattle.pi_prop_read.specs.Refs.{IsThere};
ghost use Rattle.pi_prop_read.specs.Relations.{comparison_of};
ghost use Rattle.pi_prop_read.specs.TruthNodes.{connective_of, node_of_one, IsTwo, ShowsTruthNode};

use crate::relations::Comparison;
use pi_constraints::{Cell, Ref, StateStore};

/// What joins two Boolean expressions. A User's Guide to Picat, 'Constraints'.
#[derive(Clone, Copy)]
pub enum Connective {
    And,
    Or,
    Either,
    Implies,
    Equivalent,
}

/// What a term is as a Boolean expression.
#[derive(Clone, Copy)]
pub enum TruthNode {
    Variable(u64),
    Number(i128),
    Relation(Comparison, Ref, Ref),
    Negation(Ref),
    Joined(Connective, Ref, Ref),
    Other,
}

/// What a term is as a Boolean expression, at its root. It takes no memory. A User's Guide to Picat, 'Constraints'.
pub fn truth_node_at<S: StateStore>(s: &S, term: Ref) -> TruthNode
    ensures { IsState (S.seen s.now).now.state → IsThere (S.seen s.now).now term → ShowsTruthNode (S.seen s.now).now term result }
{
    match s.look(term) {
        Cell::Var(variable) => TruthNode::Variable(variable),
        Cell::Int(number) => TruthNode::Number(number),
        Cell::Atom(_) => TruthNode::Other,
        Cell::Comp(name, count) => {
            if count == 1 {
                node_of_one(s.name(name), s.arg(term, 0))
            } else if count == 2 {
                node_of_two(s.name(name), s.arg(term, 0), s.arg(term, 1))
            } else {
                TruthNode::Other
            }
        }
    }
}

/// What a name with one argument is.
fn node_of_one(name: &str, part: Ref) -> TruthNode
    ensures { result ≡ node_of_one name.now part }
{
    if name == "#~" {
        TruthNode::Negation(part)
    } else {
        TruthNode::Other
    }
}

/// What a name with two arguments is.
fn node_of_two(name: &str, left: Ref, right: Ref) -> TruthNode
    ensures { IsTwo result name.now left right }
{
    match comparison_named(name) {
        Some(comparison) => TruthNode::Relation(comparison, left, right),
        None => match connective_named(name) {
            Some(connective) => TruthNode::Joined(connective, left, right),
            None => TruthNode::Other,
        },
    }
}

/// The comparison that is written so.
#[tactic(auto, unfolding(pi_prop_spec::specs::Terms::comparison_named))]
fn comparison_named(name: &str) -> Option<Comparison>
    ensures { option_map comparison_of result ≡ comparison_named name.now }
{
    if name == "#=" {
        Some(Comparison::Equal)
    } else if name == "#!=" {
        Some(Comparison::Unequal)
    } else if name == "#<" {
        Some(Comparison::Less)
    } else if name == "#=<" {
        Some(Comparison::AtMost)
    } else if name == "#<=" {
        Some(Comparison::AtMost)
    } else if name == "#>" {
        Some(Comparison::Greater)
    } else if name == "#>=" {
        Some(Comparison::AtLeast)
    } else {
        None
    }
}

/// The connective that is written so.
#[tactic(auto, unfolding(pi_prop_spec::specs::Terms::connective_named))]
fn connective_named(name: &str) -> Option<Connective>
    ensures { option_map connective_of result ≡ connective_named name.now }
{
    if name == "#/\\" {
        Some(Connective::And)
    } else if name == "#\\/" {
        Some(Connective::Or)
    } else if name == "#^" {
        Some(Connective::Either)
    } else if name == "#=>" {
        Some(Connective::Implies)
    } else if name == "#<=>" {
        Some(Connective::Equivalent)
    } else {
        None
    }
}
