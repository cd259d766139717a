//! What a term of a store is as an operand.
ghost use Rattle.std.specs.Prelude.{◌≡◌};
ghost use Rattle.pi_constraints.specs.State.{IsState};
ghost use Rattle.pi_prop_read.specs.Refs.{IsThere};
ghost use Rattle.pi_prop_read.specs.OperandNodes.{node_of_one, node_of_two, ShowsNode};

use crate::operands::{Binary, Node, Unary};
use pi_constraints::{Cell, Ref, StateStore};

/// What a term is as an operand, at its root. It takes no memory. A User's Guide to Picat, 'Constraints'.
pub(crate) fn node_at<S: StateStore>(s: &S, term: Ref) -> Node
    ensures { IsState (S.seen s.now).now.state → IsThere (S.seen s.now).now term → ShowsNode (S.seen s.now).now term result }
{
    match s.look(term) {
        Cell::Var(variable) => Node::Variable(variable),
        Cell::Int(number) => Node::Number(number),
        Cell::Atom(_) => Node::Other,
        Cell::Comp(name, count) => {
            if count == 1 {
                node_of_one(s.name(name), s.arg(term, 0))
            } else if count == 2 {
                node_of_two(s.name(name), s.arg(term, 0), s.arg(term, 1))
            } else {
                Node::Other
            }
        }
    }
}

/// What a name with one argument is.
fn node_of_one(name: &str, operand: Ref) -> Node
    ensures { result ≡ node_of_one name.now operand }
{
    if name == "+" {
        Node::One(Unary::Positive, operand)
    } else if name == "-" {
        Node::One(Unary::Negative, operand)
    } else if name == "abs" {
        Node::One(Unary::Absolute, operand)
    } else if name == "sum" {
        Node::Sum(operand)
    } else {
        Node::Other
    }
}

/// What a name with two arguments is.
fn node_of_two(name: &str, left: Ref, right: Ref) -> Node
    ensures { result ≡ node_of_two name.now left right }
{
    if name == "+" {
        Node::Two(Binary::Plus, left, right)
    } else if name == "-" {
        Node::Two(Binary::Minus, left, right)
    } else if name == "*" {
        Node::Two(Binary::Times, left, right)
    } else {
        Node::Other
    }
}
