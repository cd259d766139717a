//! Where a node of a clause stands.
ghost use Rattle.std.specs.Prelude.{◌≡◌};
ghost use Rattle.pi_prog_clauses.specs.Places.{inside, quoted, body, argument, is_asked, called};
ghost use Rattle.pi_prog_clauses.specs.Walk.{shown_place};

use crate::nodes::operators::{is_goal_sign, is_membership, is_reified};

/// The place at which a node of a clause stands (own).
#[derive(Clone, Copy)]
pub(crate) enum Place {
    /// As a goal, where `:=` may stand or may not.
    Goal { assigns: bool },
    /// As the goal of `not`, `once`, `find_all`, `count_all` or `catch`.
    Asked,
    /// As an expression, whose value is taken.
    Expression,
    /// As an operand of a sign between constraints.
    Operand,
    /// As an iterator or a test of a loop or a comprehension.
    Iterator,
    /// Inside `$`.
    Term,
    /// As a pattern, inside `$` or outside it.
    Pattern { quoted: bool },
}

/// The place of tests.
pub(crate) const TEST: Place = Place::Goal { assigns: false };

impl Place {
    /// The place of items, operands and arguments that belong to no goal.
    pub(crate) fn inside(self) -> Place
        ensures { shown_place result ≡ inside (shown_place self) }
    {
        match self {
            Place::Term => self,
            Place::Pattern { .. } => self,
            _ => Place::Expression,
        }
    }

    /// The place of what stands behind `$`.
    pub(crate) fn quoted(self) -> Place
        ensures { shown_place result ≡ quoted (shown_place self) }
    {
        match self {
            Place::Pattern { .. } => Place::Pattern { quoted: true },
            _ => Place::Term,
        }
    }

    /// The place of the goals of a conjunction, of branches and of a loop's body.
    pub(crate) fn body(self) -> Place
        ensures { shown_place result ≡ body (shown_place self) }
    {
        match self {
            Place::Goal { .. } => self,
            _ => TEST,
        }
    }

    /// The place of argument i, counted from 0.
    pub(crate) fn argument(self, name: &str, arity: usize, i: usize) -> Place
        ensures { shown_place result ≡ argument (shown_place self) name.now arity i }
    {
        match self {
            Place::Term => self,
            Place::Pattern { .. } => self,
            _ => called(name, arity, i),
        }
    }
}

/// The place of argument i, counted from 0, of a call that is no term.
fn called(name: &str, arity: usize, i: usize) -> Place
    ensures { shown_place result ≡ called name.now arity i }
{
    if is_asked(name, arity, i) {
        Place::Asked
    } else if is_membership(name, arity) && i == 0 {
        Place::Pattern { quoted: false }
    } else if is_reified(name, arity) {
        Place::Operand
    } else {
        Place::Expression
    }
}

/// Whether argument i, counted from 0, is a goal. A User's Guide to Picat, 'Appendix: Predicates and Functions'.
fn is_asked(name: &str, arity: usize, i: usize) -> bool
    ensures { result ≡ is_asked name.now arity i }
{
    is_goal_sign(name, arity)
        || match arity {
            1 => name == "count_all",
            2 => name == "find_all" && i == 1,
            3 => name == "catch" && (i == 0 || i == 2),
            _ => false,
        }
}
