//! The signs that a call may have as its name, by what they stand for. A User's Guide to Picat, 'Operators'; which are
//! goals and which are expressions is own.
ghost use Rattle.std.specs.Prelude.{◌≡◌, ◌&&◌, ◌==◌};
ghost use Rattle.pi_prog_clauses.specs.Words.{words_shown};
ghost use Rattle.pi_syntax.specs.Tokens.{is_one_of};
ghost use Rattle.pi_prog_clauses.specs.Operators.{is_goal_sign, is_assignment, is_membership, is_relation, is_constraint, is_reified, is_arithmetic, is_operator, is_goal_call, is_expression_call, is_boolean_call};

const GOAL_SIGNS: [&str; 2] = ["not", "once"];

/// The relations save `in`.
const RELATIONS: [&str; 25] = [
    "=", "!=", "==", "!==", "=:=", "=\\=", "<", "=<", "<=", ">", ">=", "@<", "@=<", "@>", "@>=",
    ":=", "::", "notin", "#=", "#!=", "#<", "#=<", "#<=", "#>", "#>=",
];

/// The relations of constraints.
const CONSTRAINTS: [&str; 7] = ["#=", "#!=", "#<", "#=<", "#<=", "#>", "#>="];

/// The signs between two constraints.
const REIFIED: [&str; 5] = ["#/\\", "#\\/", "#^", "#=>", "#<=>"];

/// The signs before one operand.
const PREFIXES: [&str; 3] = ["+", "-", "~"];

/// The signs between two operands, of arithmetic, of lists and of ranges.
const INFIXES: [&str; 17] = [
    "+", "-", "++", "*", "//", "/>", "/<", "div", "mod", "rem", "**", ">>", "<<", "/\\", "^",
    "\\/", "..",
];

/// Whether a name is one of these.
pub(crate) fn is_among(words: &[&str], name: &str) -> bool
    ensures { result ≡ is_one_of (words_shown words.now) name.now }
{
    for word in words {
        if name == *word {
            return true;
        }
    }
    false
}

/// Whether it is `not` or `once`.
#[tactic(auto, unfolding(crate::specs::Operators::is_goal_sign))]
pub(crate) fn is_goal_sign(name: &str, arity: usize) -> bool
    ensures { result ≡ is_goal_sign name.now arity }
{
    arity == 1 && is_among(&GOAL_SIGNS, name)
}

/// Whether it is `:=`.
#[tactic(auto, unfolding(crate::specs::Operators::is_assignment))]
pub(crate) fn is_assignment(name: &str, arity: usize) -> bool
    ensures { result ≡ is_assignment name.now arity }
{
    arity == 2 && name == ":="
}

/// Whether it is `in`, of an iterator.
#[tactic(auto, unfolding(crate::specs::Operators::is_membership))]
pub(crate) fn is_membership(name: &str, arity: usize) -> bool
    ensures { result ≡ is_membership name.now arity }
{
    arity == 2 && name == "in"
}

/// Whether it is a relation other than `in`.
#[tactic(auto, unfolding(crate::specs::Operators::is_relation))]
fn is_relation(name: &str, arity: usize) -> bool
    ensures { result ≡ is_relation name.now arity }
{
    arity == 2 && is_among(&RELATIONS, name)
}

/// Whether it is a relation of constraints.
#[tactic(auto, unfolding(crate::specs::Operators::is_constraint))]
fn is_constraint(name: &str, arity: usize) -> bool
    ensures { result ≡ is_constraint name.now arity }
{
    arity == 2 && is_among(&CONSTRAINTS, name)
}

/// Whether it is a sign between constraints.
#[tactic(auto, unfolding(crate::specs::Operators::is_reified))]
pub(crate) fn is_reified(name: &str, arity: usize) -> bool
    ensures { result ≡ is_reified name.now arity }
{
    (arity == 1 && name == "#~") || (arity == 2 && is_among(&REIFIED, name))
}

/// Whether it is a sign of arithmetic, of lists or of ranges.
#[tactic(auto, unfolding(crate::specs::Operators::is_arithmetic))]
fn is_arithmetic(name: &str, arity: usize) -> bool
    ensures { result ≡ is_arithmetic name.now arity }
{
    (arity == 1 && is_among(&PREFIXES, name))
        || (arity == 2 && is_among(&INFIXES, name))
        || (arity == 3 && name == "..")
}

/// Whether it is a sign with as many operands as it has in the grammar.
#[tactic(auto, unfolding(crate::specs::Operators::is_operator))]
pub(crate) fn is_operator(name: &str, arity: usize) -> bool
    ensures { result ≡ is_operator name.now arity }
{
    is_goal_call(name, arity) || is_expression_call(name, arity)
}

/// Whether it is a sign that makes a goal, and no expression.
pub(crate) fn is_goal_call(name: &str, arity: usize) -> bool
    ensures { result ≡ is_goal_call name.now arity }
{
    is_goal_sign(name, arity) || is_relation(name, arity) || is_reified(name, arity)
}

/// Whether it is a sign that makes an expression, and no goal.
pub(crate) fn is_expression_call(name: &str, arity: usize) -> bool
    ensures { result ≡ is_expression_call name.now arity }
{
    is_membership(name, arity) || is_arithmetic(name, arity)
}

/// Whether it makes a goal that may be an operand of a sign between constraints.
pub(crate) fn is_boolean_call(name: &str, arity: usize) -> bool
    ensures { result ≡ is_boolean_call name.now arity }
{
    is_reified(name, arity) || is_constraint(name, arity)
}
