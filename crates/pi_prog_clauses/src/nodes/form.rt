//! What a node is at its root.
ghost use Rattle.std.specs.Prelude.{◌≡◌};
ghost use Rattle.pi_syntax.specs.ExpTree.{exp_tree};
ghost use Rattle.pi_syntax.specs.ExpLists.{exps_of};
ghost use Rattle.pi_prog_clauses.specs.Form.{form_of, shown_form, has_variable_first, is_head_form, is_pattern_form, is_goal_form, is_expression_form, is_boolean_form, is_membership_form, is_no_term_form, is_variable_form, is_variable_alone};
ghost use Rattle.pi_prog_clauses.specs.Items.{is_kept_from_patterns, is_variable};

use crate::nodes::operators::{
    is_assignment, is_boolean_call, is_expression_call, is_goal_call, is_membership, is_operator,
};
use pi_syntax::Exp;

/// What a node is at its root, as far as it says where the node may stand.
#[derive(Clone, Copy)]
pub(crate) enum Form<'a> {
    Variable(&'a str),
    Atom(&'a str),
    Call {
        name: &'a str,
        arity: usize,
        args: &'a [Exp],
    },
    /// `V@P`.
    Binding(&'a str),
    Range,
    /// An index or a comprehension.
    Selection,
    /// An integer, a text, a list, an array, or what stands behind `$`.
    Value,
    /// A conjunction, a disjunction, an arrow, a choice or a loop.
    Control,
}

impl<'a> Form<'a> {
    /// That of an expression.
    #[tactic(auto, unfolding(pi_syntax::specs::ExpTree::exp_tree))]
    pub(crate) fn of(exp: &'a Exp) -> Form<'a>
        ensures { shown_form result ≡ form_of (exp_tree exp.now) }
    {
        match exp {
            Exp::Var(name) => Form::Variable(name.as_str()),
            Exp::Int(_) => Form::Value,
            Exp::Atom(name) => Form::Atom(name.as_str()),
            Exp::Str(_) => Form::Value,
            Exp::List(_, _) => Form::Value,
            Exp::Array(_) => Form::Value,
            Exp::Call(name, args) => Form::Call {
                name: name.as_str(),
                arity: args.len(),
                args: args.as_slice(),
            },
            Exp::Quote(_) => Form::Value,
            Exp::Index(_, _) => Form::Selection,
            Exp::Range(_, _, _) => Form::Range,
            Exp::At(name, _) => Form::Binding(name.as_str()),
            Exp::Collect(_, _, _) => Form::Selection,
            Exp::And(_) => Form::Control,
            Exp::Or(_) => Form::Control,
            Exp::Arrow(_, _) => Form::Control,
            Exp::If(_, _) => Form::Control,
            Exp::Foreach(_, _) => Form::Control,
            Exp::While(_, _) => Form::Control,
            Exp::DoWhile(_, _) => Form::Control,
        }
    }

    /// Whether it is an atom, or a call of no sign.
    pub(crate) fn is_head(self) -> bool
        ensures { result ≡ is_head_form (shown_form self.entry) }
    {
        match self {
            Form::Atom(_) => true,
            Form::Call { name, arity, .. } => !is_operator(name, arity),
            _ => false,
        }
    }

    /// Whether it may stand as a pattern, inside `$` or outside it.
    pub(crate) fn is_pattern(self, quoted: bool) -> bool
        ensures { result ≡ is_pattern_form quoted (shown_form self.entry) }
    {
        match self {
            Form::Call { name, arity, .. } => quoted || !is_kept_from_patterns(name, arity),
            Form::Range => quoted,
            Form::Selection => false,
            Form::Control => false,
            _ => true,
        }
    }

    /// Whether it is a goal, and no expression.
    pub(crate) fn is_goal(self) -> bool
        ensures { result ≡ is_goal_form (shown_form self.entry) }
    {
        match self {
            Form::Call { name, arity, .. } => is_goal_call(name, arity),
            Form::Control => true,
            _ => false,
        }
    }

    /// Whether it is an expression, and no goal.
    pub(crate) fn is_expression(self) -> bool
        ensures { result ≡ is_expression_form (shown_form self.entry) }
    {
        match self {
            Form::Atom(_) => false,
            Form::Call { name, arity, .. } => is_expression_call(name, arity),
            Form::Control => false,
            _ => true,
        }
    }

    /// Whether it is a relation of constraints, or a sign between them.
    pub(crate) fn is_boolean(self) -> bool
        ensures { result ≡ is_boolean_form (shown_form self.entry) }
    {
        match self {
            Form::Call { name, arity, .. } => is_boolean_call(name, arity),
            _ => false,
        }
    }

    /// Whether it is `E in D`.
    pub(crate) fn is_membership(self) -> bool
        ensures { result ≡ is_membership_form (shown_form self.entry) }
    {
        match self {
            Form::Call { name, arity, .. } => is_membership(name, arity),
            _ => false,
        }
    }

    /// Whether it may not stand inside `$`.
    pub(crate) fn is_no_term(self) -> bool
        ensures { result ≡ is_no_term_form (shown_form self.entry) }
    {
        match self {
            Form::Selection => true,
            Form::Control => true,
            _ => false,
        }
    }

    fn is_variable_alone(self) -> bool
        ensures { result ≡ is_variable_alone (shown_form self.entry) }
    {
        match self {
            Form::Variable(_) => true,
            _ => false,
        }
    }

    /// Whether a variable of this name stands there.
    pub(crate) fn is_variable(self, name: &str) -> bool
        ensures { result ≡ is_variable_form name.now (shown_form self.entry) }
    {
        match self {
            Form::Variable(other) => name == other,
            Form::Binding(other) => name == other,
            _ => false,
        }
    }
}

/// Whether the first argument is a variable.
pub(crate) fn has_variable_first(args: &[Exp]) -> bool
    ensures { result ≡ has_variable_first (exps_of args.now) }
{
    let Some(first) = args.first() else {
        return false;
    };
    is_variable(first)
}

fn is_variable(exp: &Exp) -> bool
    ensures { result ≡ is_variable (exp_tree exp.now) }
{
    Form::of(exp).is_variable_alone()
}

/// Whether it is a sign that no pattern has without `$`.
fn is_kept_from_patterns(name: &str, arity: usize) -> bool
    ensures { result ≡ is_kept_from_patterns name.now arity }
{
    is_assignment(name, arity) || is_membership(name, arity)
}
