//! What may not stand in a clause, node by node. A User's Guide to Picat, 'Predicates and Functions' and 'Assignments
//! and Loops'; which restrictions there are is own.
ghost use Rattle.std.specs.Prelude.{◌≡◌, true, IfOk};
ghost use Rattle.std.specs.List.{list_any};
ghost use Rattle.pi_syntax.specs.ExpTree.{exp_tree};
ghost use Rattle.pi_syntax.specs.ProgramTree.{written_clause};
ghost use Rattle.pi_prog_clauses.specs.Form.{shown_form, is_bad_node, is_bad_form, is_misplaced_form, is_misassigned_form, is_stray_form, is_no_goal_form};
ghost use Rattle.pi_prog_clauses.specs.Items.{are_bad_nodes, is_evaluated, allows_assignment};
ghost use Rattle.pi_prog_clauses.specs.Places.{goal, placed, clause_placed};
ghost use Rattle.pi_prog_clauses.specs.Walk.{shown_place, shown_node, nodes_ahead};

use crate::nodes::form::{Form, has_variable_first};
use crate::nodes::operators::is_assignment;
use crate::nodes::place::Place;
use crate::nodes::walk::{Node, Walk};
use pi_syntax::{Clause, Exp};
use std::alloc::{AllocError, Global};

/// Whether a node of what a clause evaluates may not stand where it does.
pub(crate) fn has_bad_nodes(alloc: Global, clause: &Clause) -> Result<bool, AllocError>
    ensures { IfOk result (λ b. b ≡ are_bad_nodes (clause_placed (written_clause clause.now))) }
{
    let walk = Walk::of_clause(alloc, clause)?;
    any_is_bad(walk)
}

/// Whether a node of a goal may not stand where it does.
pub fn goal_has_bad_nodes(alloc: Global, query: &Exp) -> Result<bool, AllocError>
    ensures { IfOk result (λ b. b ≡ are_bad_nodes (placed (goal true) (exp_tree query.now))) }
{
    let walk = Walk::of_goal(alloc, query)?;
    any_is_bad(walk)
}

fn any_is_bad(mut walk: Walk) -> Result<bool, AllocError>
    ensures { IfOk result (λ b. b ≡ list_any is_bad_node (nodes_ahead walk.entry)) }
{
    while let Some(node) = walk.next()? {
        if is_bad(node) {
            return Ok(true);
        }
    }
    Ok(false)
}

fn is_bad(node: Node) -> bool
    ensures { result ≡ is_bad_node (shown_node node.entry) }
{
    let form = Form::of(node.exp);
    is_bad_form(node.place, form)
}

fn is_bad_form(place: Place, form: Form) -> bool
    ensures { result ≡ is_bad_form (shown_place place) (shown_form form.entry) }
{
    is_misplaced(place, form)
        || is_misassigned(place, form)
        || is_stray(place, form)
        || is_no_goal(place, form)
}

/// Whether a goal stands where an expression must, or the reverse, `in` where no iterator does, what is no term inside
/// `$`, or what is no pattern on the left of `in`.
fn is_misplaced(place: Place, form: Form) -> bool
    ensures { result ≡ is_misplaced_form (shown_place place) (shown_form form.entry) }
{
    match place {
        Place::Goal { .. } => form.is_expression(),
        Place::Asked => false,
        Place::Expression => form.is_goal() || form.is_membership(),
        Place::Operand => (form.is_goal() && !form.is_boolean()) || form.is_membership(),
        Place::Iterator => form.is_expression() && !form.is_membership(),
        Place::Term => form.is_no_term(),
        Place::Pattern { quoted } => !form.is_pattern(quoted),
    }
}

/// Whether it is a `:=` that has no variable on its left, or stands where it may not.
fn is_misassigned(place: Place, form: Form) -> bool
    ensures { result ≡ is_misassigned_form (shown_place place) (shown_form form.entry) }
{
    match form {
        Form::Call { name, arity, args } => {
            is_assignment(name, arity)
                && is_evaluated(place)
                && !(allows_assignment(place) && has_variable_first(args))
        }
        _ => false,
    }
}

/// Whether it is a `V@P` where no pattern stands.
fn is_stray(place: Place, form: Form) -> bool
    ensures { result ≡ is_stray_form (shown_place place) (shown_form form.entry) }
{
    match place {
        Place::Pattern { .. } => false,
        _ => match form {
            Form::Binding(_) => true,
            _ => false,
        },
    }
}

/// Whether it is no goal, where `find_all` and its kin ask for one.
fn is_no_goal(place: Place, form: Form) -> bool
    ensures { result ≡ is_no_goal_form (shown_place place) (shown_form form.entry) }
{
    match place {
        Place::Asked => form.is_expression(),
        _ => false,
    }
}

/// Whether a call stands there, and no term.
fn is_evaluated(place: Place) -> bool
    ensures { result ≡ is_evaluated (shown_place place) }
{
    match place {
        Place::Term => false,
        Place::Pattern { .. } => false,
        _ => true,
    }
}

fn allows_assignment(place: Place) -> bool
    ensures { result ≡ allows_assignment (shown_place place) }
{
    match place {
        Place::Goal { assigns } => assigns,
        _ => false,
    }
}
