//! What heads and events may be. A User's Guide to Picat, 'Predicates and Functions' and 'Action Rules'.
ghost use Rattle.std.specs.Prelude.{◌≡◌, ◌||◌, not, Some, IfOk, codes};
ghost use Rattle.std.specs.Str.{bytes_eq};
ghost use Rattle.std.specs.List.{list_any};
ghost use Rattle.pi_syntax.specs.ExpTree.{exp_tree};
ghost use Rattle.pi_syntax.specs.ExpLists.{exps_of};
ghost use Rattle.pi_prog_clauses.specs.Form.{form_of, shown_form, breaks_pattern_form, is_event_form, is_event_call, is_event_of_one_form, is_event_of_two_form};
ghost use Rattle.pi_prog_clauses.specs.Items.{is_head, breaks_pattern, are_bad_events};
ghost use Rattle.pi_prog_clauses.specs.HeadNames.{has};
ghost use Rattle.pi_prog_clauses.specs.Places.{head_placed};
ghost use Rattle.pi_prog_clauses.specs.Walk.{shown_place, shown_node};

use crate::nodes::form::Form;
use crate::nodes::operators::is_among;
use crate::nodes::place::Place;
use crate::nodes::walk::{Node, Walk};
use crate::restrictions::head_names::HeadNames;
use pi_syntax::Exp;
use std::alloc::{AllocError, Global};

/// The events of a variable alone.
const EVENTS_OF_ONE: [&str; 2] = ["ins", "bound"];

/// The events of a variable with what they tell.
const EVENTS_OF_TWO: [&str; 3] = ["dom", "dom_any", "event"];

/// Whether a head is neither an atom nor a call of no sign, or has an argument that is no pattern.
pub(crate) fn has_bad_head(alloc: Global, head: &Exp) -> Result<bool, AllocError>
    ensures { IfOk result (λ b. b ≡ (not (is_head (exp_tree head.now)) || list_any breaks_pattern (head_placed (exp_tree head.now)))) }
{
    if !is_head(head) {
        return Ok(true);
    }
    let mut walk = Walk::of_head(alloc, head)?;
    while let Some(node) = walk.next()? {
        if breaks_pattern(node) {
            return Ok(true);
        }
    }
    Ok(false)
}

fn is_head(exp: &Exp) -> bool
    ensures { result ≡ is_head (exp_tree exp.now) }
{
    Form::of(exp).is_head()
}

/// Whether what is no pattern stands as one.
fn breaks_pattern(node: Node) -> bool
    ensures { result ≡ breaks_pattern (shown_node node.entry) }
{
    let form = Form::of(node.exp);
    breaks_pattern_form(node.place, form)
}

fn breaks_pattern_form(place: Place, form: Form) -> bool
    ensures { result ≡ breaks_pattern_form (shown_place place) (shown_form form.entry) }
{
    match place {
        Place::Pattern { quoted } => !form.is_pattern(quoted),
        _ => false,
    }
}

/// Whether braces hold no event, or something that is none of the head's variables.
pub(crate) fn has_bad_events(alloc: Global, head: &Exp, events: &[Exp]) -> Result<bool, AllocError>
    ensures { IfOk result (λ b. b ≡ are_bad_events (exp_tree head.now) (Some (exps_of events.now))) }
{
    if events.is_empty() {
        return Ok(true);
    }
    let names = HeadNames::of(alloc, head)?;
    for event in events {
        if !is_event(&names, event) {
            return Ok(true);
        }
    }
    Ok(false)
}

fn is_event(names: &HeadNames, event: &Exp) -> bool
    ensures { result ≡ is_event_form (has names.now) (form_of (exp_tree event.now)) }
{
    let form = Form::of(event);
    is_event_form(names, form)
}

fn is_event_form(names: &HeadNames, form: Form) -> bool
    ensures { result ≡ is_event_form (has names.now) (shown_form form.entry) }
{
    match form {
        Form::Call { name, args, .. } => is_event_call(names, name, args),
        _ => false,
    }
}

fn is_event_call(names: &HeadNames, name: &str, args: &[Exp]) -> bool
    ensures { result ≡ is_event_call (has names.now) name.now (exps_of args.now) }
{
    if args.len() == 1 {
        let of = Form::of(&args[0]);
        return is_event_of_one(names, name, of);
    }
    if args.len() == 2 {
        let of = Form::of(&args[0]);
        let message = Form::of(&args[1]);
        return is_event_of_two(names, name, of, message);
    }
    false
}

/// Whether it is `ins(X)` or `bound(X)`, and X occurs in the head.
fn is_event_of_one(names: &HeadNames, name: &str, of: Form) -> bool
    ensures { result ≡ is_event_of_one_form (has names.now) name.now (shown_form of.entry) }
{
    match of {
        Form::Variable(variable) => is_name_of_one(name) && names.has(variable),
        _ => false,
    }
}

/// Whether it is `dom(X,T)`, `dom_any(X,T)` or `event(X,T)`, X occurs in the head, and T doesn't.
fn is_event_of_two(names: &HeadNames, name: &str, of: Form, message: Form) -> bool
    ensures { result ≡ is_event_of_two_form (has names.now) name.now (shown_form of.entry) (shown_form message.entry) }
{
    match of {
        Form::Variable(variable) => match message {
            Form::Variable(other) => {
                is_name_of_two(name) && names.has(variable) && !names.has(other)
            }
            _ => false,
        },
        _ => false,
    }
}

fn is_name_of_one(name: &str) -> bool
    ensures { result ≡ (bytes_eq name.now (codes "ins") || bytes_eq name.now (codes "bound")) }
{
    is_among(&EVENTS_OF_ONE, name)
}

fn is_name_of_two(name: &str) -> bool
    ensures { result ≡ (bytes_eq name.now (codes "dom") || (bytes_eq name.now (codes "dom_any") || bytes_eq name.now (codes "event"))) }
{
    is_among(&EVENTS_OF_TWO, name)
}
