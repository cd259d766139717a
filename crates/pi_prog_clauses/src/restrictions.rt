//! What the form of a clause forbids.
ghost use Rattle.std.specs.Prelude.{◌≡◌, ◌&&◌, ◌||◌, Some, IfOk};
ghost use Rattle.pi_syntax.specs.ExpLists.{exps_of};
ghost use Rattle.pi_syntax.specs.ExpTree.{exp_tree};
ghost use Rattle.pi_syntax.specs.ProgramTree.{written_clause, events_between};
ghost use Rattle.pi_prog_clauses.specs.Items as items;
ghost use Rattle.pi_prog_clauses.specs.Reading as reading;
ghost use Rattle.pi_prog_clauses.specs.Formed.{IsFormed};
ghost use Rattle.pi_prog_clauses.specs.Shape.{Shape};
ghost use Rattle.pi_prog_clauses.specs.Verdict as verdict;

pub(crate) mod bad_nodes;
mod head_names;
mod heads;

use crate::clause::FormedClause;
use crate::restrictions::bad_nodes::has_bad_nodes;
use crate::restrictions::heads::{has_bad_events, has_bad_head};
use pi_syntax::{Clause, Exp, RuleClause};
use std::alloc::{AllocError, Global};

/// Whether a clause has a form that is forbidden.
pub fn has_bad_form(alloc: Global, formed: &FormedClause) -> Result<bool, AllocError>
    ensures { IfOk result (λ b. (p : reading.WrittenPart) → IsFormed formed.now p.shape → b ≡ verdict.has_bad_form p) }
{
    if has_bad_arrow(alloc, formed)? {
        return Ok(true);
    }
    if has_bad_head(alloc, head_of(&formed.clause))? {
        return Ok(true);
    }
    has_bad_nodes(alloc, &formed.clause)
}

/// Whether the arrow or the events don't fit the kind of the clause.
fn has_bad_arrow(alloc: Global, formed: &FormedClause) -> Result<bool, AllocError>
    ensures { IfOk result (λ b. (s : Shape) → IsFormed formed.now s →
        b ≡ (items.is_function_with_choice_or_events s || (items.is_open_action_rule s || items.has_bad_events s))) }
{
    match &formed.clause {
        Clause::Function(_) => Ok(formed.is_open | formed.has_events),
        Clause::Fact { .. } => Ok(false),
        Clause::Rule(rule) => has_bad_action(alloc, rule, formed.is_open, formed.has_events),
    }
}

/// Whether a rule that may have events has the arrow `?=>` beside them, or events that are none.
fn has_bad_action(
    alloc: Global,
    rule: &RuleClause,
    is_open: bool,
    has_events: bool,
) -> Result<bool, AllocError>
    ensures { IfOk result (λ b. b ≡ (has_events &&
        (is_open || items.are_bad_events (exp_tree rule.now.head) (Some (exps_of (events_between rule.now.between)))))) }
{
    if !has_events {
        return Ok(false);
    }
    if is_open {
        return Ok(true);
    }
    has_bad_events(alloc, &rule.head, rule.events())
}

fn head_of(clause: &Clause) -> &Exp
    ensures { exp_tree result.now ≡ items.head_of (written_clause clause.now) }
{
    match clause {
        Clause::Rule(rule) => &rule.head,
        Clause::Function(function) => &function.head,
        Clause::Fact { head } => head,
    }
}
