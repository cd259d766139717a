//! Which parts of a program are built.
ghost use Rattle.std.specs.Prelude.{◌≡◌, option_map, option_copied};
ghost use Rattle.pi_syntax.specs.ExpTree.{exp_tree};
ghost use Rattle.pi_syntax.specs.ProgramTree.{part_tree, source_tree, written_clause, rule_tree, function_tree};
ghost use Rattle.pi_rewrite_sound.specs.Built as spec;

use crate::goals::{is_built_goal, is_built_value};
use crate::patterns::is_built_head;
use pi_syntax::{Clause, Decl, Exp, FunctionClause, Part, Program, RuleClause};

/// The number of a program's first part that isn't built, counted from 1; `None` exactly where all are.
pub fn unbuilt(program: &Program) -> Option<usize>
    ensures { result ≡ spec.unbuilt_part (source_tree program.now) }
{
    let parts = program.parts.as_slice();
    for (i, part) in parts.iter().enumerate() {
        if !is_built_part(part) {
            return Some(i + 1);
        }
    }
    None
}

fn is_built_part(part: &Part) -> bool
    ensures { result ≡ spec.is_built_part (part_tree part.now) }
{
    match &part.decl {
        Decl::Plain => has_built_clause(&part.clause),
        Decl::Import(_) => part.clause.is_none(),
        Decl::Index(_) => has_built_clause(&part.clause),
    }
}

fn has_built_clause(clause: &Option<Clause>) -> bool
    ensures { result ≡ spec.has_built_clause (option_map written_clause clause.now) }
{
    match clause {
        Some(clause) => is_built_clause(clause),
        None => false,
    }
}

fn is_built_clause(clause: &Clause) -> bool
    ensures { result ≡ spec.is_built_clause (written_clause clause.now) }
{
    match clause {
        Clause::Rule(rule) => is_built_rule(rule),
        Clause::Function(function) => is_built_function_rule(function),
        Clause::Fact { head } => is_built_head(head),
    }
}

fn is_built_rule(rule: &RuleClause) -> bool
    ensures { result ≡ spec.is_built_rule (rule_tree rule.now) }
{
    rule.events().is_empty()
        & (is_built_head(&rule.head)
            & (is_built_goal_or_none(rule.cond()) & is_built_goal(&rule.body)))
}

fn is_built_function_rule(function: &FunctionClause) -> bool
    ensures { result ≡ spec.is_built_function_rule (function_tree function.now) }
{
    is_built_head(&function.head)
        & (is_built_goal_or_none(function.cond())
            & (is_built_goal_or_none(function.body()) & is_built_value(&function.value)))
}

fn is_built_goal_or_none(goal: Option<&Exp>) -> bool
    ensures { result ≡ spec.is_built_goal_or_none (option_map exp_tree (option_copied goal.entry)) }
{
    match goal {
        Some(goal) => is_built_goal(goal),
        None => true,
    }
}
