//! Parts of a program.
ghost use Rattle.std.specs.Prelude.{◌≡◌, ◌++◌, map, IfOk, option_map, option_copied};
ghost use Rattle.std.specs.String.{string_bytes};
ghost use Rattle.pi_syntax.specs.ExpTree.{exp_tree};
ghost use Rattle.pi_syntax.specs.ProgramTree.{written_clause, rule_tree, function_tree, part_tree};
ghost use Rattle.pi_syntax.specs.ProgramTree as tree;
ghost use Rattle.pi_print_program.specs.Canonical as spec;

use crate::declarations::write_declaration;
use crate::expressions::{write_exp, write_exps, write_top};
use crate::signs::is_declaration_word;
use pi_syntax::{Clause, Exp, FunctionClause, Part, RuleClause};
use std::alloc::{AllocError, Global};

/// Writes the lines of a part.
#[tactic(auto, unfolding(crate::specs::Canonical::part_text))]
pub(crate) fn write_part(alloc: Global, part: &Part, out: &mut String) -> Result<(), AllocError>
    ensures { IfOk result (λ _. string_bytes out.new ≡ string_bytes out.old ++ spec.part_text (part_tree part.now)) }
{
    write_declaration(alloc, &part.decl, out)?;
    match &part.clause {
        Some(clause) => {
            write_clause(alloc, clause, out)?;
            out.push_str(".\n")?;
            Ok(())
        }
        None => Ok(()),
    }
}

/// Writes a clause, without its end point.
fn write_clause(alloc: Global, clause: &Clause, out: &mut String) -> Result<(), AllocError>
    ensures { IfOk result (λ _. string_bytes out.new ≡ string_bytes out.old ++ spec.clause_text (written_clause clause.now)) }
{
    match clause {
        Clause::Rule(rule) => write_rule(alloc, rule, out),
        Clause::Function(function) => write_function(alloc, function, out),
        Clause::Fact { head } => write_head(alloc, head, out),
    }
}

fn write_rule(alloc: Global, rule: &RuleClause, out: &mut String) -> Result<(), AllocError>
    ensures { IfOk result (λ _. string_bytes out.new ≡ string_bytes out.old ++ spec.clause_text (tree.rule (rule_tree rule.now))) }
{
    write_head(alloc, &rule.head, out)?;
    write_condition(alloc, rule.cond(), out)?;
    write_events(alloc, rule.events(), out)?;
    out.push_str(arrow(rule.back))?;
    write_top(alloc, &rule.body, out)
}

fn write_function(
    alloc: Global,
    function: &FunctionClause,
    out: &mut String,
) -> Result<(), AllocError>
    ensures { IfOk result (λ _. string_bytes out.new ≡
        string_bytes out.old ++ spec.clause_text (tree.function (function_tree function.now))) }
{
    write_head(alloc, &function.head, out)?;
    out.push_str(" = ")?;
    write_exp(alloc, &function.value, out)?;
    write_condition(alloc, function.cond(), out)?;
    write_body(alloc, function.body(), out)
}

/// Writes a head, which stands in parentheses where its name would begin a declaration.
fn write_head(alloc: Global, head: &Exp, out: &mut String) -> Result<(), AllocError>
    ensures { IfOk result (λ _. string_bytes out.new ≡ string_bytes out.old ++ spec.head_text (exp_tree head.now)) }
{
    if begins_declaration(head) {
        out.push_str("(")?;
        write_exp(alloc, head, out)?;
        out.push_str(")")?;
        return Ok(());
    }
    write_exp(alloc, head, out)
}

#[tactic(auto, unfolding(pi_syntax::specs::ExpTree::exp_tree, crate::specs::Canonical::begins_declaration))]
fn begins_declaration(head: &Exp) -> bool
    ensures { result ≡ spec.begins_declaration (exp_tree head.now) }
{
    match head {
        Exp::Atom(name) => is_declaration_word(name.as_str()),
        Exp::Call(name, _) => is_declaration_word(name.as_str()),
        _ => false,
    }
}

fn write_condition(alloc: Global, cond: Option<&Exp>, out: &mut String) -> Result<(), AllocError>
    ensures { IfOk result (λ _. string_bytes out.new ≡
        string_bytes out.old ++ spec.condition_text (option_map exp_tree (option_copied cond.entry))) }
{
    match cond {
        Some(cond) => {
            out.push_str(", ")?;
            write_top(alloc, cond, out)
        }
        None => Ok(()),
    }
}

fn write_events(alloc: Global, events: &[Exp], out: &mut String) -> Result<(), AllocError>
    ensures { IfOk result (λ _. string_bytes out.new ≡ string_bytes out.old ++ spec.events_text (map exp_tree events.now)) }
{
    if events.is_empty() {
        return Ok(());
    }
    out.push_str(", {")?;
    write_exps(alloc, ", ", events, out)?;
    out.push_str("}")?;
    Ok(())
}

/// Writes the body of a function's rule, where there is one.
fn write_body(alloc: Global, body: Option<&Exp>, out: &mut String) -> Result<(), AllocError>
    ensures { IfOk result (λ _. string_bytes out.new ≡
        string_bytes out.old ++ spec.body_text (option_map exp_tree (option_copied body.entry))) }
{
    match body {
        Some(body) => {
            out.push_str(" => ")?;
            write_top(alloc, body, out)
        }
        None => Ok(()),
    }
}

/// The arrow of a rule, with its blanks.
fn arrow(back: bool) -> &'static str
    ensures { result.now ≡ spec.arrow_text back }
{
    if back { " ?=> " } else { " => " }
}
