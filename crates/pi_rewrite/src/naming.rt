//! What the helpers of loops are called: names longer than all that are there.
ghost use Rattle.std.specs.Prelude.{◌≡◌, ◌++◌, suc, max, map, option_map, IfOk};
ghost use Rattle.pi_syntax.specs.ExpTree.{exp_tree};
ghost use Rattle.pi_syntax.specs.ProgramTree.{part_tree, written_clause};
ghost use Rattle.pi_core.specs.CoreTree.{pred_tree};
ghost use Rattle.pi_rewrite.specs.Built as spec;

use pi_core::CorePred;
use pi_rewrite_sites::Naming;
use pi_syntax::{Clause, Exp, Part};
use pi_terms::Text;
use std::alloc::{AllocError, Global};

/// Names for the helpers of a program, the prelude in front of it. Errors: no memory.
pub(crate) fn program_naming(
    alloc: Global,
    prelude: &[Part],
    program: &[Part],
) -> Result<Naming, AllocError>
    ensures { IfOk result (λ made. made.prefix ≡ spec.tildes
        (suc (spec.longest_head 0 (map part_tree prelude.now ++ map part_tree program.now)))) }
{
    let most = longest_head(0, prelude);
    let most = longest_head(most, program);
    longer_than(alloc, most)
}

/// Names for the helpers of a goal that is asked of these predicates. Errors: no memory.
pub(crate) fn query_naming(alloc: Global, preds: &[CorePred]) -> Result<Naming, AllocError>
    ensures { IfOk result (λ made. made.prefix ≡ spec.query_prefix (map pred_tree preds.now)) }
{
    let mut most: usize = 0;
    for pred in preds {
        most = most.max(pred.name.as_str().len());
    }
    longer_than(alloc, most)
}

/// Names that begin with one `~` more than so many. Errors: no memory.
fn longer_than(alloc: Global, count: usize) -> Result<Naming, AllocError>
    ensures { IfOk result (λ made. made.prefix ≡ spec.tildes (suc count)) }
{
    let mut prefix = String::from_str(alloc, "~")?;
    for _i in 0..count {
        prefix.push_str("~")?;
    }
    let made = Text::from_string(alloc, prefix)?;
    Ok(Naming { prefix: made })
}

/// The most bytes that a head's name has in these parts, or so many where none has more.
fn longest_head(least: usize, parts: &[Part]) -> usize
    ensures { result ≡ spec.longest_head least (map part_tree parts.now) }
{
    let mut most = least;
    for part in parts {
        most = most.max(head_length(&part.clause));
    }
    most
}

/// How many bytes the name of a clause's head has.
fn head_length(clause: &Option<Clause>) -> usize
    ensures { result ≡ spec.head_length (option_map written_clause clause.now) }
{
    match clause {
        Some(Clause::Rule(rule)) => name_length(&rule.head),
        Some(Clause::Function(function)) => name_length(&function.head),
        Some(Clause::Fact { head }) => name_length(head),
        None => 0,
    }
}

/// How many bytes the name of a head has.
#[tactic(auto, unfolding(pi_syntax::specs::ExpTree::exp_tree))]
fn name_length(head: &Exp) -> usize
    ensures { result ≡ spec.name_length (exp_tree head.now) }
{
    match head {
        Exp::Atom(name) => name.as_str().len(),
        Exp::Call(name, _) => name.as_str().len(),
        _ => 0,
    }
}
