//! What clauses define.
ghost use Rattle.std.specs.Prelude.{◌≡◌, IfSome, Some, option_map};
ghost use Rattle.pi_syntax.specs.ExpTree.{exp_tree};
ghost use Rattle.pi_syntax.specs.ProgramTree.{written_clause};
ghost use Rattle.pi_syntax.specs.Signature.{signature};
ghost use Rattle.pi_prog_clauses.specs.Called.{named_by};
ghost use Rattle.pi_prog_clauses.specs.Defined.{signature_by};
ghost use Rattle.pi_prog_clauses.specs.Seen.{seen};
ghost use Rattle.pi_prog_clauses.specs.Verdict.{named_of, definition, defined_by};
ghost use Rattle.pi_prog_clauses.specs.Items.{head_of, is_function};

pub(crate) mod calls;
pub(crate) mod definitions;

use crate::names::calls::Called;
use crate::parts::PartReading;
use pi_syntax::{Clause, Exp};

/// What a clause defines; `None` where its head is neither an atom nor a call.
pub(crate) fn definition(clause: &Clause) -> Option<Called<'_>>
    ensures { option_map named_by result ≡ definition (written_clause clause.now) }
{
    match clause {
        Clause::Rule(rule) => named(&rule.head, false),
        Clause::Function(function) => named(&function.head, true),
        Clause::Fact { head } => named(head, false),
    }
}

/// What a part defines.
pub(crate) fn part_definition(part: &PartReading) -> Option<Called<'_>>
    ensures { option_map named_by result ≡ defined_by (seen part.now) }
{
    match part {
        PartReading::Written(written) => definition(&written.clause),
        _ => None,
    }
}

/// What a clause with this head defines.
#[tactic(auto, unfolding(pi_syntax::specs::ExpTree::exp_tree))]
fn named(head: &Exp, is_function: bool) -> Option<Called<'_>>
    ensures { option_map named_by result ≡ named_of is_function (signature (exp_tree head.now)) }
{
    match head {
        Exp::Atom(name) => Some(Called {
            name: name.as_str(),
            arity: 0,
            is_function,
        }),
        Exp::Call(name, args) => Some(Called {
            name: name.as_str(),
            arity: args.len(),
            is_function,
        }),
        _ => None,
    }
}
