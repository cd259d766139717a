//! Expressions taken apart, as far as the forms of clauses need it.
ghost use Rattle.pi_syntax.specs.ExpTree.{exp_tree};
ghost use Rattle.pi_prog_clauses.specs.Formed.{ShowsApart};

use pi_syntax::{Apart, Exp};

pub(crate) fn take_apart(exp: Exp) -> Apart
    ensures { ShowsApart result (exp_tree exp) }
{
    exp.apart()
}
