//! The numbers by which the variables of terms are written: from 1 on, by first occurrence.
ghost use Rattle.std.specs.Prelude.{◌≡◌, IfOk};
ghost use Rattle.pi_terms.specs.Tree.{cells_all};
ghost use Rattle.pi_terms.specs.Variables.{occurrences};
ghost use Rattle.pi_print_terms.specs.Numbers.{noted_all, variables_at};

use crate::nodes::Nodes;
use pi_terms::{Numbers, Term, TermHead};
use std::alloc::AllocError;

/// Meets the variables of a term, from the left.
pub fn meet_term(numbers: &mut Numbers, term: &Term) -> Result<(), AllocError>
    ensures ok { IfOk result (λ _. numbers.new ≡ noted_all numbers.old (occurrences term.now)) }
{
    let mut ahead = Nodes::new(term);
    while let Some(head) = ahead.next() {
        meet_root(numbers, head)?;
    }
    Ok(())
}

#[tactic(auto, unfolding(crate::specs::Numbers::noted_all))]
fn meet_root(numbers: &mut Numbers, head: TermHead<'_>) -> Result<(), AllocError>
    ensures ok { IfOk result (λ _. numbers.new ≡ noted_all numbers.old (variables_at head.entry)) }
{
    if let TermHead::Var(n) = head {
        numbers.meet(n)?;
    }
    Ok(())
}
