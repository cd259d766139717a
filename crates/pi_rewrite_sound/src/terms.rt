//! What may stand behind `$`.
ghost use Rattle.std.specs.Prelude.{◌≡◌};
ghost use Rattle.pi_syntax.specs.ExpTree.{exp_tree};
ghost use Rattle.pi_syntax.specs.ExpLists.{exps_of};
ghost use Rattle.pi_rewrite_sound.specs.Built as spec;

use pi_syntax::Exp;

/// Whether an expression may stand behind `$`.
#[cycle(term)]
#[tactic(auto, unfolding(pi_syntax::specs::ExpTree::exp_tree, crate::specs::Built::is_built_term))]
pub(crate) fn is_built_term(exp: &Exp) -> bool
    ensures { result ≡ spec.is_built_term (exp_tree exp.now) }
{
    match exp {
        Exp::Var(_) => true,
        Exp::Int(_) => true,
        Exp::Atom(_) => true,
        Exp::Str(_) => true,
        Exp::List(items, tail) => match tail {
            Some(tail) => are_built_terms(items.as_slice()) & is_built_term(tail),
            None => are_built_terms(items.as_slice()),
        },
        Exp::Array(items) => are_built_terms(items.as_slice()),
        Exp::Call(_, args) => are_built_terms(args.as_slice()),
        Exp::Quote(inner) => is_built_term(inner),
        Exp::Range(first, step, last) => match step {
            Some(step) => is_built_term(first) & (is_built_term(step) & is_built_term(last)),
            None => is_built_term(first) & is_built_term(last),
        },
        _ => false,
    }
}

/// Whether all of the expressions may stand behind `$`.
#[cycle(term)]
pub(crate) fn are_built_terms(exps: &[Exp]) -> bool
    ensures { result ≡ spec.are_built_terms (exps_of exps.now) }
{
    for exp in exps {
        if !is_built_term(exp) {
            return false;
        }
    }
    true
}
