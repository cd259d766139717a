//! What may stand in a head, or as the pattern of an iterator.
ghost use Rattle.std.specs.Prelude.{◌≡◌};
ghost use Rattle.pi_syntax.specs.ExpTree.{exp_tree};
ghost use Rattle.pi_syntax.specs.ExpLists.{exps_of};
ghost use Rattle.pi_meaning.specs.OverNames.WrittenRules.{head_arguments};
ghost use Rattle.pi_rewrite_sound.specs.Built as spec;

use pi_syntax::Exp;

/// Whether the arguments of a head are built.
#[tactic(auto, unfolding(pi_syntax::specs::ExpTree::exp_tree, crate::specs::Built::are_built_patterns))]
pub(crate) fn is_built_head(head: &Exp) -> bool
    ensures { result ≡ spec.are_built_patterns (head_arguments (exp_tree head.now)) }
{
    match head {
        Exp::Call(_, args) => are_built_patterns(args.as_slice()),
        Exp::Var(_) => true,
        Exp::Int(_) => true,
        Exp::Atom(_) => true,
        Exp::Str(_) => true,
        Exp::List(_, _) => true,
        Exp::Array(_) => true,
        Exp::Quote(_) => true,
        Exp::Index(_, _) => true,
        Exp::Range(_, _, _) => true,
        Exp::At(_, _) => true,
        Exp::Collect(_, _, _) => true,
        Exp::And(_) => true,
        Exp::Or(_) => true,
        Exp::Arrow(_, _) => true,
        Exp::If(_, _) => true,
        Exp::Foreach(_, _) => true,
        Exp::While(_, _) => true,
        Exp::DoWhile(_, _) => true,
    }
}

/// Whether an argument of a head, or the pattern of an iterator, is built.
#[cycle(pattern)]
#[tactic(auto, unfolding(pi_syntax::specs::ExpTree::exp_tree, crate::specs::Built::is_built_pattern))]
pub(crate) fn is_built_pattern(exp: &Exp) -> bool
    ensures { result ≡ spec.is_built_pattern (exp_tree exp.now) }
{
    match exp {
        Exp::Var(name) => is_named(name.as_str()),
        Exp::Int(_) => true,
        Exp::Atom(_) => true,
        Exp::Str(_) => true,
        Exp::List(items, tail) => match tail {
            Some(tail) => are_built_patterns(items.as_slice()) & is_built_pattern(tail),
            None => are_built_patterns(items.as_slice()),
        },
        Exp::Array(items) => are_built_patterns(items.as_slice()),
        Exp::Call(_, args) => are_built_patterns(args.as_slice()),
        Exp::Quote(inner) => is_built_pattern(inner),
        Exp::Range(first, step, last) => match step {
            Some(step) => {
                is_built_pattern(first) & (is_built_pattern(step) & is_built_pattern(last))
            }
            None => is_built_pattern(first) & is_built_pattern(last),
        },
        Exp::At(name, inner) => is_named(name.as_str()) & is_built_pattern(inner),
        Exp::Index(_, _) => false,
        Exp::Collect(_, _, _) => false,
        Exp::And(_) => false,
        Exp::Or(_) => false,
        Exp::Arrow(_, _) => false,
        Exp::If(_, _) => false,
        Exp::Foreach(_, _) => false,
        Exp::While(_, _) => false,
        Exp::DoWhile(_, _) => false,
    }
}

/// Whether all of the arguments are built.
#[cycle(pattern)]
fn are_built_patterns(exps: &[Exp]) -> bool
    ensures { result ≡ spec.are_built_patterns (exps_of exps.now) }
{
    for exp in exps {
        if !is_built_pattern(exp) {
            return false;
        }
    }
    true
}

/// Whether a name isn't empty.
fn is_named(name: &str) -> bool
    ensures { result ≡ spec.is_named name.now }
{
    !name.is_empty()
}
