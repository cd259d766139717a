//! The domains that an answer tells.
ghost use Rattle.std.specs.Prelude.{◌≡◌, ◌++◌, ◌∷◌, [], ℕ, List, IfOk, None};
ghost use Rattle.std.specs.List.{flat_map};
ghost use Rattle.pi_terms.specs.Variables.{occurrences};
ghost use Rattle.pi_terms.specs.Places.{held};
ghost use Rattle.pi_constraints.specs.Value.{IsAcyclic};
ghost use Rattle.pi_constraints.specs.State.{bindings, domain_of as domain_in_state};
ghost use Rattle.pi_core.specs.AnswerVariables.{answer_variables};
ghost use Rattle.pi_constraints.specs.ToldDomains.{told_domains};
ghost use Rattle.pi_unify.specs.Domains.{AreUnbound, HasMet};

use pi_constraints::{Domain, StateStore, VarDomain, VarDomains};
use pi_core::NamedTerm;
use pi_terms::{Numbers, Series, Term, TermHead};
use std::alloc::{AllocError, Global};

/// The variables that were met, each once, in order, and the domains of those that have one.
#[derive(Drop)]
struct Met {
    variables: Numbers,
    domains: VarDomains,
}

/// The domains of the variables in these values, each variable once, by first occurrence.
#[inline(never)]
pub fn domains_in<S: StateStore>(
    alloc: Global,
    store: &S,
    values: &[NamedTerm],
) -> Result<VarDomains, AllocError>
    ensures { IfOk result (λ domains. IsAcyclic (bindings (S.seen store.now).now.state) →
        AreUnbound (S.seen store.now).now.state (flat_map (λ v. occurrences v.value) values.now) →
        domains ≡ told_domains (S.seen store.now).now.state (answer_variables values.now)) }
{
    let mut met = Met {
        variables: Numbers::new(alloc),
        domains: Series::new(alloc),
    };
    for named in values {
        meet_all(alloc, store, &named.value, &mut met)?;
    }
    Ok(met.domains)
}

/// Meets the variables of a term, from the left.
fn meet_all<S: StateStore>(
    alloc: Global,
    store: &S,
    term: &Term,
    met: &mut Met,
) -> Result<(), AllocError>
    ensures { IfOk result (λ _. (ns : List ℕ) → HasMet (S.seen store.now).now.state ns met.old →
        HasMet (S.seen store.now).now.state (ns ++ occurrences term.now) met.new) }
{
    for i in 0..term.cells() {
        if let TermHead::Var(n) = term.head_at(i) {
            meet_one(alloc, store, n, met)?;
        }
    }
    Ok(())
}

/// Meets a variable, perhaps again.
fn meet_one<S: StateStore>(
    alloc: Global,
    store: &S,
    n: u64,
    met: &mut Met,
) -> Result<(), AllocError>
    ensures { IfOk result (λ _. (ns : List ℕ) → HasMet (S.seen store.now).now.state ns met.old →
        HasMet (S.seen store.now).now.state (ns ++ n ∷ []) met.new) }
{
    let before = met.variables.len();
    met.variables.meet(n)?;
    if met.variables.len() == before {
        return Ok(());
    }
    if let Some(domain) = domain_of(alloc, store, n)? {
        met.domains.push(VarDomain { var: n, domain })?;
    }
    Ok(())
}

/// The domain of an unbound variable; None for one that has none, or that wasn't made.
fn domain_of<S: StateStore>(alloc: Global, store: &S, n: u64) -> Result<Option<Domain>, AllocError>
    ensures { IfOk result (λ found. IsAcyclic (bindings (S.seen store.now).now.state) →
        held (bindings (S.seen store.now).now.state) n ≡ None → found ≡ domain_in_state (S.seen store.now).now.state n) }
{
    if n >= store.vars() {
        return Ok(None);
    }
    store.domain(alloc, store.var_ref(n))
}
