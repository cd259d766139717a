//! Facts that are tried one after the other: the next one that unifies with a call.
ghost use Rattle.std.specs.Prelude.{◌≡◌, ◌+◌, ◌≤◌, [], Some, map, is_some, length, slice_get, IfOk};
ghost use Rattle.pi_terms.specs.Tree.{Trees, comp};
ghost use Rattle.pi_constraints.specs.State.{IsState};
ghost use Rattle.pi_constraints.specs.Store.{IsTerm, Stays};
ghost use Rattle.pi_core.specs.CoreTree.{clause_tree};
ghost use Rattle.pi_core.specs.declared.core_program.CoreClause.{CoreClause as Clause};
ghost use Rattle.pi_meaning.specs.Machine.Step.{with_fact};
ghost use Rattle.pi_engine_facts.specs.Trying.{IsNext, numbered};
ghost use Rattle.pi_engine_facts.specs.Keyed.{HaveKeys};

use crate::heads::unify_fact;
use crate::keyed::{Facts, next_alike};
use crate::roots::differs;
use pi_constraints::{Ref, StateStore};
use pi_core::CoreClause;
use std::alloc::{AllocError, Global};

/// Whether a fact unifies with a call, whose arguments are those of a compound without a name. The state stays.
pub fn unifies<S: StateStore>(
    alloc: Global,
    s: &mut S,
    fact: &CoreClause,
    call: Ref,
) -> Result<bool, AllocError>
    ensures stays { IfOk result (λ _. (ts : Trees) → IsState (S.seen s.old).now.state → IsTerm (S.seen s.old) call (comp [] ts) →
        Stays (S.seen s.old) (S.seen s.new)) }
    ensures tells { IfOk result (λ one. (ts : Trees) → IsState (S.seen s.old).now.state → IsTerm (S.seen s.old) call (comp [] ts) →
        one ≡ is_some (with_fact ts (S.seen s.old).now.state (clause_tree fact.now))) }
{
    let head = fact.head.as_slice();
    if differs(s, head, call) {
        return Ok(false);
    }
    let mark = s.mark()?;
    let one = unify_fact(alloc, s, head, fact.slots, call)?;
    s.undo(&mark);
    Ok(one)
}

/// The first fact from a number on that unifies with a call. The state stays. Facts that can't unify with it by what they show
/// in places aren't looked at.
pub fn next_unifying<S: StateStore>(
    alloc: Global,
    s: &mut S,
    facts: &Facts<'_>,
    from: u32,
    call: Ref,
) -> Result<Option<u32>, AllocError>
    ensures stays { IfOk result (λ _. (ts : Trees) → IsState (S.seen s.old).now.state → IsTerm (S.seen s.old) call (comp [] ts) →
        Stays (S.seen s.old) (S.seen s.new)) }
    ensures found { IfOk result (λ found. (ts : Trees) → IsState (S.seen s.old).now.state →
        IsTerm (S.seen s.old) call (comp [] ts) → HaveKeys
        (S.seen s.old).names facts.now.keys.now facts.now.predicate facts.now.clauses.now facts.now.first →
        facts.now.first ≤ from → facts.now.end ≡ facts.now.first + length facts.now.clauses.now →
        IsNext ts (S.seen s.old).now.state (numbered (map clause_tree facts.now.clauses.now) facts.now.first facts.now.end) from found) }
{
    let end = facts.end;
    let mut number = next_alike(s, facts, from, call);
    while number < end {
        if unifies_at(
            alloc,
            s,
            facts.clauses,
            number.saturating_sub(facts.first),
            call,
        )? {
            return Ok(Some(number));
        }
        number = next_alike(s, facts, number + 1, call);
    }
    Ok(None)
}

/// Whether the fact in a place unifies with a call, where there is one. The state stays.
fn unifies_at<S: StateStore>(
    alloc: Global,
    s: &mut S,
    facts: &[CoreClause],
    place: u32,
    call: Ref,
) -> Result<bool, AllocError>
    ensures stays { IfOk result (λ _. (ts : Trees) → IsState (S.seen s.old).now.state → IsTerm (S.seen s.old) call (comp [] ts) →
        Stays (S.seen s.old) (S.seen s.new)) }
    ensures tells { IfOk result (λ one. (ts : Trees) (d : Clause) → IsState (S.seen s.old).now.state →
        IsTerm (S.seen s.old) call (comp [] ts) → slice_get facts.now place ≡ Some d →
        one ≡ is_some (with_fact ts (S.seen s.old).now.state (clause_tree d))) }
{
    let Some(fact) = facts.get(place as usize) else {
        return Ok(false);
    };
    let one = unifies(alloc, s, fact, call)?;
    Ok(one)
}
