//! Clauses of helpers, and helpers.
ghost use Rattle.std.specs.Prelude.{◌≡◌, ◌∷◌, [], suc, map, IfOk};
ghost use Rattle.pi_core.specs.CoreTree.{clause_tree, pred_tree, pattern_tree, pattern_trees};
ghost use Rattle.pi_terms.specs.PatternTree.{pattern};
ghost use Rattle.pi_rewrite_loops.specs.Heads.{onto};
ghost use Rattle.pi_rewrite_loops.specs.Helpers.{loop_of};
ghost use Rattle.pi_rewrite_spec.specs.Loops.{slots_head as head_of, clause_of, helper as helper_of};
ghost use Rattle.pi_rewrite_spec.specs.Iterators.{handed as handed_of};

use crate::loops::{Loop, wide};
use crate::terms::later;
use pi_core::{CoreClause, CoreClauses, CoreGoal, CorePred, Pattern, Patterns, SlotWatches};
use pi_syntax::Decl;
use pi_terms::Text;
use std::alloc::{AllocError, Global};

/// A head of so many slots, from the first on.
pub(crate) fn slots_head(alloc: Global, count: u32) -> Result<Patterns, AllocError>
    ensures { IfOk result (λ made. pattern_trees made.items ≡ head_of 0 count) }
{
    let patterns = Vec::new(alloc);
    with_slots(patterns, 0, count)
}

/// A head of a pattern, and of so many slots from one on behind it.
pub(crate) fn head_with(
    alloc: Global,
    form: Pattern,
    first: u32,
    count: u32,
) -> Result<Patterns, AllocError>
    ensures { IfOk result (λ made. pattern_trees made.items ≡ pattern (pattern_tree form) (head_of first count)) }
{
    let mut patterns = Vec::new(alloc);
    patterns.push(form)?;
    with_slots(patterns, first, count)
}

/// Patterns with so many slots behind them, from one on.
fn with_slots(patterns: Patterns, first: u32, count: u32) -> Result<Patterns, AllocError>
    ensures { IfOk result (λ made. pattern_trees made.items ≡ onto patterns.items (head_of first count)) }
{
    let mut patterns = patterns;
    let mut slot = first;
    for _ in 0..count {
        patterns.push(Pattern::Slot(slot))?;
        slot = later(slot, 1)?;
    }
    Ok(patterns)
}

/// A clause of a helper.
pub(crate) fn clause(
    alloc: Global,
    head: Patterns,
    body: CoreGoal,
    slots: u32,
) -> Result<CoreClause, AllocError>
    ensures { IfOk result (λ made. clause_tree made ≡ clause_of (pattern_trees head.items) body slots) }
{
    let guard = CoreGoal::truth(alloc)?;
    Ok(CoreClause {
        head,
        guard,
        back: false,
        watches: SlotWatches::new(alloc),
        body,
        value: None,
        slots,
    })
}

/// A helper of these clauses.
pub(crate) fn helper(
    alloc: Global,
    name: &str,
    arity: u32,
    clauses: Vec<CoreClause>,
) -> Result<CorePred, AllocError>
    ensures { IfOk result (λ made. pred_tree made ≡ helper_of name.now arity (map clause_tree clauses.items)) }
{
    let name = Text::new(alloc, name)?;
    Ok(CorePred {
        name,
        arity,
        function: false,
        quiet: true,
        decl: Decl::Plain,
        clauses: CoreClauses::from_vec(clauses),
    })
}

/// A helper of one clause, whose head is its slots.
pub(crate) fn simple_helper(
    alloc: Global,
    name: &str,
    arity: u32,
    body: CoreGoal,
    slots: u32,
) -> Result<CorePred, AllocError>
    ensures { IfOk result (λ made. pred_tree made ≡ helper_of name.now arity (clause_of (head_of 0 arity) body slots ∷ [])) }
{
    let head = slots_head(alloc, arity)?;
    let mut clauses = Vec::new(alloc);
    clauses.push(clause(alloc, head, body, slots)?)?;
    helper(alloc, name, arity, clauses)
}

/// A helper of two clauses, of one slot more than an iterator's first helper: of elements that match, and of those that don't.
pub(crate) fn matching_helper(
    alloc: Global,
    name: &str,
    l: &Loop<'_>,
    matched: CoreClause,
    passed: CoreClause,
) -> Result<CorePred, AllocError>
    ensures { IfOk result (λ made. pred_tree made ≡
        helper_of name.now (suc (handed_of (loop_of l.now))) (clause_tree matched ∷ clause_tree passed ∷ [])) }
{
    let arity = wide(l)?;
    let mut clauses = Vec::new(alloc);
    clauses.push(matched)?;
    clauses.push(passed)?;
    helper(alloc, name, arity, clauses)
}
