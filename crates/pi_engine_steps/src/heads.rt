//! Heads of rules against the arguments of a call.
ghost use Rattle.std.specs.Prelude.{◌≡◌, ◌≢◌, ℕ, ◌+◌, ◌≤◌, None, IfOk, length, replicate};
ghost use Rattle.pi_terms.specs.Tree.{Tree, Trees};
ghost use Rattle.pi_terms.specs.Places.{Places};
ghost use Rattle.pi_terms.specs.PatternTree.{PatternTree, PatternTrees};
ghost use Rattle.pi_core.specs.CoreTree.{pattern_trees};
ghost use Rattle.pi_constraints.specs.HeadMatch.{matched_in, matched_all_in, filled_in};
ghost use Rattle.pi_meaning.specs.CoreMeaning.Sound.{pattern_count};
ghost use Rattle.pi_constraints.specs.State.{IsState, bindings};
ghost use Rattle.pi_constraints.specs.Store.{IsTerm};
ghost use Rattle.pi_unify.specs.Matching.{is_int_in};
ghost use Rattle.pi_engine_code.specs.declared.code.HeadTest.TheVariants.{Deep};
ghost use Rattle.pi_engine_stands.specs.Here.{Block, HoldsArguments};
ghost use Rattle.pi_engine_arenas.specs.Frames.{slot_number};
ghost use Rattle.pi_engine_stands.specs.Stands.{AreTestsOf, NoneIsDeep};
ghost use Rattle.pi_engine_code.specs.LaidRules.{IsTestOf};
ghost use Rattle.pi_engine_stands.specs.Tries.{RuleSlots, FillsHead, FillsSlots, MatchesHead, is_atom_cell};
ghost use Rattle.pi_engine_stands.specs.Changes.{ChangesBy};

use crate::rules::first_slot;
use crate::values::slot_at;
use pi_constraints::{Cell, Ref, StateStore};
use pi_core::Pattern;
use pi_engine_arenas::{Blocks, Call, Run};
use pi_engine_code::{Code, HeadTest, Rule};
use pi_unify::{Slots, compare, match_head};
use std::alloc::{AllocError, Global};

/// Whether a rule's head matches the call's arguments; its slots are filled then, behind the arguments.
pub fn matches<S: StateStore>(
    code: &Code<'_>,
    run: &mut Run<S>,
    call: &Call,
    rule: &Rule,
    number: u32,
    arity: u32,
) -> Result<bool, AllocError>
    ensures { IfOk result (λ found. ChangesBy S.seen S.order code.now run.old run.new (MatchesHead call.now number arity rule.now found)) }
{
    let first = first_slot(&run.arenas.blocks, call, arity);
    run.arenas.blocks.truncate(first);
    if rule.is_deep {
        let patterns = code.head(call.predicate, number);
        matches_patterns(
            run.alloc,
            &run.store,
            &mut run.arenas.blocks,
            &mut run.slots,
            patterns,
            call.base,
            rule.slots,
        )
    } else {
        run.arenas.blocks.push_empty(rule.slots)?;
        let tests = code.tests_of(rule.tests, arity);
        pass_tests(
            run.alloc,
            &run.store,
            &mut run.arenas.blocks,
            tests,
            call.base,
            first,
        )
    }
}

/// Whether the arguments from a slot on pass the tests of a head. Slots from `first` on are filled then.
fn pass_tests<S: StateStore>(
    alloc: Global,
    store: &S,
    blocks: &mut Blocks,
    tests: &[HeadTest],
    base: usize,
    first: usize,
) -> Result<bool, AllocError>
    ensures { IfOk result (λ found. (b : Block) (ps : PatternTrees) (ts : Trees) (e : Places) → first ≡ b.base + b.first →
        base + length tests.now ≤ first → RuleSlots (S.seen store.now) blocks.old b e → pattern_count ps ≡ length tests.now →
        AreTestsOf (S.seen store.now).names ps tests.now → NoneIsDeep tests.now →
        HoldsArguments (S.seen store.now).now.terms blocks.old.slots base (length tests.now) ts →
        FillsSlots (S.seen store.now).now.terms blocks.old blocks.new b found
        (matched_all_in (bindings (S.seen store.now).now.state) ps ts e)) }
{
    for i in 0..tests.len() {
        let test = tests[i];
        let Some(arg) = blocks.get(base.saturating_add(i)) else {
            return Ok(false);
        };
        if !accepts(alloc, store, blocks, test, first, arg)? {
            return Ok(false);
        }
    }
    Ok(true)
}

/// The same of arguments and patterns that may have patterns in them. The slots are added behind the arguments.
#[inline(never)]
fn matches_patterns<S: StateStore>(
    alloc: Global,
    store: &S,
    blocks: &mut Blocks,
    slots: &mut Slots,
    patterns: &[Pattern],
    base: usize,
    count: u32,
) -> Result<bool, AllocError>
    ensures { IfOk result (λ found. (b : Block) (ts : Trees) → length blocks.old.slots ≡ b.base + b.first →
        base + length patterns.now ≤ b.base + b.first → b.count ≡ count → blocks.old.kept ≤ b.base + b.first →
        IsState (S.seen store.now).now.state → HoldsArguments (S.seen store.now).now.terms blocks.old.slots base
        (length patterns.now) ts → FillsHead (S.seen store.now).now.terms blocks.old blocks.new b found
        (matched_all_in (bindings (S.seen store.now).now.state) (pattern_trees patterns.now) ts (replicate count None))) }
{
    empty(slots, count)?;
    for i in 0..patterns.len() {
        let Some(arg) = blocks.get(base.saturating_add(i)) else {
            return Ok(false);
        };
        if !match_head(alloc, store, &patterns[i], arg, slots)? {
            return Ok(false);
        }
    }
    blocks.push_slots(slots)?;
    Ok(true)
}

/// Makes so many empty slots of the list.
fn empty(slots: &mut Slots, count: u32) -> Result<(), AllocError>
    ensures { IfOk result (λ _. slots.new.items ≡ replicate count None) }
{
    slots.clear();
    slots.resize(count as usize, None)
}

/// Whether an argument passes a test.
fn accepts<S: StateStore>(
    alloc: Global,
    store: &S,
    blocks: &mut Blocks,
    test: HeadTest,
    first: usize,
    arg: Ref,
) -> Result<bool, AllocError>
    ensures { IfOk result (λ found. (b : Block) (p : PatternTree) (t : Tree) (e : Places) → first ≡ b.base + b.first →
        RuleSlots (S.seen store.now) blocks.old b e → IsTestOf (S.seen store.now).names p test → test ≢ Deep →
        IsTerm (S.seen store.now) arg t → FillsSlots (S.seen store.now).now.terms blocks.old blocks.new b found
        (matched_in (bindings (S.seen store.now).now.state) p t e)) }
{
    match test {
        HeadTest::Int(n) => Ok(is_int(store.look(arg), n)),
        HeadTest::Atom(k) => Ok(is_atom(store.look(arg), k)),
        HeadTest::Slot(k) => fill(alloc, store, blocks, slot_at(first, k), arg),
        HeadTest::Deep => Ok(false),
    }
}

/// Whether a term that shows this at its root is this integer.
fn is_int(cell: Cell, n: i128) -> bool
    ensures { result ≡ is_int_in n cell }
{
    match cell {
        Cell::Int(m) => m == n,
        _ => false,
    }
}

/// Whether a term that shows this at its root is the atom with this number.
fn is_atom(cell: Cell, k: u64) -> bool
    ensures { result ≡ is_atom_cell k cell }
{
    match cell {
        Cell::Atom(j) => j == k,
        _ => false,
    }
}

/// Whether a slot takes a term: an empty one does, and a filled one where both terms are the same.
fn fill<S: StateStore>(
    alloc: Global,
    store: &S,
    blocks: &mut Blocks,
    slot: usize,
    term: Ref,
) -> Result<bool, AllocError>
    ensures { IfOk result (λ found. (b : Block) (k : ℕ) (t : Tree) (e : Places) → slot ≡ slot_number (b.base + b.first) k →
        RuleSlots (S.seen store.now) blocks.old b e → IsTerm (S.seen store.now) term t →
        FillsSlots (S.seen store.now).now.terms blocks.old blocks.new b found
        (filled_in (bindings (S.seen store.now).now.state) k t e)) }
{
    match blocks.held(slot) {
        None => Ok(false),
        Some(None) => {
            blocks.set(slot, term)?;
            Ok(true)
        }
        Some(Some(held)) => Ok(compare(alloc, store, held, term)?.is_eq()),
    }
}
