//! One-way matching of a pattern and a term.
ghost use Rattle.std.specs.Prelude.{◌≡◌, ◌<◌, ◌≤◌, ◌+◌, MatchOption, ℕ, List, IfOk, length, slice_index_or};
ghost use Rattle.std.specs.Ordering.{is_eq};
ghost use Rattle.pi_terms.specs.Tree.{Tree, atom};
ghost use Rattle.pi_terms.specs.Order.{identical, name_order};
ghost use Rattle.pi_constraints.specs.Value.{value};
ghost use Rattle.pi_constraints.specs.State.{bindings};
ghost use Rattle.pi_constraints.specs.Store.{IsTerm, IsName, ShowsCell};
ghost use Rattle.pi_constraints.specs.Match.{matched};
ghost use Rattle.pi_constraints.specs.HeadMatch.{matched_in, filled_in, slot_values};
ghost use Rattle.pi_core.specs.CoreTree.{pattern_tree};
ghost use Rattle.pi_unify.specs.Terms.{IsGiven, HoldsNoCycle, term_of};
ghost use Rattle.pi_unify.specs.Matching.{slot_terms, HoldAllGiven, FillsEmpty, TellsMatch, root_match, is_compound_of, AreWithin, AreLeft, nodes, nodes_left, LeavesNodes, LeavesFewer, TakesPending, ComesBehind, Pushes, FitsRoot, is_int_in, HasAsMany, arguments_match};

use crate::order::compare;
use pi_constraints::{Cell, Ref, StateStore};
use pi_core::Pattern;
use std::alloc::{AllocError, Global};

/// The slots of a clause by their numbers: what each holds, or nothing.
pub type Slots = Vec<Option<Ref>>;

/// A pattern, and the term that it is to match.
#[derive(Clone, Copy)]
struct Pending<'p> {
    pattern: &'p Pattern,
    term: Ref,
}

/// The patterns of a compound from one number on, for the arguments of a term with as many. At least one is left.
// No `Rest`: the loop ends since the patterns that are left have fewer nodes, for which each has to be within its slice.
#[derive(Clone, Copy)]
struct Arguments<'p> {
    patterns: &'p [Pattern],
    of: Ref,
    next: usize,
    count: usize,
}

/// Whether a term is an instance of a pattern. The pattern's slots are then filled, each with the term that stands in its
/// place; a slot that was filled takes a term of the same value alone, and a number past the last slot takes none. No
/// variable is bound. After false or a refusal some of the empty slots may be filled.
pub fn match_head<S: StateStore>(
    alloc: Global,
    s: &S,
    p: &Pattern,
    r: Ref,
    slots: &mut Slots,
) -> Result<bool, AllocError>
    ensures fills { FillsEmpty slots.old.items slots.new.items }
    ensures given { IsGiven (S.seen s.now) r → HoldsNoCycle (S.seen s.now) → HoldAllGiven (S.seen s.now) slots.old.items →
        HoldAllGiven (S.seen s.now) slots.new.items }
    ensures terms { IfOk result (λ found. (t : Tree) → IsTerm (S.seen s.now) r t → HoldsNoCycle (S.seen s.now) →
        HoldAllGiven (S.seen s.now) slots.old.items →
        TellsMatch found (matched_in (bindings (S.seen s.now).now.state) (pattern_tree p.now) t
        (slot_terms (S.seen s.now) slots.old.items)) (slot_terms (S.seen s.now) slots.new.items)) }
    ensures values { IfOk result (λ found. (t : Tree) → IsTerm (S.seen s.now) r t → HoldsNoCycle (S.seen s.now) →
        HoldAllGiven (S.seen s.now) slots.old.items → let b = bindings (S.seen s.now).now.state in
        TellsMatch found (matched (pattern_tree p.now) (value b t) (slot_values b (slot_terms (S.seen s.now) slots.old.items)))
        (slot_values b (slot_terms (S.seen s.now) slots.new.items))) }
{
    match_pattern(alloc, s, p, r, slots)
}

/// The same by the pattern: the patterns in a compound are matched one after the other, each by itself.
fn match_pattern<S: StateStore>(
    alloc: Global,
    s: &S,
    p: &Pattern,
    r: Ref,
    slots: &mut Slots,
) -> Result<bool, AllocError>
    ensures fills { FillsEmpty slots.old.items slots.new.items }
    ensures given { IsGiven (S.seen s.now) r → HoldsNoCycle (S.seen s.now) → HoldAllGiven (S.seen s.now) slots.old.items →
        HoldAllGiven (S.seen s.now) slots.new.items }
    ensures terms { IfOk result (λ found. (t : Tree) → IsTerm (S.seen s.now) r t → HoldsNoCycle (S.seen s.now) →
        HoldAllGiven (S.seen s.now) slots.old.items →
        TellsMatch found (matched_in (bindings (S.seen s.now).now.state) (pattern_tree p.now) t
        (slot_terms (S.seen s.now) slots.old.items)) (slot_terms (S.seen s.now) slots.new.items)) }
{
    match p {
        Pattern::Comp(_, patterns) => {
            if !matches_at_root(alloc, s, p, r, slots)? {
                return Ok(false);
            }
            match_arguments(alloc, s, patterns.as_slice(), r, slots)
        }
        _ => match_part(alloc, s, p, r, slots),
    }
}

/// Whether the arguments of a term, of which there are as many as patterns, are instances of these. It keeps no stack.
fn match_arguments<S: StateStore>(
    alloc: Global,
    s: &S,
    patterns: &[Pattern],
    of: Ref,
    slots: &mut Slots,
) -> Result<bool, AllocError>
    ensures fills { FillsEmpty slots.old.items slots.new.items }
    ensures given { IsGiven (S.seen s.now) of → HoldsNoCycle (S.seen s.now) → HasAsMany (S.seen s.now) of patterns.now →
        HoldAllGiven (S.seen s.now) slots.old.items → HoldAllGiven (S.seen s.now) slots.new.items }
    ensures found { IfOk result (λ found. IsGiven (S.seen s.now) of → HoldsNoCycle (S.seen s.now) →
        HasAsMany (S.seen s.now) of patterns.now → HoldAllGiven (S.seen s.now) slots.old.items →
        TellsMatch found (arguments_match (S.seen s.now) patterns.now of (slot_terms (S.seen s.now) slots.old.items))
        (slot_terms (S.seen s.now) slots.new.items)) }
{
    for i in 0..patterns.len() {
        let pattern = pattern_at(patterns, i);
        let term = s.arg(of, i as u64);
        if !match_part(alloc, s, pattern, term, slots)? {
            return Ok(false);
        }
    }
    Ok(true)
}

/// Whether a term is an instance of a pattern: at sight where the pattern has no parts.
fn match_part<S: StateStore>(
    alloc: Global,
    s: &S,
    p: &Pattern,
    r: Ref,
    slots: &mut Slots,
) -> Result<bool, AllocError>
    ensures fills { FillsEmpty slots.old.items slots.new.items }
    ensures given { IsGiven (S.seen s.now) r → HoldsNoCycle (S.seen s.now) → HoldAllGiven (S.seen s.now) slots.old.items →
        HoldAllGiven (S.seen s.now) slots.new.items }
    ensures terms { IfOk result (λ found. (t : Tree) → IsTerm (S.seen s.now) r t → HoldsNoCycle (S.seen s.now) →
        HoldAllGiven (S.seen s.now) slots.old.items →
        TellsMatch found (matched_in (bindings (S.seen s.now).now.state) (pattern_tree p.now) t
        (slot_terms (S.seen s.now) slots.old.items)) (slot_terms (S.seen s.now) slots.new.items)) }
{
    match p {
        Pattern::Slot(_) | Pattern::Int(_) | Pattern::Atom(_) => {
            matches_at_root(alloc, s, p, r, slots)
        }
        Pattern::Comp(_, _) | Pattern::Named(_, _) => match_nested(alloc, s, p, r, slots),
    }
}

/// Whether a term is an instance of a pattern with patterns in it, which are kept on a stack.
fn match_nested<S: StateStore>(
    alloc: Global,
    s: &S,
    p: &Pattern,
    r: Ref,
    slots: &mut Slots,
) -> Result<bool, AllocError>
    ensures fills { FillsEmpty slots.old.items slots.new.items }
    ensures given { IsGiven (S.seen s.now) r → HoldsNoCycle (S.seen s.now) → HoldAllGiven (S.seen s.now) slots.old.items →
        HoldAllGiven (S.seen s.now) slots.new.items }
    ensures terms { IfOk result (λ found. (t : Tree) → IsTerm (S.seen s.now) r t → HoldsNoCycle (S.seen s.now) →
        HoldAllGiven (S.seen s.now) slots.old.items →
        TellsMatch found (matched_in (bindings (S.seen s.now).now.state) (pattern_tree p.now) t
        (slot_terms (S.seen s.now) slots.old.items)) (slot_terms (S.seen s.now) slots.new.items)) }
{
    let mut left = Vec::new(alloc);
    let mut at = Pending {
        pattern: p,
        term: r,
    };
    loop {
        if !matches_at_root(alloc, s, at.pattern, at.term, slots)? {
            return Ok(false);
        }
        match after_root(s, at.pattern, at.term, &mut left)? {
            Some(next) => at = next,
            None => return Ok(true),
        }
    }
}

/// Whether a term is at its root what a pattern says. The pattern's own slot takes the term.
fn matches_at_root<S: StateStore>(
    alloc: Global,
    s: &S,
    pattern: &Pattern,
    term: Ref,
    slots: &mut Slots,
) -> Result<bool, AllocError>
    ensures fills { FillsEmpty slots.old.items slots.new.items }
    ensures given { IsGiven (S.seen s.now) term → HoldAllGiven (S.seen s.now) slots.old.items →
        HoldAllGiven (S.seen s.now) slots.new.items }
    ensures found { IfOk result (λ found. IsGiven (S.seen s.now) term → HoldsNoCycle (S.seen s.now) →
        HoldAllGiven (S.seen s.now) slots.old.items →
        TellsMatch found (root_match (bindings (S.seen s.now).now.state) (pattern_tree pattern.now) (term_of (S.seen s.now) term)
        (slot_terms (S.seen s.now) slots.old.items)) (slot_terms (S.seen s.now) slots.new.items)) }
{
    match pattern {
        Pattern::Slot(k) => fill(alloc, s, slots, *k, term),
        Pattern::Named(k, _) => fill(alloc, s, slots, *k, term),
        Pattern::Int(n) => Ok(is_int(s.look(term), *n)),
        Pattern::Atom(name) => Ok(is_atom(s, s.look(term), name.as_str())),
        Pattern::Comp(name, patterns) => Ok(is_compound(
            s,
            s.look(term),
            name.as_str(),
            patterns.len(),
        )),
    }
}

/// Whether a term that shows this at its root is this integer.
fn is_int(cell: Cell, n: i128) -> bool
    ensures { result ≡ is_int_in n cell }
{
    match cell {
        Cell::Int(m) => m == n,
        _ => false,
    }
}

/// Whether a term that shows this at its root is the atom with this name.
fn is_atom<S: StateStore>(s: &S, cell: Cell, name: &str) -> bool
    ensures { (t : Tree) → ShowsCell (S.seen s.now) t cell → result ≡ identical (atom name.now) t }
{
    match cell {
        Cell::Atom(k) => has_name(s, k, name),
        _ => false,
    }
}

/// Whether a term that shows this at its root is a compound with this name and so many arguments.
fn is_compound<S: StateStore>(s: &S, cell: Cell, name: &str, count: usize) -> bool
    ensures { (t : Tree) → ShowsCell (S.seen s.now) t cell → result ≡ is_compound_of name.now count t }
{
    match cell {
        Cell::Comp(k, n) => n == count as u64 && has_name(s, k, name),
        _ => false,
    }
}

/// Whether this is the name of an atom.
fn has_name<S: StateStore>(s: &S, k: u64, name: &str) -> bool
    ensures { (f : List ℕ) → IsName (S.seen s.now) k f → result ≡ is_eq (name_order name.now f) }
{
    name == s.name(k)
}

/// Whether a slot takes a term: an empty one does, and a filled one where the terms have one value.
fn fill<S: StateStore>(
    alloc: Global,
    s: &S,
    slots: &mut Slots,
    k: u32,
    term: Ref,
) -> Result<bool, AllocError>
    ensures fills { FillsEmpty slots.old.items slots.new.items }
    ensures given { IsGiven (S.seen s.now) term → HoldAllGiven (S.seen s.now) slots.old.items →
        HoldAllGiven (S.seen s.now) slots.new.items }
    ensures found { IfOk result (λ found. IsGiven (S.seen s.now) term → HoldsNoCycle (S.seen s.now) →
        HoldAllGiven (S.seen s.now) slots.old.items →
        TellsMatch found (filled_in (bindings (S.seen s.now).now.state) k (term_of (S.seen s.now) term)
        (slot_terms (S.seen s.now) slots.old.items)) (slot_terms (S.seen s.now) slots.new.items)) }
{
    let k = k as usize;
    if k >= slots.len() {
        return Ok(false);
    }
    match slots[k] {
        Some(held) => Ok(compare(alloc, s, held, term)?.is_eq()),
        None => {
            slots[k] = Some(term);
            Ok(true)
        }
    }
}

/// What is to be matched next, once a term was found at its root to be what a pattern says; None exactly where nothing is.
fn after_root<'p, S: StateStore>(
    s: &S,
    pattern: &'p Pattern,
    term: Ref,
    left: &mut Vec<Arguments<'p>>,
) -> Result<Option<Pending<'p>>, AllocError>
    requires within { AreWithin left.old.items }
    ensures fewer { IfOk result (LeavesFewer (nodes (pattern_tree pattern.now) + nodes_left left.old.items) left.new.items) }
    ensures comes { IfOk result (λ next. IsGiven (S.seen s.now) term → HoldsNoCycle (S.seen s.now) →
        AreLeft (S.seen s.now) left.old.items → FitsRoot (bindings (S.seen s.now).now.state) (pattern_tree pattern.now)
        (term_of (S.seen s.now) term) → ComesBehind (S.seen s.now) (pattern_tree pattern.now)
        (term_of (S.seen s.now) term) left.old.items left.new.items next) }
{
    match pattern {
        Pattern::Named(_, inner) => Ok(Some(Pending {
            pattern: inner,
            term,
        })),
        Pattern::Comp(_, patterns) => {
            push_arguments(left, patterns.as_slice(), term)?;
            next_argument(s, left)
        }
        Pattern::Slot(_) | Pattern::Int(_) | Pattern::Atom(_) => next_argument(s, left),
    }
}

/// Leaves all patterns of a compound to be matched, where it has any.
fn push_arguments<'p>(
    left: &mut Vec<Arguments<'p>>,
    patterns: &'p [Pattern],
    of: Ref,
) -> Result<(), AllocError>
    ensures { IfOk result (λ _. Pushes left.old.items left.new.items patterns.now of) }
{
    if !patterns.is_empty() {
        left.push(Arguments {
            patterns,
            of,
            next: 0,
            count: patterns.len(),
        })?;
    }
    Ok(())
}

/// Takes the next pattern with its argument; a compound's last one leaves nothing behind. None exactly where none is left.
fn next_argument<'p, S: StateStore>(
    s: &S,
    left: &mut Vec<Arguments<'p>>,
) -> Result<Option<Pending<'p>>, AllocError>
    requires within { AreWithin left.old.items }
    ensures nodes { IfOk result (LeavesNodes (nodes_left left.old.items) left.new.items) }
    ensures takes { IfOk result (λ next. HoldsNoCycle (S.seen s.now) → AreLeft (S.seen s.now) left.old.items →
        TakesPending (S.seen s.now) left.old.items left.new.items next) }
{
    let Some(first) = left.pop() else {
        return Ok(None);
    };
    if let Some(next) = following(first.next, first.count) {
        left.push(Arguments { next, ..first })?;
    }
    Ok(Some(Pending {
        pattern: pattern_at(first.patterns, first.next),
        term: s.arg(first.of, first.next as u64),
    }))
}

/// The number behind this one, where it is below the count too.
fn following(next: usize, count: usize) -> Option<usize>
    requires { next < count }
    ensures { MatchOption result (count ≤ next + 1) (λ k. (k ≡ next + 1) × (k < count)) }
{
    if next + 1 < count {
        Some(next + 1)
    } else {
        None
    }
}

fn pattern_at(patterns: &[Pattern], i: usize) -> &Pattern
    requires { i < length patterns.now }
    ensures { result.now ≡ slice_index_or patterns.now i result.now }
{
    &patterns[i]
}
