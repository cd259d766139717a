//! Copies of terms of a store.
ghost use Rattle.std.specs.Prelude.{◌≡◌, ◌<◌, ◌+◌, ℕ, List, true, IfOk, length};
ghost use Rattle.pi_terms.specs.Tree.{Tree, Trees, atom, comp, args, arity, tree, no_trees, drop_trees};
ghost use Rattle.pi_terms.specs.TermCells.{take_trees};
ghost use Rattle.pi_constraints.specs.Value.{value};
ghost use Rattle.pi_terms.specs.Copy.{renamed};
ghost use Rattle.pi_constraints.specs.State.{bindings};
ghost use Rattle.pi_constraints.specs.Store.{IsTerm, IsName, Stays};
ghost use Rattle.pi_unify.specs.Terms.{IsGiven, HoldsNoCycle, value_of};
ghost use Rattle.pi_unify.specs.Copying.{HasNone, ShowsNodes, Listing, GoesOnListing, noted_cell, MakesSome, ShowsCopy, values_of, forest, renumbered, AreListed, MayCopy, PutsCopy, AreBuilt};

use crate::ahead::{Rest, leave_all, next_term};
use crate::building::put_compound;
use crate::numbers::{make_variables, new_variable};
use crate::order::argument_count;
use pi_constraints::{Cell, ReadStop, Ref, StateStore};
use pi_terms::{Numbers, Text};
use std::alloc::{AllocError, Global};

/// The most cells of a term that is copied.
const MOST_CELLS: usize = 16_777_216;

/// The terms in a term, as their Refs: itself, then those in its arguments from the left. The variables among them, and
/// the arguments that are still to be listed.
#[derive(Drop)]
struct Nodes {
    refs: Vec<Ref>,
    numbers: Numbers,
    left: Vec<Rest<Ref>>,
}

/// Copies a term: new plain variables stand in place of its unbound ones, numbered by first occurrence from the left, and
/// bindings are replaced throughout. Parts without variables are shared. `TooLarge` exactly where the copy would have
/// more than 16,777,216 cells; then nothing is changed. After want of memory some of the new variables may be made.
pub fn copy_term<S: StateStore>(alloc: Global, s: &mut S, r: Ref) -> Result<Ref, ReadStop>
    ensures makes { MakesSome (S.seen s.old) (S.seen s.new) }
    ensures copies { (t : Tree) → IsTerm (S.seen s.old) r t → HoldsNoCycle (S.seen s.old) →
        ShowsCopy (S.seen s.old) (S.seen s.new) (value (bindings (S.seen s.old).now.state) t) result }
{
    let mut nodes = Nodes {
        refs: Vec::new(alloc),
        numbers: Numbers::new(alloc),
        left: Vec::new(alloc),
    };
    let copied = copy_by_nodes(alloc, s, r, &mut nodes);
    drop(nodes);
    copied
}

/// Copies a term by the terms in it, which are listed first. None was listed before.
fn copy_by_nodes<S: StateStore>(
    alloc: Global,
    s: &mut S,
    r: Ref,
    nodes: &mut Nodes,
) -> Result<Ref, ReadStop>
    ensures makes { MakesSome (S.seen s.old) (S.seen s.new) }
    ensures copies { (t : Tree) → HasNone nodes.old → IsTerm (S.seen s.old) r t → HoldsNoCycle (S.seen s.old) →
        ShowsCopy (S.seen s.old) (S.seen s.new) (value (bindings (S.seen s.old).now.state) t) result }
{
    let Ok(are_listed) = list_nodes(s, r, nodes) else {
        return Err(ReadStop::Memory);
    };
    if !are_listed {
        return Err(ReadStop::TooLarge);
    }
    let Ok(()) = make_variables(s, nodes.numbers.len()) else {
        return Err(ReadStop::Memory);
    };
    match put_copies(alloc, s, &nodes.refs, &mut nodes.numbers) {
        Ok(made) => Ok(made),
        Err(AllocError) => Err(ReadStop::Memory),
    }
}

/// Lists the terms in a value, where none was listed before; false exactly where it has more than 16,777,216 cells.
fn list_nodes<S: StateStore>(s: &S, r: Ref, nodes: &mut Nodes) -> Result<bool, AllocError>
    ensures some { IfOk result (λ are_listed. are_listed ≡ true → 0 < length nodes.new.refs.items) }
    ensures shows { IfOk result (λ are_listed. HasNone nodes.old → IsGiven (S.seen s.now) r → HoldsNoCycle (S.seen s.now) →
        ShowsNodes (S.seen s.now) (value_of (S.seen s.now) r) nodes.new are_listed) }
{
    let mut at = r;
    loop {
        if nodes.refs.len() >= MOST_CELLS {
            return Ok(false);
        }
        match list_node(s, at, nodes)? {
            Some(next) => at = next,
            None => return Ok(true),
        }
    }
}

/// Lists one more term, and answers the one that comes next; None exactly where all are listed.
fn list_node<S: StateStore>(s: &S, at: Ref, nodes: &mut Nodes) -> Result<Option<Ref>, AllocError>
    ensures one { IfOk result (λ _. length nodes.new.refs.items ≡ length nodes.old.refs.items + 1) }
    ensures lists { IfOk result (λ next. (whole : Ref) → HoldsNoCycle (S.seen s.now) →
        Listing (S.seen s.now) nodes.old.refs.items nodes.old.numbers nodes.old.left.items at whole →
        GoesOnListing (S.seen s.now) nodes.new.refs.items nodes.new.numbers nodes.new.left.items whole next) }
{
    nodes.refs.push(at)?;
    let cell = s.look(at);
    note_variable(&mut nodes.numbers, cell)?;
    leave_all(&mut nodes.left, at, argument_count(cell))?;
    next_term(s, &mut nodes.left)
}

/// Notes the variable that a term is which shows this at its root.
fn note_variable(numbers: &mut Numbers, cell: Cell) -> Result<(), AllocError>
    ensures { IfOk result (λ _. numbers.new ≡ noted_cell numbers.old cell) }
{
    match cell {
        Cell::Var(n) => numbers.meet(n),
        _ => Ok(()),
    }
}

/// Puts copies of listed terms from the last to the first, and answers that of the first.
fn put_copies<S: StateStore>(
    alloc: Global,
    s: &mut S,
    refs: &[Ref],
    numbers: &mut Numbers,
) -> Result<Ref, AllocError>
    requires some { 0 < length refs.now }
    ensures stays { Stays (S.seen s.old) (S.seen s.new) }
    ensures ok { IfOk result (λ made. (u : Tree) → AreListed (S.seen s.old) numbers.old refs.now →
        forest (values_of (S.seen s.old) refs.now) ≡ tree u no_trees →
        IsTerm (S.seen s.new) made (renamed (renumbered (S.seen s.old).now.state numbers.old) u)) }
{
    let mut built = Vec::new(alloc);
    let mut i = refs.len();
    while i > 0 {
        i -= 1;
        let made = put_copy(alloc, s, refs[i], numbers, &mut built)?;
        built.push(made)?;
    }
    Ok(built[0])
}

/// Puts the copy of a term, once those of its arguments were put, the first one last. It takes them off. A compound
/// without variables is its own copy.
fn put_copy<S: StateStore>(
    alloc: Global,
    s: &mut S,
    node: Ref,
    numbers: &mut Numbers,
    built: &mut Vec<Ref>,
) -> Result<Ref, AllocError>
    ensures stays { Stays (S.seen s.old) (S.seen s.new) }
    ensures known { IfOk result (λ _. MayCopy (S.seen s.old) numbers.old built.old.items node → numbers.new ≡ numbers.old) }
    ensures ok { IfOk result (λ made. (ts : Trees) → MayCopy (S.seen s.old) numbers.old built.old.items node →
        let u = value_of (S.seen s.old) node in let rename = renumbered (S.seen s.old).now.state numbers.old in
        AreBuilt (S.seen s.old) built.old.items ts → take_trees (arity u) ts ≡ args (renamed rename u) →
        PutsCopy (S.seen s.new) rename u built.new.items made ts) }
{
    match s.look(node) {
        Cell::Var(n) => {
            // It was met when the terms were listed, so this adds no number.
            numbers.meet(n)?;
            Ok(new_variable(s, numbers, n))
        }
        Cell::Int(n) => s.put_int(n),
        Cell::Atom(k) => copy_atom(alloc, s, k),
        Cell::Comp(k, count) => {
            if s.is_ground(node) {
                built.truncate(built.len().saturating_sub(count as usize));
                return Ok(node);
            }
            copy_compound(alloc, s, k, count, built)
        }
    }
}

/// Puts the atom with this number.
fn copy_atom<S: StateStore>(alloc: Global, s: &mut S, k: u64) -> Result<Ref, AllocError>
    ensures stays { Stays (S.seen s.old) (S.seen s.new) }
    ensures ok { IfOk result (λ made. (name : List ℕ) → IsName (S.seen s.old) k name → IsTerm (S.seen s.new) made (atom name)) }
{
    let name = Text::new(alloc, s.name(k))?;
    s.put_atom(name.as_str())
}

/// Puts a compound whose name has this number and whose arguments were put last, the first one last of all. It takes them
/// off.
fn copy_compound<S: StateStore>(
    alloc: Global,
    s: &mut S,
    k: u64,
    count: u64,
    built: &mut Vec<Ref>,
) -> Result<Ref, AllocError>
    ensures stays { Stays (S.seen s.old) (S.seen s.new) }
    ensures ok { IfOk result (λ made. (name : List ℕ) (ts : Trees) → IsName (S.seen s.old) k name →
        AreBuilt (S.seen s.old) built.old.items ts → IsTerm (S.seen s.new) made (comp name (take_trees count ts)) ×
        AreBuilt (S.seen s.new) built.new.items (drop_trees count ts)) }
{
    let name = Text::new(alloc, s.name(k))?;
    put_compound(alloc, s, name.as_str(), count as usize, built)
}
