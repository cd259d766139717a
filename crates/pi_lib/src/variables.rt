//! Lists and arrays of new variables.
ghost use Rattle.std.specs.Prelude.{◌≡◌, ℕ, ◌+◌, IfOk, OnErr};
ghost use Rattle.pi_terms.specs.Tree.{Tree, trees_of};
ghost use Rattle.pi_constraints.specs.State.{next};
ghost use Rattle.pi_constraints.specs.Store.{IsTerm, AreTerms, Gives, Stays};
ghost use Rattle.pi_unify.specs.Copying.{with_variables, Makes, MakesSome};
ghost use Rattle.pi_unify.specs.Terms.{HoldsNoCycle};
ghost use Rattle.pi_effects.specs.Items.{list_of, array_of};
ghost use Rattle.pi_effects.specs.Making.{new_from, new_items};
ghost use Rattle.pi_effects.specs.Results.{ShowsEffect};

use crate::sizes::{allowed, size};
use pi_constraints::{Ref, StateStore};
use pi_effects::Stop;
use std::alloc::{AllocError, Global};

/// `new_list(N)`: the list of so many new variables. A size that is no integer from 0 raises `bad_index`, one above
/// 16,777,216 `range_too_long`. A User's Guide to Picat, 'Data Types, Operators, and Built-ins'; what is raised is own.
pub fn new_list<S: StateStore>(s: &mut S, count: Ref) -> Result<Ref, Stop>
    ensures makes { MakesSome (S.seen s.old) (S.seen s.new) }
    ensures shows { (t : Tree) → HoldsNoCycle (S.seen s.old) → IsTerm (S.seen s.old) count t →
        ShowsEffect (S.seen s.old) (S.seen s.new) result (new_items list_of (S.seen s.old).now.state t) }
{
    let count = allowed(size(s, count)?)?;
    let made = put_list(s, count)?;
    Ok(made)
}

/// `new_array(N)`: the array of so many new variables, with the exceptions of `new_list`. A User's Guide to Picat, 'Data
/// Types, Operators, and Built-ins'; what is raised is own.
pub fn new_array<S: StateStore>(alloc: Global, s: &mut S, count: Ref) -> Result<Ref, Stop>
    ensures makes { MakesSome (S.seen s.old) (S.seen s.new) }
    ensures shows { (t : Tree) → HoldsNoCycle (S.seen s.old) → IsTerm (S.seen s.old) count t →
        ShowsEffect (S.seen s.old) (S.seen s.new) result (new_items array_of (S.seen s.old).now.state t) }
{
    let count = allowed(size(s, count)?)?;
    let made = put_array(alloc, s, count)?;
    Ok(made)
}

/// Puts a list of so many new variables. Where that is refused some of them may be made.
fn put_list<S: StateStore>(s: &mut S, count: u64) -> Result<Ref, AllocError>
    ensures makes { MakesSome (S.seen s.old) (S.seen s.new) }
    ensures ok { IfOk result (λ made. Gives (S.seen s.old) (S.seen s.new) (with_variables count (S.seen s.old).now.state) made
        (list_of (new_from (next (S.seen s.old).now.state) count))) }
{
    make_variables(s, count)?;
    let made = list_newest(s, count)?;
    Ok(made)
}

/// Makes so many new variables. Where that is refused some of them may be made.
fn make_variables<S: StateStore>(s: &mut S, count: u64) -> Result<(), AllocError>
    ensures ok { IfOk result (λ _. Makes (S.seen s.old) (S.seen s.new) count) }
    ensures err { OnErr result (MakesSome (S.seen s.old) (S.seen s.new)) }
{
    for _k in 0..count {
        s.new_var()?;
    }
    Ok(())
}

/// Puts the list of the newest variables, so many of them.
fn list_newest<S: StateStore>(s: &mut S, count: u64) -> Result<Ref, AllocError>
    ensures stays { Stays (S.seen s.old) (S.seen s.new) }
    ensures ok { IfOk result (λ made. (first : ℕ) → first + count ≡ next (S.seen s.old).now.state →
        IsTerm (S.seen s.new) made (list_of (new_from first count))) }
{
    let end = s.vars();
    let mut list = s.put_atom("[]")?;
    for k in 0..count {
        let var = s.var_ref(end.saturating_sub(k).saturating_sub(1));
        list = s.put_comp("[|]", &[var, list])?;
    }
    Ok(list)
}

/// Puts an array of so many new variables. Where that is refused some of them may be made.
pub fn put_array<S: StateStore>(alloc: Global, s: &mut S, count: u64) -> Result<Ref, AllocError>
    ensures makes { MakesSome (S.seen s.old) (S.seen s.new) }
    ensures ok { IfOk result (λ made. Gives (S.seen s.old) (S.seen s.new) (with_variables count (S.seen s.old).now.state) made
        (array_of (new_from (next (S.seen s.old).now.state) count))) }
{
    let variables = new_variables(alloc, s, count)?;
    let made = s.put_comp("{}", &variables)?;
    Ok(made)
}

/// Makes so many new variables, and answers their Refs. Where that is refused some of them may be made.
fn new_variables<S: StateStore>(
    alloc: Global,
    s: &mut S,
    count: u64,
) -> Result<Vec<Ref>, AllocError>
    ensures ok { IfOk result (λ made. Makes (S.seen s.old) (S.seen s.new) count ×
        AreTerms (S.seen s.new) made.items (trees_of (new_from (next (S.seen s.old).now.state) count))) }
    ensures err { OnErr result (MakesSome (S.seen s.old) (S.seen s.new)) }
{
    let mut made = Vec::new(alloc);
    for _k in 0..count {
        let var = s.new_var()?;
        made.push(var)?;
    }
    Ok(made)
}
