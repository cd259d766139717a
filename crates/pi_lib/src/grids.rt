//! Arrays of arrays of new variables.
ghost use Rattle.std.specs.Prelude.{◌*◌, IfOk};
ghost use Rattle.pi_terms.specs.Tree.{Tree};
ghost use Rattle.pi_constraints.specs.State.{next};
ghost use Rattle.pi_constraints.specs.Store.{IsTerm, Gives};
ghost use Rattle.pi_unify.specs.Copying.{with_variables, MakesSome};
ghost use Rattle.pi_unify.specs.Terms.{HoldsNoCycle};
ghost use Rattle.pi_effects.specs.Items.{array_of};
ghost use Rattle.pi_effects.specs.Making.{new_rows, new_grid};
ghost use Rattle.pi_effects.specs.Results.{ShowsEffect};

use crate::sizes::{MOST_ITEMS, allowed, size};
use crate::variables::put_array;
use pi_constraints::{Ref, StateStore};
use pi_effects::Stop;
use std::alloc::{AllocError, Global};

/// `new_array(M,N)`: an array of M arrays, each of N new variables. A size that is no integer from 0 raises `bad_index`; more
/// than 16,777,216 rows, or as many variables in all, raise `range_too_long`. M is judged before N. A User's Guide to Picat,
/// 'Data Types, Operators, and Built-ins'; what is raised is own.
pub fn new_grid<S: StateStore>(
    alloc: Global,
    s: &mut S,
    rows: Ref,
    columns: Ref,
) -> Result<Ref, Stop>
    ensures makes { MakesSome (S.seen s.old) (S.seen s.new) }
    ensures shows { (t u : Tree) → HoldsNoCycle (S.seen s.old) → IsTerm (S.seen s.old) rows t →
        IsTerm (S.seen s.old) columns u → ShowsEffect (S.seen s.old) (S.seen s.new) result (new_grid (S.seen s.old).now.state t u) }
{
    let rows = allowed(size(s, rows)?)?;
    let columns = size(s, columns)?;
    allowed(columns.saturating_mul(u128::from(rows)))?;
    // Without rows there may be any number of columns.
    let columns = columns.min(MOST_ITEMS) as u64;
    let made = put_rows(alloc, s, rows, columns)?;
    Ok(made)
}

/// Puts an array of so many rows of new variables. Where that is refused some of them may be made.
fn put_rows<S: StateStore>(
    alloc: Global,
    s: &mut S,
    rows: u64,
    columns: u64,
) -> Result<Ref, AllocError>
    ensures makes { MakesSome (S.seen s.old) (S.seen s.new) }
    ensures ok { IfOk result (λ made. Gives (S.seen s.old) (S.seen s.new)
        (with_variables (rows * columns) (S.seen s.old).now.state) made
        (array_of (new_rows rows columns (next (S.seen s.old).now.state)))) }
{
    let mut made = Vec::new(alloc);
    for _row in 0..rows {
        let row = put_array(alloc, s, columns)?;
        made.push(row)?;
    }
    let grid = s.put_comp("{}", &made)?;
    Ok(grid)
}
