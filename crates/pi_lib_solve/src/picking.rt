//! Which variable is next.
ghost use Rattle.std.specs.Prelude.{◌≡◌, List};
ghost use Rattle.pi_constraints.specs.declared.constraint.Item.{Item};
ghost use Rattle.pi_constraints.specs.State.{IsState};
ghost use Rattle.pi_label.specs.Words.{variable_word};
ghost use Rattle.pi_lib_constraints.specs.Kept.{AreRefsOf};
ghost use Rattle.pi_settling.specs.Choices.{pending as pending_items, picked};
ghost use Rattle.pi_settling.specs.Options.{forward, backward, ff};
ghost use Rattle.pi_lib_solve.specs.Picked.{ShowsPicked, smaller_of};

use crate::places::pending;
use crate::values::value_count;
use pi_constraints::{Ref, StoredDomains};
use pi_label::VariableWord;

/// A variable that was found, and how many values it has.
#[derive(Clone, Copy)]
struct Smallest {
    variable: u64,
    count: u64,
}

/// The variable that is labelled next, by its number, of those that items come to and that have a domain: the first one, the
/// last one, or the leftmost of those with the fewest values. None exactly where there is none. It looks at each item once at
/// most, and takes no memory. A User's Guide to Picat, 'Constraints'.
pub fn pick<S: StoredDomains>(s: &S, word: VariableWord, items: &[Ref]) -> Option<u64>
    ensures { (xs : List Item) → IsState (S.seen s.now).now.state → AreRefsOf (S.seen s.now) items.now xs →
        ShowsPicked (S.seen s.now).now.state result (picked (pending_items (S.seen s.now).now.state xs) (variable_word word)) }
{
    match word {
        VariableWord::Forward => first_pending(s, items),
        VariableWord::Backward => last_pending(s, items),
        VariableWord::Ff => smallest_pending(s, items),
    }
}

/// The first variable.
fn first_pending<S: StoredDomains>(s: &S, items: &[Ref]) -> Option<u64>
    ensures { (xs : List Item) → IsState (S.seen s.now).now.state → AreRefsOf (S.seen s.now) items.now xs →
        ShowsPicked (S.seen s.now).now.state result (picked (pending_items (S.seen s.now).now.state xs) forward) }
{
    for k in 0..items.len() {
        let found = pending(s, items[k]);
        if found.is_some() {
            return found;
        }
    }
    None
}

/// The last variable.
fn last_pending<S: StoredDomains>(s: &S, items: &[Ref]) -> Option<u64>
    ensures { (xs : List Item) → IsState (S.seen s.now).now.state → AreRefsOf (S.seen s.now) items.now xs →
        ShowsPicked (S.seen s.now).now.state result (picked (pending_items (S.seen s.now).now.state xs) backward) }
{
    for k in (0..items.len()).rev() {
        let found = pending(s, items[k]);
        if found.is_some() {
            return found;
        }
    }
    None
}

/// The leftmost one of those with the fewest values.
fn smallest_pending<S: StoredDomains>(s: &S, items: &[Ref]) -> Option<u64>
    ensures { (xs : List Item) → IsState (S.seen s.now).now.state → AreRefsOf (S.seen s.now) items.now xs →
        ShowsPicked (S.seen s.now).now.state result (picked (pending_items (S.seen s.now).now.state xs) ff) }
{
    let mut smallest: Option<Smallest> = None;
    for k in 0..items.len() {
        if let Some(variable) = pending(s, items[k]) {
            let next = Smallest {
                variable,
                count: value_count(s, variable),
            };
            smallest = Some(smaller(smallest, next));
        }
    }
    match smallest {
        Some(found) => Some(found.variable),
        None => None,
    }
}

/// The one of two variables that has fewer values, and the first where they have as many.
fn smaller(so_far: Option<Smallest>, next: Smallest) -> Smallest
    ensures { result ≡ smaller_of so_far next }
{
    match so_far {
        Some(found) => {
            if next.count < found.count {
                next
            } else {
                found
            }
        }
        None => next,
    }
}
