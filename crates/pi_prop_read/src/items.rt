//! Items of constraints: integers and variables.
ghost use Rattle.pi_constraints.specs.State.{IsState};
ghost use Rattle.pi_prop_spec.specs.Steps.{Made};
ghost use Rattle.pi_prop_spec.specs.Lists.{read_item, read_each, read_collection};
ghost use Rattle.pi_prop_read.specs.Refs.{IsThere, value_at};
ghost use Rattle.pi_prop_read.specs.OperandFrames.{AreThere};
ghost use Rattle.pi_prop_read.specs.Items.{values_at, ShowsItem, ShowsEach, ShowsCollection};

use crate::operands::OperandStop;
use pi_constraints::{Cell, Item, Ref, StateStore};
use pi_effects::Stop;
use pi_lib_builtin::collection_items;
use pi_prop_made::{JudgedItems, integer_item};
use std::alloc::Global;

/// The item that a term is, None for an integer that no domain can have. Any other term can't stand here.
pub(crate) fn item_at<S: StateStore>(s: &S, term: Ref) -> Result<Option<Item>, OperandStop>
    ensures { (m : Made) → IsState (S.seen s.now).now.state → IsThere (S.seen s.now).now term →
        ShowsItem (S.seen s.now).now result (read_item (value_at (S.seen s.now).now term) m) m }
{
    match s.look(term) {
        Cell::Var(variable) => Ok(Some(Item::Var(variable))),
        Cell::Int(number) => Ok(integer_item(number)),
        Cell::Atom(_) => Err(OperandStop::NotLinear(term)),
        Cell::Comp(_, _) => Err(OperandStop::NotLinear(term)),
    }
}

/// The items that terms are, from the left.
pub(crate) fn items_at<S: StateStore>(
    alloc: Global,
    s: &S,
    terms: &[Ref],
) -> Result<JudgedItems, OperandStop>
    ensures { (m : Made) → IsState (S.seen s.now).now.state → AreThere (S.seen s.now).now terms.now →
        ShowsEach (S.seen s.now).now result (read_each (values_at (S.seen s.now).now terms.now) m) m }
{
    let mut items = JudgedItems::new(alloc);
    for i in 0..terms.len() {
        let item = match item_at(s, terms[i]) {
            Ok(item) => item,
            Err(stop) => return Err(stop),
        };
        match items.push(item) {
            Ok(()) => (),
            Err(_) => return Err(OperandStop::Memory),
        }
    }
    Ok(items)
}

/// The terms in a proper list or an array. Any other term can't stand here.
pub(crate) fn collected<S: StateStore>(
    alloc: Global,
    s: &S,
    term: Ref,
) -> Result<Vec<Ref>, OperandStop>
    ensures { (m : Made) → IsState (S.seen s.now).now.state → IsThere (S.seen s.now).now term →
        ShowsCollection (S.seen s.now).now result (read_collection (value_at (S.seen s.now).now term) m) m }
{
    match collection_items(alloc, s, term) {
        Ok(found) => Ok(found),
        Err(Stop::Raised(_)) => Err(OperandStop::NotLinear(term)),
        Err(Stop::Memory) => Err(OperandStop::Memory),
    }
}
