//! Calls of functions of lists and arrays.
ghost use Rattle.std.specs.Prelude.{◌≡◌, Some};
ghost use Rattle.pi_terms.specs.Tree.{Tree, no_trees, tree};
ghost use Rattle.pi_constraints.specs.Store.{IsTerm, Stays};
ghost use Rattle.pi_unify.specs.Terms.{HoldsNoCycle};
ghost use Rattle.pi_effects.specs.Effect.{FunctionEffect};
ghost use Rattle.pi_effects.specs.BuiltIns.{built_in_function};
ghost use Rattle.pi_effects.specs.Results.{ShowsEffect};
ghost use Rattle.pi_lib_builtin.specs.Names.{collection_name};

use crate::extremes::{greatest, least};
use crate::sorting::{remove_dups, sort, sort_remove_dups};
use pi_constraints::{Ref, StateStore};
use pi_effects::Stop;
use pi_lib_builtin::{
    FunctionOfCollection, first, head, last, length, product, reverse, sum, tail, to_array, to_list,
};
use std::alloc::Global;

/// A call of a function of a list or an array.
pub fn call_of_collection<S: StateStore>(
    alloc: Global,
    s: &mut S,
    function: FunctionOfCollection,
    a: Ref,
) -> Result<Ref, Stop>
    ensures stays { Stays (S.seen s.old) (S.seen s.new) }
    ensures shows { (t : Tree) (e : FunctionEffect) → HoldsNoCycle (S.seen s.old) → IsTerm (S.seen s.old) a t →
        built_in_function (collection_name function) (tree t no_trees) (S.seen s.old).now.state ≡ Some e →
        ShowsEffect (S.seen s.old) (S.seen s.new) result e }
{
    match function {
        FunctionOfCollection::Length => length(alloc, s, a),
        FunctionOfCollection::Head => head(alloc, s, a),
        FunctionOfCollection::Tail => tail(alloc, s, a),
        FunctionOfCollection::First => first(alloc, s, a),
        FunctionOfCollection::Last => last(alloc, s, a),
        FunctionOfCollection::Reverse => reverse(alloc, s, a),
        FunctionOfCollection::Sum => sum(alloc, s, a),
        FunctionOfCollection::Product => product(alloc, s, a),
        FunctionOfCollection::ToList => to_list(alloc, s, a),
        FunctionOfCollection::ToArray => to_array(alloc, s, a),
        FunctionOfCollection::Sort => sort(alloc, s, a),
        FunctionOfCollection::SortOnce => sort_remove_dups(alloc, s, a),
        FunctionOfCollection::EachOnce => remove_dups(alloc, s, a),
        FunctionOfCollection::Least => least(alloc, s, a),
        FunctionOfCollection::Greatest => greatest(alloc, s, a),
    }
}
