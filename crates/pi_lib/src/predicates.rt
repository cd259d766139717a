//! Calls of built-in predicates.
ghost use Rattle.std.specs.Prelude.{◌≡◌, true, false, Some, length};
ghost use Rattle.pi_terms.specs.Tree.{Tree, Trees, no_trees, tree};
ghost use Rattle.pi_constraints.specs.State.{IsState, bindings};
ghost use Rattle.pi_constraints.specs.Store.{IsTerm, AreTerms, Keeps, Stays};
ghost use Rattle.pi_unify.specs.Terms.{HoldsNoCycle};
ghost use Rattle.pi_effects.specs.Effect.{Effect};
ghost use Rattle.pi_effects.specs.BuiltIns.{built_in_predicate};
ghost use Rattle.pi_lib_builtin.specs.Names.{none_name, test_name, pair_name, predicate_name, takes, may_bind};
ghost use Rattle.pi_lib.specs.Outcomes.{ShowsOutcome, outcome_of, tested, written};

use crate::arguments::{one, two};
use crate::formats::printf;
use crate::texts::text_before;
use pi_constraints::{Ref, StateStore};
use pi_effects::{Fault, Stop};
use pi_lib_builtin::{
    Predicate, PredicateOfNone, PredicateOfOne, PredicateOfTwo, are_ordered, are_related, differ,
    is_closed, is_of_kind, make_equal,
};
use pi_terms::Text;
use std::alloc::Global;

/// What a call of a predicate comes to.
#[derive(Drop)]
pub enum Outcome {
    /// One answer, in the state that the store now has.
    Yes,
    /// No answer. Some bindings may stand.
    No,
    /// A text is written, and then there is one answer.
    Out(Text),
}

/// What a call of a predicate comes to, or what is raised. It is said where there are as many arguments as the predicate takes.
pub fn call_predicate<S: StateStore>(
    alloc: Global,
    s: &mut S,
    predicate: Predicate,
    args: &[Ref],
) -> Result<Outcome, Stop>
    ensures keeps { Keeps (S.seen s.old) (S.seen s.new) }
    ensures stays { may_bind predicate ≡ false → Stays (S.seen s.old) (S.seen s.new) }
    ensures shows { (ts : Trees) (e : Effect) → IsState (S.seen s.old).now.state → AreTerms (S.seen s.old) args.now ts →
        takes predicate (length args.now) ≡ true → built_in_predicate (predicate_name predicate) ts (S.seen s.old).now.state ≡
        Some e → ShowsOutcome (S.seen s.old) (S.seen s.new) result e }
{
    match predicate {
        Predicate::OfNone(predicate) => call_of_none(alloc, s, predicate),
        Predicate::OfOne(predicate) => match one(args) {
            Some(a) => call_of_one(alloc, s, predicate, a),
            None => Err(Stop::Memory),
        },
        Predicate::OfTwo(predicate) => match two(args) {
            Some((a, b)) => call_of_two(alloc, s, predicate, a, b),
            None => Err(Stop::Memory),
        },
        Predicate::Printf => write_formatted(alloc, s, args),
    }
}

/// A call of a predicate without arguments.
fn call_of_none<S: StateStore>(
    alloc: Global,
    s: &S,
    predicate: PredicateOfNone,
) -> Result<Outcome, Stop>
    ensures { (e : Effect) → built_in_predicate (none_name predicate) no_trees (S.seen s.now).now.state ≡ Some e →
        ShowsOutcome (S.seen s.now) (S.seen s.now) result e }
{
    match predicate {
        PredicateOfNone::True => Ok(Outcome::Yes),
        PredicateOfNone::Fail => Ok(Outcome::No),
        PredicateOfNone::LineFeed => {
            let text = Text::new(alloc, "\n")?;
            Ok(Outcome::Out(text))
        }
    }
}

/// A call of a predicate with one argument.
fn call_of_one<S: StateStore>(
    alloc: Global,
    s: &S,
    predicate: PredicateOfOne,
    a: Ref,
) -> Result<Outcome, Stop>
    ensures { (t : Tree) (e : Effect) → HoldsNoCycle (S.seen s.now) → IsTerm (S.seen s.now) a t →
        built_in_predicate (test_name predicate) (tree t no_trees) (S.seen s.now).now.state ≡ Some e →
        ShowsOutcome (S.seen s.now) (S.seen s.now) result e }
{
    match predicate {
        PredicateOfOne::Kind(kind) => Ok(outcome_of(is_of_kind(s, kind, a))),
        PredicateOfOne::Ground => tested(is_closed(alloc, s, a)),
        PredicateOfOne::Throw => Err(Stop::Raised(Fault::Thrown(a))),
        PredicateOfOne::Print => written(text_before(alloc, s, a, false, "")),
        PredicateOfOne::PrintLine => written(text_before(alloc, s, a, false, "\n")),
        PredicateOfOne::Write => written(text_before(alloc, s, a, true, "")),
        PredicateOfOne::WriteLine => written(text_before(alloc, s, a, true, "\n")),
    }
}

/// A call of a predicate with two arguments.
fn call_of_two<S: StateStore>(
    alloc: Global,
    s: &mut S,
    predicate: PredicateOfTwo,
    a: Ref,
    b: Ref,
) -> Result<Outcome, Stop>
    ensures keeps { Keeps (S.seen s.old) (S.seen s.new) }
    ensures stays { may_bind (Predicate.OfTwo predicate) ≡ false → Stays (S.seen s.old) (S.seen s.new) }
    ensures shows { (t u : Tree) (e : Effect) → IsState (S.seen s.old).now.state → IsTerm (S.seen s.old) a t →
        IsTerm (S.seen s.old) b u → built_in_predicate (pair_name predicate) (tree t (tree u no_trees)) (S.seen s.old).now.state ≡
        Some e → ShowsOutcome (S.seen s.old) (S.seen s.new) result e }
{
    match predicate {
        PredicateOfTwo::Unify => tested(make_equal(alloc, s, a, b)),
        PredicateOfTwo::Differ => tested(differ(alloc, s, a, b)),
        PredicateOfTwo::Integers(relation) => tested(are_related(s, relation, a, b)),
        PredicateOfTwo::Terms(relation) => tested(are_ordered(alloc, s, relation, a, b)),
    }
}

/// What a test comes to.
fn outcome_of(holds: bool) -> Outcome
    ensures { result ≡ outcome_of holds }
{
    if holds { Outcome::Yes } else { Outcome::No }
}

/// What a test comes to, or what is raised.
fn tested(holds: Result<bool, Stop>) -> Result<Outcome, Stop>
    ensures { result ≡ tested holds }
{
    match holds {
        Ok(holds) => Ok(outcome_of(holds)),
        Err(stop) => Err(stop),
    }
}

/// What comes of a text that is to be written, or what is raised.
fn written(text: Result<Text, Stop>) -> Result<Outcome, Stop>
    ensures { result ≡ written text }
{
    match text {
        Ok(text) => Ok(Outcome::Out(text)),
        Err(stop) => Err(stop),
    }
}

/// `printf`: the first argument is the format of the others.
fn write_formatted<S: StateStore>(alloc: Global, s: &S, args: &[Ref]) -> Result<Outcome, Stop>
    ensures { (ts : Trees) (e : Effect) → HoldsNoCycle (S.seen s.now) → AreTerms (S.seen s.now) args.now ts →
        built_in_predicate (predicate_name Predicate.Printf) ts (S.seen s.now).now.state ≡ Some e →
        ShowsOutcome (S.seen s.now) (S.seen s.now) result e }
{
    let Some((format, rest)) = args.split_first() else {
        return Err(Stop::Memory);
    };
    written(printf(alloc, s, *format, rest))
}
