//! Alternatives of a variable that a call of `solve` labels.
ghost use Rattle.std.specs.Prelude.{◌≡◌, List, Option, Some, IfOk, IfErr, option_map};
ghost use Rattle.pi_constraints.specs.declared.domain.Span.{Span};
ghost use Rattle.pi_constraints.specs.State.{IsState, domain_of};
ghost use Rattle.pi_constraints.specs.Store.{Keeps};
ghost use Rattle.pi_settling.specs.Choices.{alternatives as alternatives_of, left_by, narrowed_to};
ghost use Rattle.pi_label.specs.Follows.{Follows};
ghost use Rattle.pi_label.specs.Words.{value_word, alternative_of};
ghost use Rattle.pi_label.specs.declared.alternatives.Choice.{Choice};
ghost use Rattle.pi_meaning.specs.Machine.Budget.{Counts};
ghost use Rattle.pi_engine_stands.specs.Goes.{counting};
ghost use Rattle.pi_engine_stands.specs.Rests.{Rests};
ghost use Rattle.pi_engine_stands.specs.Settling.{NextLeft};
ghost use Rattle.pi_engine_stands.specs.Fails.{TriesAlternative, KeepsAlternatives, those_after};
ghost use Rattle.pi_engine_stands.specs.Changes.{Changes};
ghost use Rattle.pi_engine_arenas.specs.Arenas.{view_of};
ghost use Rattle.pi_engine_arenas.specs.declared.arenas.Kind.{Kind};

use crate::choices::alone;
use crate::settling::next_after;
use crate::ticks::tick;
use pi_constraints::StoredDomains;
use pi_engine_arenas::{Alternatives, Arenas, Back, Kind, Now, Point, Run};
use pi_engine_settle::begin;
use pi_label::Choice;
use pi_lib_solve::{narrow, next_choice};
use pi_meaning::{Budget, Mode};
use std::alloc::{AllocError, Global};

/// Tries the next alternative of a variable that is labelled, for which the newest entry was kept, and counts its Tick. What it
/// leaves is settled, and then the call is next once more.
#[inline(never)]
pub fn try_alternative<S: StoredDomains>(
    mode: Mode,
    run: &mut Run<S>,
    back: Back,
    place: u32,
    left: Alternatives,
    budget: &mut Budget,
) -> Result<(), AllocError>
    ensures counts { Counts mode budget.old budget.new }
    ensures tries { IfOk result (λ _. Changes S.seen S.order run.old run.new (λ made. back.kind ≡ Kind.Alternatives place left →
        TriesAlternative (counting mode budget.old budget.new) back made)) }
    ensures stops { IfErr result (λ _. budget.new ≡ budget.old) }
{
    let Some(choice) = next_choice(&run.store, left.variable, left.word, left.after) else {
        run.now = Now::Failing;
        return Ok(());
    };
    leave_later(&run.store, &mut run.arenas, place, left, choice);
    let point = alone(place, back.base, back.frame);
    let next = narrowed(run.alloc, &mut run.store, point, left.variable, choice)?;
    // Last, so that no memory is wanted once the Tick is counted.
    if tick(mode, &mut run.now, budget) {
        run.now = next;
    }
    Ok(())
}

/// Lets the newest entry wait for the alternatives after this one; where there is none, it is gone.
fn leave_later<S: StoredDomains>(
    store: &S,
    arenas: &mut Arenas<S::Mark>,
    place: u32,
    left: Alternatives,
    choice: Choice,
)
    ensures { (d : List Span) → IsState (S.seen store.now).now.state → domain_of (S.seen store.now).now.state left.variable ≡ Some d →
        (next : Option Choice)
        × Follows (alternatives_of (value_word left.word) d) (Some (alternative_of choice)) (option_map alternative_of next)
        × KeepsAlternatives place (those_after left choice) next (view_of arenas.old) (view_of arenas.new) }
{
    let later = Alternatives {
        variable: left.variable,
        word: left.word,
        after: Some(choice),
    };
    match next_choice(store, later.variable, later.word, later.after) {
        Some(_) => arenas.set_newest(Kind::Alternatives(place, later)),
        None => arenas.pop(),
    }
}

/// What is next after an alternative: the point, once what the alternative leaves is settled; the newest entry where it leaves no
/// value.
fn narrowed<S: StoredDomains>(
    alloc: Global,
    store: &mut S,
    point: Point,
    variable: u64,
    choice: Choice,
) -> Result<Now, AllocError>
    ensures keeps { Keeps (S.seen store.old) (S.seen store.new) }
    ensures next { IfOk result (λ now. (d : List Span) → Rests (S.seen store.old).now.state →
        domain_of (S.seen store.old).now.state variable ≡ Some d → NextLeft (S.seen store.old).now.state
        (narrowed_to (S.seen store.old).now.state variable (left_by (alternative_of choice) d)) (S.seen store.new).now.state point now) }
{
    let since = begin(store)?;
    let some = narrow(alloc, store, variable, choice)?;
    next_after(alloc, store, &since, some, point)
}
