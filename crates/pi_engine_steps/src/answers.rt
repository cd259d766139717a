//! The answers of a query.
ghost use Rattle.std.specs.Prelude.{◌≡◌, ◌<◌, Some, IfOk};
ghost use Rattle.pi_terms.specs.Places.{Places};
ghost use Rattle.pi_constraints.specs.State.{IsState};
ghost use Rattle.pi_terms.specs.Tree.{var};
ghost use Rattle.pi_constraints.specs.Evaluation.{evaluated};
ghost use Rattle.pi_engine_stands.specs.Here.{Block};
ghost use Rattle.pi_engine_stands.specs.Answers.{NamesValue, AnswersQuery};
ghost use Rattle.pi_engine_stands.specs.Changes.{Changes, HoldsIn};
ghost use Rattle.pi_engine_arenas.specs.Runs.{across, state_in};

use crate::lists::read_value;
use crate::raises::too_large;
use crate::values::{slot_at, slot_value};
use pi_constraints::StateStore;
use pi_core::{Answer, NameSlot, NamedTerm};
use pi_engine_arenas::Run;
use pi_terms::{Series, Term};
use pi_unify::domains_in;
use std::alloc::AllocError;

/// The answer that the present state is, or what is raised where the value of a name is too large.
#[inline(never)]
pub fn answer<S: StateStore>(
    run: &mut Run<S>,
    names: &[NameSlot],
) -> Result<Result<Answer, Term>, AllocError>
    ensures { IfOk result (λ told. Changes S.seen S.order run.old run.new (AnswersQuery names.now told)) }
{
    let mut values = Series::new(run.alloc);
    for named in names {
        let Some(value) = named_value(run, named)? else {
            return Ok(Err(too_large(run)?));
        };
        values.push(value)?;
    }
    let domains = domains_in(run.alloc, &run.store, values.as_slice())?;
    Ok(Ok(Answer { values, domains }))
}

/// A named variable with its value; None where that is too large. A name whose slot is empty is a new variable.
fn named_value<S: StateStore>(
    run: &mut Run<S>,
    named: &NameSlot,
) -> Result<Option<NamedTerm>, AllocError>
    ensures { IfOk result (λ found. (b : Block) (e : Places) → b.base ≡ 0 → b.first ≡ 0 → named.now.slot < b.count →
        HoldsIn S.seen run.old b e → IsState (state_in S.seen run.old) →
        NamesValue b (across S.seen run.old run.new) named.now
        (evaluated (var named.now.slot) e (state_in S.seen run.old)) found) }
{
    let name = named.name.copy(run.alloc)?;
    let term = slot_value(run, slot_at(0, named.slot))?;
    let Some(value) = read_value(run, term)? else {
        return Ok(None);
    };
    Ok(Some(NamedTerm { name, value }))
}
