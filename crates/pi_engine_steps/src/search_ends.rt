//! Searches of `solve` for the best answer: how they end.
ghost use Rattle.std.specs.Prelude.{◌≡◌, true, Some, IfOk, is_some};
ghost use Rattle.pi_engine_arenas.specs.declared.arenas.Entry.{Entry};
ghost use Rattle.pi_engine_arenas.specs.Arenas.{newest};
ghost use Rattle.pi_engine_stands.specs.Makes.{search_at};
ghost use Rattle.pi_engine_stands.specs.Fails.{EndsLevel};
ghost use Rattle.pi_engine_stands.specs.Changes.{Changes};

use crate::calls::to_caller;
use pi_constraints::KeptStates;
use pi_engine_arenas::{Back, Now, Run, Search};
use std::alloc::AllocError;

/// A search, whose entry is the newest, has no further round: the answer that was found last is the search's.
#[inline(never)]
pub(crate) fn end_search<S: KeptStates>(
    run: &mut Run<S>,
    back: Back,
    site: Search,
) -> Result<(), AllocError>
    ensures { IfOk result (λ _. Changes S.seen S.order run.old run.new (λ made. back.kind ≡ search_at site → EndsLevel back made)) }
{
    let has_answer = has_found(run);
    if has_answer {
        return give_found(run, back, site);
    }
    run.arenas.pop();
    run.now = Now::Failing;
    Ok(())
}

/// The newest entry has an answer that was found.
fn has_found<S: KeptStates>(run: &Run<S>) -> bool
    ensures { (x : Entry S.Mark) → newest run.exit.now.arenas.entries.items ≡ Some x → is_some ((S.seen run.exit.now.store).beside x.mark) ≡ result }
{
    let Some(entry) = run.arenas.newest() else {
        return false;
    };
    run.store.number_beside(&entry.mark).is_some()
}

/// The answer of a search that was found last is brought back, and its level is left.
fn give_found<S: KeptStates>(run: &mut Run<S>, back: Back, site: Search) -> Result<(), AllocError>
    ensures { IfOk result (λ _. Changes S.seen S.order run.old run.new (λ made. back.kind ≡ search_at site →
        (x : Entry S.Mark) → newest made.before.arenas.entries ≡ Some x → is_some (made.before.store.beside x.mark) ≡ true → EndsLevel back made)) }
{
    let Some(entry) = run.arenas.newest() else {
        return Ok(());
    };
    run.store.bring_back(&entry.mark)?;
    let level = run.arenas.count();
    run.now = Now::Going(run.arenas.leave(level, to_caller(back, site.caller)));
    Ok(())
}
