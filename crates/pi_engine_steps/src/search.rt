//! Searches of `solve` for the best answer: how they begin, and what they make of an answer.
ghost use Rattle.std.specs.Prelude.{◌≡◌, List, Some, IfOk, option_map, unwrap_or};
ghost use Rattle.pi_constraints.specs.declared.store.Ref.{Ref};
ghost use Rattle.pi_terms.specs.Tree.{Tree};
ghost use Rattle.pi_constraints.specs.State.{IsState, SpeaksBelow, next};
ghost use Rattle.pi_constraints.specs.Store.{StoreView, Terms, IsTerm, Stays};
ghost use Rattle.pi_core.specs.CoreTree.{PredTree};
ghost use Rattle.pi_effects.specs.Effect.{Effect};
ghost use Rattle.pi_unify.specs.Terms.{HoldsNoCycle};
ghost use Rattle.pi_engine_code.specs.Code.{tables_of};
ghost use Rattle.pi_engine_arenas.specs.declared.arenas.Entry.{Entry};
ghost use Rattle.pi_engine_arenas.specs.Arenas.{view_of, entry_at, IsLevel};
ghost use Rattle.pi_engine_stands.specs.Makes.{AnswersLevel, search_at};
ghost use Rattle.pi_engine_stands.specs.Rounds.{Reopens, in_phase, LabelsRound, WeighsAnswer, TellsNoInteger, GoesOnWith, IsTheAnswer, BeginsRound, PostsBetter};
ghost use Rattle.pi_settling.specs.Rounds.{count_better};
ghost use Rattle.pi_engine_settle.specs.Due.{SinceIs};
ghost use Rattle.pi_engine_stands.specs.Does.{ComesAfter};
ghost use Rattle.pi_engine_stands.specs.Stands.{IsCodeOf};
ghost use Rattle.pi_engine_stands.specs.Searches.{Searches, round_end, FindsRound};
ghost use Rattle.pi_engine_stands.specs.Changes.{Changes, ChangesBy};
ghost use Rattle.pi_engine_steps.specs.Done.{Leaves};
ghost use Rattle.pi_engine_steps.specs.Rounds.{ShowsPosting};

use crate::built_ins::raised;
use crate::calls::to_caller;
use crate::choices::{alone, push_entry};
use crate::constraints::see_terms;
use crate::raises::take_block;
use crate::settling::next_after;
use crate::solve::label_plainly;
use pi_constraints::{Cell, KeptStates, Ref, StateStore, StoredDomains};
use pi_effects::{Fault, Kind as Wanted, Stop};
use pi_engine_arenas::{Arenas, Back, Kind, Now, Point, Run, Search, Strict};
use pi_engine_code::{Code, Step};
use pi_engine_settle::{Since, begin};
use pi_label::{Objective, Options};
use pi_lib::two;
use pi_lib_solve::{ask, begin as begin_reading, better, count_better, plain_words, worth};
use std::alloc::{AllocError, Global};

/// Begins a search by a call of `solve`: what the reading of its expression posts is settled inside of its level.
#[inline(never)]
pub(crate) fn search<S: StoredDomains>(
    code: &Code<'_>,
    run: &mut Run<S>,
    point: Point,
    step: Step,
    options: Options,
    objective: Objective,
) -> Result<(), AllocError>
    ensures { IfOk result (λ _. ChangesBy S.seen S.order code.now run.old run.new (Searches point step options objective run.old.terms.items)) }
{
    let Some((_words, vars)) = two(&run.terms) else {
        return Ok(());
    };
    let wanted = objective.expression;
    let plain = plain_words(&mut run.store, &options)?;
    let Some(goal) = round_goal(code, &mut run.store)? else {
        return Ok(());
    };
    let frame = run.arenas.frame_behind(point, step)?;
    let base = run.arenas.blocks.count();
    run.arenas.blocks.push_terms(&[plain, vars, wanted])?;
    let site = Search {
        place: point.place,
        goal,
        caller: point.base,
        greatest: objective.greatest,
        is_settling: true,
    };
    push_entry(run, base, frame, Kind::Strict(Strict::Search(site)))?;
    run.arenas.open();
    let since = begin(&mut run.store)?;
    let posted = begin_reading(run.alloc, &mut run.store, wanted);
    let next = after_posting(run.alloc, &run.store, &since, posted, base)?;
    run.now = next;
    Ok(())
}

/// Where the goal stands that labels in a round: that by which `solve` is called with two arguments.
fn round_goal<S: StateStore>(code: &Code<'_>, store: &mut S) -> Result<Option<u32>, AllocError>
    ensures stays { IfOk result (λ _. Stays (S.seen store.old) (S.seen store.new)) }
    ensures below { IfOk result (λ _. (q : Ref) (t : Tree) → IsTerm (S.seen store.new) q t →
        SpeaksBelow (next (S.seen store.new).now.state) t) }
    ensures finds { IfOk result (λ found. (t : Terms) (preds : List PredTree) → HoldsNoCycle (S.seen store.old) →
        IsCodeOf code.now (tables_of t code.now) (S.seen store.new).names preds →
        FindsRound (tables_of t code.now) code.now.steps.items found) }
{
    let name = store.put_atom("solve")?;
    match store.look(name) {
        Cell::Atom(number) => Ok(code.goal_named(number, 2)),
        Cell::Var(_) => Ok(None),
        Cell::Int(_) => Ok(None),
        Cell::Comp(_, _) => Ok(None),
    }
}

/// What is next after the posting of a round, which began there: it is settled, and then the level has an answer; or what is raised.
fn after_posting<S: StateStore>(
    alloc: Global,
    store: &S,
    since: &Option<Since<S::Mark>>,
    posted: Result<(), Stop>,
    base: usize,
) -> Result<Now, AllocError>
    ensures { IfOk result (λ now. (v : StoreView S.Mark) (e : Effect) → IsState v.now.state →
        SinceIs (S.seen store.now) v.now.state since.now → ShowsPosting v (S.seen store.now) posted e → Leaves v.now.state e →
        ComesAfter v.now.state (round_end base) e (S.seen store.now).now.state now) }
{
    match posted {
        Ok(()) => next_after(alloc, store, since, true, end_of_round(base)),
        Err(stop) => Ok(Now::Raising(raised(alloc, store, stop)?)),
    }
}

/// The point at which a round has nothing left to do, in the block of its search.
fn end_of_round(base: usize) -> Point
    ensures { result ≡ round_end base }
{
    Point {
        place: 0,
        count: 0,
        base,
        frame: 0,
    }
}

/// What a search makes of an answer of its level: what the round posted is settled, and it labels; or a labelling has an answer.
#[inline(never)]
pub(crate) fn answer_search<S: KeptStates>(
    code: &Code<'_>,
    run: &mut Run<S>,
    level: usize,
    back: Back,
    site: Search,
) -> Result<(), AllocError>
    ensures { IfOk result (λ _. ChangesBy S.seen S.order code.now run.old run.new (λ made. IsLevel (view_of run.old.arenas) level back →
        back.kind ≡ search_at site → AnswersLevel made)) }
{
    reopen(&mut run.arenas, level, back);
    if site.is_settling {
        label_round(code, run, level, back, site)
    } else {
        weigh(run, level, back, site)
    }
}

/// Goes back to a level, whose entry has this number and stays: what was made for its goal is given back. The store stays as it is.
fn reopen<M: Drop>(arenas: &mut Arenas<M>, level: usize, back: Back)
    ensures { (x : Entry M) → entry_at arenas.old.entries.items level ≡ Some x → x.back ≡ back →
        Reopens (view_of arenas.old) (view_of arenas.new) level back }
{
    arenas.truncate(level);
    arenas.come_back(back);
    arenas.open();
}

/// Labels in a round, whose posting is settled.
fn label_round<S: StoredDomains>(
    code: &Code<'_>,
    run: &mut Run<S>,
    level: usize,
    back: Back,
    site: Search,
) -> Result<(), AllocError>
    ensures { IfOk result (λ _. ChangesBy S.seen S.order code.now run.old run.new (LabelsRound level back site)) }
{
    run.arenas.set_kind(level, in_phase(site, false));
    take_block(&run.arenas.blocks, back.base, 2, &mut run.terms)?;
    match ask(run.alloc, &run.store, &run.terms) {
        Ok(asked) => label_plainly(
            run,
            alone(site.goal, back.base, 0),
            code.step(site.goal),
            asked,
        ),
        Err(stop) => {
            let ball = raised(run.alloc, &run.store, stop)?;
            run.now = Now::Raising(ball);
            Ok(())
        }
    }
}

/// What the entry of a search waits for in a phase of a round.
fn in_phase(site: Search, is_settling: bool) -> Kind
    ensures { result ≡ search_at (in_phase site is_settling) }
{
    Kind::Strict(Strict::Search(Search {
        place: site.place,
        goal: site.goal,
        caller: site.caller,
        greatest: site.greatest,
        is_settling,
    }))
}

/// Weighs the answer of a round by what the expression comes to. An expression that is no integer there is told.
fn weigh<S: KeptStates>(
    run: &mut Run<S>,
    level: usize,
    back: Back,
    site: Search,
) -> Result<(), AllocError>
    ensures { IfOk result (λ _. Changes S.seen S.order run.old run.new (WeighsAnswer level back site)) }
{
    let Some(wanted) = run.arenas.blocks.get(back.base.saturating_add(2)) else {
        return Ok(());
    };
    let found = worth(run.alloc, &run.store, wanted)?;
    let Some(value) = found else {
        return tell_no_integer(run, level, back, site, wanted);
    };
    next_round(run, level, back, site, wanted, value)
}

/// Tells that the expression of a search, by this Ref, is no integer.
fn tell_no_integer<S: StateStore>(
    run: &mut Run<S>,
    level: usize,
    back: Back,
    site: Search,
    wanted: Ref,
) -> Result<(), AllocError>
    ensures { IfOk result (λ _. Changes S.seen S.order run.old run.new (TellsNoInteger level back site wanted)) }
{
    let fault = Fault::WrongKind(Wanted::Integer, wanted);
    let ball = raised(run.alloc, &run.store, Stop::Raised(fault))?;
    run.arenas.leave(level, to_caller(back, site.caller));
    run.now = Now::Raising(ball);
    Ok(())
}

/// Goes on after an answer with this value: it is the search's where no round may follow; else the next round begins, in which a better
/// value is posted.
fn next_round<S: KeptStates>(
    run: &mut Run<S>,
    level: usize,
    back: Back,
    site: Search,
    wanted: Ref,
    value: i128,
) -> Result<(), AllocError>
    ensures { IfOk result (λ _. Changes S.seen S.order run.old run.new (GoesOnWith level back site wanted value)) }
{
    let left = rounds_left(run, level, site.greatest, value);
    if left == 0 {
        answer_by(run, level, back, site);
        return Ok(());
    }
    begin_round(run, level, back, site, wanted, value, left - 1)
}

/// How many rounds may follow an answer with this value, of the search whose entry has this number.
fn rounds_left<S: KeptStates>(run: &Run<S>, level: usize, greatest: bool, value: i128) -> u128
    ensures { (x : Entry S.Mark) → entry_at run.exit.now.arenas.entries.items level ≡ Some x → result ≡
        unwrap_or (option_map (λ b. b.number) ((S.seen run.exit.now.store).beside x.mark)) (count_better greatest value) }
{
    let Some(entry) = run.arenas.entry(level) else {
        return 0;
    };
    match run.store.number_beside(&entry.mark) {
        Some(left) => left,
        None => count_better(greatest, value),
    }
}

/// The answer of a round is the search's: its level is left.
fn answer_by<S: StateStore>(run: &mut Run<S>, level: usize, back: Back, site: Search)
    ensures { Changes S.seen S.order run.old run.new (IsTheAnswer level back site) }
{
    run.now = Now::Going(run.arenas.leave(level, to_caller(back, site.caller)));
}

/// Begins the next round, after which so many may follow: the present state is kept, and the store goes back to where the search began.
fn begin_round<S: KeptStates>(
    run: &mut Run<S>,
    level: usize,
    back: Back,
    site: Search,
    wanted: Ref,
    value: i128,
    left: u128,
) -> Result<(), AllocError>
    ensures { IfOk result (λ _. Changes S.seen S.order run.old run.new (BeginsRound level back site wanted value left)) }
{
    let Some(entry) = run.arenas.entry(level) else {
        return Ok(());
    };
    let kept = run.store.keep(run.alloc, &entry.mark, left)?;
    run.store.undo(&kept);
    run.arenas.set_mark(level, kept);
    run.arenas.set_kind(level, in_phase(site, true));
    post_better(run, back.base, wanted, site.greatest, value)
}

/// Posts that the expression of a search, by this Ref, has a better value than this one, in the block of the search.
fn post_better<S: StoredDomains>(
    run: &mut Run<S>,
    base: usize,
    wanted: Ref,
    greatest: bool,
    value: i128,
) -> Result<(), AllocError>
    ensures { IfOk result (λ _. Changes S.seen S.order run.old run.new (PostsBetter base wanted greatest value)) }
{
    see_terms(&run.store);
    let since = begin(&mut run.store)?;
    let posted = better(run.alloc, &mut run.store, wanted, greatest, value);
    let next = after_posting(run.alloc, &run.store, &since, posted, base)?;
    run.now = next;
    Ok(())
}
