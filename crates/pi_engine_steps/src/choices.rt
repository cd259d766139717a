//! Sequences, alternatives, and the return to the newest entry.
ghost use Rattle.std.specs.Prelude.{◌≡◌, Some, IfOk, length};
ghost use Rattle.pi_engine_code.specs.declared.code.Node.TheVariants.{Seq, Alt};
ghost use Rattle.pi_engine_arenas.specs.declared.run.Now.TheVariants.{Going};
ghost use Rattle.pi_engine_arenas.specs.Arenas.{newest, PushesEntry, ReturnsToNewest, keeping};
ghost use Rattle.pi_engine_arenas.specs.declared.arenas.Entry.{Entry};
ghost use Rattle.pi_engine_arenas.specs.declared.arenas.Kind.TheVariants.{Branches};
ghost use Rattle.pi_engine_stands.specs.Makes.{RunsGoal};
ghost use Rattle.pi_engine_stands.specs.Fails.{GoesOnWithBranch};
ghost use Rattle.pi_engine_stands.specs.Changes.{Changes, ChangesBy};
ghost use Rattle.pi_engine_arenas.specs.Runs.{across};

use pi_constraints::StateStore;
use pi_engine_arenas::{Back, Kind, Now, Point, Run};
use pi_engine_code::{Code, Step};
use std::alloc::AllocError;

/// Enters a sequence of so many goals.
#[inline(always)]
pub fn enter_sequence<S: StateStore>(
    run: &mut Run<S>,
    point: Point,
    step: Step,
    count: u32,
) -> Result<(), AllocError>
    ensures { IfOk result (λ _. step.node ≡ Seq count → Changes S.seen S.order run.old run.new (RunsGoal point step)) }
{
    let frame = run.arenas.frame_behind(point, step)?;
    run.now = Now::Going(Point {
        place: point.place.saturating_add(1),
        count,
        base: point.base,
        frame,
    });
    Ok(())
}

/// Enters alternatives, of which there are so many. The last one leaves no entry.
#[inline(never)]
pub fn enter_alternatives<S: StateStore>(
    code: &Code<'_>,
    run: &mut Run<S>,
    point: Point,
    step: Step,
    count: u32,
) -> Result<(), AllocError>
    ensures { IfOk result (λ _. step.node ≡ Alt count → ChangesBy S.seen S.order code.now run.old run.new (RunsGoal point step)) }
{
    if count == 0 {
        run.now = Now::Failing;
        return Ok(());
    }
    let frame = run.arenas.frame_behind(point, step)?;
    let first = code.child(point.place, 0);
    if count > 1 {
        let kind = Kind::Branches(code.behind(first), count.saturating_sub(1));
        push_entry(run, point.base, frame, kind)?;
    }
    run.now = one_goal(first, point.base, frame);
    Ok(())
}

/// Goes on with the branch at a place, of so many, for which the newest entry was kept.
#[inline(never)]
pub fn next_branch<S: StateStore>(
    code: &Code<'_>,
    run: &mut Run<S>,
    back: Back,
    place: u32,
    count: u32,
)
    ensures { ChangesBy S.seen S.order code.now run.old run.new (λ made. back.kind ≡ Branches place count →
        GoesOnWithBranch back made) }
{
    if count > 1 {
        let kind = Kind::Branches(code.behind(place), count.saturating_sub(1));
        run.arenas.set_newest(kind);
    } else {
        run.arenas.pop();
    }
    run.now = one_goal(place, back.base, back.frame);
}

/// The goal at a place, and then what the frame says.
pub fn one_goal(place: u32, base: usize, frame: usize) -> Now
    ensures { result ≡ Going (record { place = place; count = 1; base = base; frame = frame }) }
{
    Now::Going(alone(place, base, frame))
}

/// The point of one goal.
pub fn alone(place: u32, base: usize, frame: usize) -> Point
    ensures { result ≡ record { place = place; count = 1; base = base; frame = frame } }
{
    Point {
        place,
        count: 1,
        base,
        frame,
    }
}

/// Puts an entry on the stack that comes back to the present state.
pub fn push_entry<S: StateStore>(
    run: &mut Run<S>,
    base: usize,
    frame: usize,
    kind: Kind,
) -> Result<(), AllocError>
    ensures { IfOk result (λ _. PushesEntry S.order (across S.seen run.old run.new)
        (keeping (length run.old.arenas.blocks.slots) base frame kind)) }
{
    let slots = run.arenas.blocks.count();
    push_entry_at(run, slots, base, frame, kind)
}

/// The same, where only the first so many slots are to be kept.
#[inline(always)]
pub fn push_entry_at<S: StateStore>(
    run: &mut Run<S>,
    slots: usize,
    base: usize,
    frame: usize,
    kind: Kind,
) -> Result<(), AllocError>
    ensures { IfOk result (λ _. PushesEntry S.order (across S.seen run.old run.new) (keeping slots base frame kind)) }
{
    let mark = run.store.mark()?;
    run.arenas.push(mark, slots, base, frame, kind)
}

/// Brings back the state of the newest entry, which stays, where there is one.
#[inline(always)]
pub fn come_back<S: StateStore>(run: &mut Run<S>)
    ensures some { (x : Entry S.Mark) → newest run.old.arenas.entries.items ≡ Some x →
        ReturnsToNewest S.order (across S.seen run.old run.new) x.back }
    ensures entries { run.new.arenas.entries.items ≡ run.old.arenas.entries.items }
    ensures now { run.new.now ≡ run.old.now }
{
    if let Some(entry) = run.arenas.newest() {
        run.store.undo(&entry.mark);
        let back = entry.back;
        run.arenas.come_back(back);
    }
}
