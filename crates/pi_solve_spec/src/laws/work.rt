//! Laws of wanted calls and of counted work.
ghost use Rattle.pi_solve_spec.specs.WorkLaws.{EdgesStay, ChainsStay, WantedStaysWanted, NothingIsWanted, NothingIsEntered, OnlyRunsAreCounted, LoadsAdd, DepthAddsCounts, KnownAddsCounts, SumsAreMonotone, WholeLogsBound, ReachedBoundsExpanded, ExpandedAreReached, ChainsAreShort, WorkIsBounded, GreaterBudgetsLast};

/// Edges, chains of calls and wanted calls stay under each longer log. A query whose run misses no call under any log wants
/// none, so it enters none and adds no entry, and
/// its work is no more than the loads of its run.
pub fn wanted_calls_stay<A>()
    ensures edges { EdgesStay }
    ensures chains { ChainsStay }
    ensures wanted { WantedStaysWanted A }
    ensures nothing { NothingIsWanted A }
    ensures entered { NothingIsEntered A }
    ensures counted { OnlyRunsAreCounted A }
{}

/// Ticks and loads of a trace: in parts, at greater depths and under longer logs; and sums over calls.
pub fn counts_add<A>()
    ensures loads { LoadsAdd A }
    ensures depth { DepthAddsCounts A }
    ensures known { KnownAddsCounts A }
    ensures sums { SumsAreMonotone }
{}

/// What bounds the bodies of a state under the whole log bounds them under each front of it, and what bounds them at each
/// state that is reached does so at each that is expanded.
pub fn bodies_are_bounded()
    ensures whole { WholeLogsBound }
    ensures reached { ReachedBoundsExpanded }
{}

/// What calls expand is no more, together, than what they reach, and a chain of different calls is no longer than their list.
pub fn calls_are_bounded()
    ensures expanded { ExpandedAreReached }
    ensures chains { ChainsAreShort }
{}

/// Work that keeps to its bounds is at most their sum, so a budget above that is never spent.
pub fn greater_budgets_last<A>()
    ensures work { WorkIsBounded A }
    ensures budget { GreaterBudgetsLast A }
{}
