//! Laws of settling.
ghost use Rattle.pi_settling.specs.SettlingLaws.{StableIsOne, SettledIsOne, SettlingIsOne, StableLiesBelow, SettlingKeepsSolutions, SolutionsStay, StableIsAState, StableIsUnchanged, StableMaySettle, NoChangeNoEvents, StableStaysStable, SettlingTwiceIsOnce, LeadsAreFollowed, AgentsAreWokenOnce};

/// A state has one stable state at most, and settling comes to one trace at most. So all ways to settle do the same.
pub fn stable_states_are_one()
    ensures one { StableIsOne }
    ensures settled { SettledIsOne }
    ensures ways { SettlingIsOne }
{}

/// The stable domains lie below those of the state, lose no solution, and are the greatest that no filter changes. A state and
/// its stable state have the same solutions,
/// and the stable state is a state that may be settled.
pub fn stable_domains_are_the_greatest()
    ensures below { StableLiesBelow }
    ensures solutions { SettlingKeepsSolutions }
    ensures stay { SolutionsStay }
    ensures state { StableIsAState }
    ensures again { StableMaySettle }
    ensures unchanged { StableIsUnchanged }
{}

/// Where nothing changed there are no events. A stable state is its own stable state, and settling it again adds nothing.
pub fn settling_again_adds_nothing()
    ensures events { NoChangeNoEvents }
    ensures stable { StableStaysStable }
    ensures once { SettlingTwiceIsOnce }
{}

/// An event wakes an agent once at most, by the first of its patterns that it answers: those whose variable is the event's or leads to it.
pub fn events_wake_agents_once()
    ensures leads { LeadsAreFollowed }
    ensures once { AgentsAreWokenOnce }
{}
