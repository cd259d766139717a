//! Laws of runs.
ghost use Rattle.pi_settling.specs.PropagationLaws.{RunsKeepStates, RunsReachStableDomains, FailuresEmpty, RunsAreBounded};

/// A propagation that began in a state goes through states that may be settled.
pub fn runs_keep_states()
    ensures { RunsKeepStates }
{}

/// Where no constraint is due any more the stable domains of the state in which it began stand, and where a run fails one of them is empty.
pub fn runs_reach_stable_domains()
    ensures stable { RunsReachStableDomains }
    ensures emptied { FailuresEmpty }
{}

/// The runs and the constraints that are still due are no more than those that were due at the start and, for each constraint,
/// the values that its variables lost.
pub fn runs_are_bounded()
    ensures { RunsAreBounded }
{}
