//! Laws of the paths of labelling and draining.
ghost use Rattle.pi_meaning.specs.Shared.Settle.{settled};
ghost use Rattle.pi_resume_spec.specs.StageLaws.{SettlesOnce, LabellingAddsNothing, LabellingIsGuided, SolvingAddsNothing, SolvingIsGuided, DrainingAddsNothing, DrainingIsGuided};
ghost use Rattle.pi_resume_spec.specs.StageMore.{LabellingFollowsMore, SolvingFollowsMore, DrainingFollowsMore};

/// Labelling with the paths of its alternatives is labelling, and its paths lead apart, each to its answer, where settling has one answer at most, as that of the meaning has.
pub fn labellings_have_paths()
    ensures once { SettlesOnce settled }
    ensures plain { LabellingAddsNothing }
    ensures guided { LabellingIsGuided }
    ensures solve { SolvingAddsNothing }
    ensures solve_guided { SolvingIsGuided }
{}

/// So it is of what runs the activations that wait, whatever a place behind a rule's condition is.
pub fn drainings_have_paths<X>()
    ensures plain { DrainingAddsNothing X }
    ensures guided { DrainingIsGuided X }
{}

/// More depth only adds to labelling, to `solve` and to draining, also where they follow numbers.
pub fn stages_follow_more<X>()
    ensures labelling { LabellingFollowsMore }
    ensures solve { SolvingFollowsMore }
    ensures draining { DrainingFollowsMore X }
{}
