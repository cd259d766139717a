//! Laws of agents.
ghost use Rattle.pi_settling.specs.AgentLaws.{DrainingNothing, EndedArePassedOver, FirstInFirstOut, DrainingDoesMore};

/// Draining nothing is nothing. Of what waits the first runs first, and what comes of it is drained; what an ended agent waits
/// for is passed over.
pub fn what_waits_runs_in_order<X>()
    ensures nothing { DrainingNothing X }
    ensures ended { EndedArePassedOver X }
    ensures order { FirstInFirstOut X }
{}

/// Draining does the same and maybe more at a greater depth.
pub fn draining_does_more<X>()
    ensures { DrainingDoesMore X }
{}
