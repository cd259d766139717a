//! Laws of the machine: those of the machine as data, and how a machine's events stand to the runs of its query.
ghost use Rattle.pi_engine.specs.Runs.{DoneIsTheEnd, RaisedIsTheEnd, TicksAdd};

pub use pi_meaning::laws::machine::{runs_lead_on, runs_stop, steps_are_right};

/// Where a machine's run has ended, its events and its end are the whole run.
pub fn machines_run<M>()
    ensures done { DoneIsTheEnd M }
    ensures raised { RaisedIsTheEnd M }
    ensures ticks { TicksAdd }
{}
