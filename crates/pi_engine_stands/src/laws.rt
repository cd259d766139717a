//! What entries keep, and what a return to one brings back. Each law is a clause of a function that does nothing.
ghost use Rattle.pi_engine_stands.specs.ComesBack.{EntriesKeepOneMark, ReturnsToTheMaking};

/// A run has an entry for each that waits in the configuration that it stands for. Each keeps one mark, which is good and
/// brings back the state in which the entry was made, and its place in the program; and where the newest is come back to, that
/// state is there again.
pub fn entries_come_back<M>()
    ensures one_mark { EntriesKeepOneMark M }
    ensures returns { ReturnsToTheMaking M }
{}
