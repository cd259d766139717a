//! Programs and goals that tokens write, and the first fault of those that are none.
#![tactic(auto)]

mod goal;
mod laws;
mod prelude;
mod prelude_laws;
mod program;
mod reading;

pub use goal::read_goal;
pub use laws::one_verdict;
pub use pi_prog_clauses::ProgFault;
pub use prelude::read_prelude;
pub use prelude_laws::prelude_is_its_text;
pub use program::read_program;
pub use reading::read_parts;
pub use reading::stretch::is_end;

/// The most different names that the variables of a part may have; all `_` count as one.
pub const MAX_NAMES: usize = 4096;
