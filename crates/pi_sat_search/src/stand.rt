//! How far a search is.
use pi_sat_spec::Assignment;

/// How far a search is: open, or with an answer that stays.
pub enum Stand {
    Open,
    Yes(Assignment),
    No,
    Memory,
}

// By hand, so that letting one go is a call and not its parts at each way out.
impl Drop for Stand {
    fn drop(self) {
        match self {
            Stand::Open => {}
            Stand::Yes(_) => {}
            Stand::No => {}
            Stand::Memory => {}
        }
    }
}
