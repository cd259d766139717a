//! What a reading of constraints makes: joined sums, of which each step is judged and costs what it changes, new variables, and
//! finished constraints.
#![tactic(auto)]

mod coefficient;
mod items;
mod limits;
mod making;
mod posting;
mod products;
mod sides;
mod standing;
mod stop;
mod sum;
mod sum_limits;
mod terms;
mod to_zero;

pub use items::{JudgedItems, integer_item};
pub use limits::Limit;
pub use making::Making;
pub use posting::Posting;
pub use stop::SumStop;
pub use sum::JoinedSum;
pub use to_zero::ToZero;
