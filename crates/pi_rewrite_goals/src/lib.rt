//! Goals and expressions, lowered.
//! Iterators and tests of loops: what each of them is before it is put, how they stand open, and how they are closed around
//! what stands in the loop.
#![tactic(auto)]

mod assigned;
mod branches;
mod calls;
mod goals;
mod gone_over;
mod inner;
mod iterated;
mod loops;
mod opened;
mod over;
mod put;
mod slotted;
mod structures;
mod turn_sites;
mod turns;
mod units;
mod values;
mod whole;

pub use goals::lower_goal;
pub use gone_over::Over;
pub use inner::{Inner, Planned, gathering, inner_of, kept_by, plan_of, start_loop};
pub use iterated::{Start, begin, finish, gathered_at};
pub use opened::{Inside, Iterated, Open, close};
pub use pi_rewrite_loops::in_turn;
pub use turn_sites::turns_of;
pub use values::lower_value;
