//! Domains that are narrowed where they stand, the places of a constraint, and filters of sums over them.
#![tactic(auto)]

mod asks;
mod bounds;
mod cuts;
mod domains;
mod holes;
mod keeps;
mod narrowed;
mod places;
mod roots;
mod shared;
mod sums;
mod terms;
mod whole;

pub use bounds::{extremes, extremes_at};
pub use keeps::{keep_between, keep_scaled, take_between};
pub use narrowed::Narrowed;
pub use places::Places;
pub use roots::is_fixed;
pub use sums::{filter_opposite, filter_sum};
pub use terms::{Extremes, has_with};
pub use whole::{have_values, take_all};
