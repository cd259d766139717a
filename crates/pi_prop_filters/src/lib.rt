//! The filters of all constraints, over places and over lists of domains.
#![tactic(auto)]

mod absolutes;
mod apart;
mod corners;
mod different;
mod distinct;
mod element;
mod ends;
mod full;
mod item_places;
mod items;
mod joins;
mod kinds;
mod leaves;
mod limits;
mod lists;
mod meeting;
mod narrowing;
mod products;
mod reified;
mod variables;

pub use item_places::places;
pub use kinds::filter_places;
pub use limits::{is_within_limits, place_count};
pub use lists::{filter, filter_distinct, filter_reified};
pub use narrowing::narrow;
