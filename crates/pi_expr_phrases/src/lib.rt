//! Terminals, phrases that are open, and trees with their levels: what a reader of expressions has while it reads.
#![tactic(auto)]

pub mod built;
mod choices;
mod closing;
mod frame;
mod items;
mod natural;
mod phrase;
mod signs;
mod terminal;
mod terminals;

pub use built::Built;
pub use choices::Choices;
pub use closing::closed;
pub use frame::{Closing, Frame, Turn, found, found_behind, open_behind, open_when};
pub use items::Items;
pub use natural::Natural;
pub use phrase::{Line, Phrase};
pub use terminal::{Mark, Terminal};
pub use terminals::{Ahead, Terminals, behind, front, reach, starts_with};
