//! The tokens of a program, a goal or a line of input, with their lines.
#![tactic(auto)]

mod blanks;
mod fault;
mod form;
mod integers;
mod item;
mod laws;
mod names;
mod quoted;
mod reader;
mod signs;
mod spelling;
mod store;
mod token_list;

pub use fault::LexFault;
pub use laws::{digit_forms, every_text_lexes, longest_sign, quoted_forms};
pub use reader::{one_reading, tokens};
pub use token_list::{TokenKind, Tokens};
