//! Texts: of terms, of answers and of programs.
#![tactic(auto)]

pub use pi_print_program::program_text;
pub use pi_print_terms::{Lines, answer_text, term_text};
