//! What the libraries of cases share: files of cases and their lines, a case with its words and its answer, and terms, patterns
//! and domains in words.
#![tactic(auto)]

mod case;
mod constraints;
mod domains;
mod events;
mod fault;
mod files;
mod given;
mod nodes;
mod patterns;
mod rows;
mod taking;
mod telling;
mod terms;
mod words;
mod written;

pub use case::Case;
pub use constraints::take_constraint;
pub use domains::{spans_of, tell_domain, tell_domains, tell_span};
pub use events::{EventKind, take_event_kind};
pub use fault::Problem;
pub use files::{Subjects, run};
pub use given::{Given, take_given};
pub use nodes::{Node, node_of};
pub use patterns::{patterns_of, tell_flat};
pub use rows::named;
pub use terms::{push_term, term_of};
pub use written::bytes_of;
