//! Blocks of numbers in a region: lists of numbers, domains, constraints and agents.
//! Terms as words of a region: what a Ref says by itself, what stands where it points, and which names they may have.
#![tactic(auto)]

mod agents;
mod block;
mod constraints;
mod domains;
mod form;
mod header;
pub mod laws;
mod lists;
mod look;
mod numbers;
mod placed;
mod put;
mod raw_names;
mod stack;
pub mod wide;
mod written;

pub use agents::{
    add_agent, agent_call, agent_end, agent_rule, end_agent, is_alive, read_watches, watched,
    write_agent,
};
pub use constraints::{numbered_constraint, read_constraint, write_constraint};
pub use domains::{read_domain, span, span_count, write_domain};
pub use form::{Form, is_ref};
pub use header::Header;
pub use lists::{Node, add_node, listed};
pub use look::{arg, cell, is_ground};
pub use placed::is_placed;
pub use put::{put_atom, put_compound, put_int, var_ref};
pub use raw_names::RawNames;
pub use stack::take_last;
pub use written::give_up;
