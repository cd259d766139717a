//! Agents as words of a region.
mod events;
mod read;
mod table;
mod write;

pub use events::watched;
pub use read::{agent_call, agent_rule, read_watches};
pub use table::{add_agent, agent_end, end_agent, is_alive};
pub use write::write_agent;
