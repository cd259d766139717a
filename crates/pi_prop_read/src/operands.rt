//! How operands of constraints are read without recursion: what waits for a sum, and what each turn does.
mod frames;
mod node;
mod nodes;
mod read;
mod stop;
mod turns;

pub use frames::{Frame, Next, Turn};
pub use node::{Binary, Node, Unary};
pub use read::read_operand;
pub use stop::OperandStop;
