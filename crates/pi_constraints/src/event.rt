//! Events, and the agents that wait for them.
ghost use Rattle.std.specs.Prelude.{◌≡◌, IfOk};

use crate::store::Ref;
use pi_terms::{Series, Term};
use std::alloc::{AllocError, Global};

/// An event that an agent waits for: the term that stands for the event's variable, then the slot that the event's value
/// takes. A User's Guide to Picat, 'Action Rules'.
#[derive(Clone, Copy)]
pub enum Watch {
    Ins(Ref),
    Bound(Ref),
    Dom(Ref, u32),
    DomAny(Ref, u32),
    Posted(Ref, u32),
}

/// The events that an agent waits for, in order.
pub type Watches = Series<Watch>;

/// What happened to a variable, which is named by its number.
#[derive(Drop)]
pub enum Event {
    /// It is an integer, an atom or a compound now.
    Ins(u64),
    /// The least or the greatest value of its domain is another one.
    Bound(u64),
    /// Its domain lost this value, which lay strictly between the least and the greatest value before where the last part
    /// is true.
    Excluded(u64, i64, bool),
    /// This term was posted.
    Posted(u64, Term),
}

/// Events, in the order in which they are posted.
pub type Events = Series<Event>;

/// A run of an agent's rule that waits: the agent, the number of the event that it waited for among its events, and the
/// event's value.
pub struct Activation {
    pub agent: u64,
    pub watch: u64,
    pub value: Option<Term>,
}

// By hand, so that letting one go is a call and not its parts at each way out.
impl Drop for Activation {
    fn drop(self) {
        let Activation {
            agent: _,
            watch: _,
            value: _,
        } = self;
    }
}

impl Activation {
    /// Another activation that says the same.
    pub fn copy(&self, alloc: Global) -> Result<Activation, AllocError>
        ensures ok { IfOk result (λ made. made ≡ self.now) }
    {
        let value = match &self.value {
            Some(value) => Some(value.copy(alloc)?),
            None => None,
        };
        Ok(Activation {
            agent: self.agent,
            watch: self.watch,
            value,
        })
    }
}

/// Activations, the first to be run first.
pub type Activations = Series<Activation>;

/// An agent that is alive: its call, and the number of the rule that applied.
#[derive(Clone, Copy)]
pub struct AgentView {
    pub call: Ref,
    pub rule: u64,
}
