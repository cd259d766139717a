//! A state as it is stored: its terms, its variables, its constraints and its agents.
ghost use Rattle.std.specs.Prelude.{◌≡◌, [], IfOk, OnErr};
ghost use Rattle.pi_types.specs.TreeStoreWalks.{changed};

use crate::tree_store::copied::{Copied, copied_all, copied_queue};
use crate::tree_store::queue::Queue;
use pi_constraints::{Activation, AgentView, Constraint, Domain, Ref, Watches};
use pi_terms::Series;
use std::alloc::{AllocError, Global};

/// A term of a state, at its own number. A compound has the number of its name, its arguments, and whether no variable
/// occurs in it.
pub enum StoredTerm {
    Var(u64),
    Int(i128),
    Atom(u64),
    Comp(u64, Series<Ref>, bool),
}

// By hand, so that letting one go is a call and not its parts at each way out.
impl Drop for StoredTerm {
    fn drop(self) {
        match self {
            StoredTerm::Var(_) => {}
            StoredTerm::Int(_) => {}
            StoredTerm::Atom(_) => {}
            StoredTerm::Comp(_, _, _) => {}
        }
    }
}

/// What is known of a variable: nothing, its values, or the term that it is bound to.
pub enum Known {
    Free,
    Within(Domain),
    Bound(Ref),
}

// By hand, so that letting one go is a call and not its parts at each way out.
impl Drop for Known {
    fn drop(self) {
        match self {
            Known::Free => {}
            Known::Within(_) => {}
            Known::Bound(_) => {}
        }
    }
}

/// A variable: its own term, and what is known of it.
#[derive(Drop)]
pub struct StoredVariable {
    pub term: Ref,
    pub known: Known,
}

/// An agent; an ended one keeps its number.
#[derive(Drop)]
pub struct StoredAgent {
    pub call: Ref,
    pub rule: u64,
    pub watches: Watches,
    pub is_alive: bool,
}

/// One whole state.
pub struct TreeState {
    pub terms: Series<StoredTerm>,
    pub variables: Series<StoredVariable>,
    pub constraints: Series<Constraint>,
    pub agents: Series<StoredAgent>,
    pub waiting: Queue<Activation>,
}

// By hand, so that letting one go is a call and not its parts at each way out.
impl Drop for TreeState {
    fn drop(self) {
        let TreeState {
            terms: _,
            variables: _,
            constraints: _,
            agents: _,
            waiting: _,
        } = self;
    }
}

/// One change of a state.
#[derive(Drop)]
pub enum Change {
    /// One more term.
    Term(StoredTerm),
    /// One more variable, with its term.
    NewVariable,
    /// Another thing is known of a variable.
    SetVariable(u64, StoredVariable),
    /// One more constraint.
    Post(Constraint),
    /// One more agent.
    Suspend(StoredAgent),
    /// An agent is another one.
    SetAgent(u64, StoredAgent),
    /// One more activation waits.
    Wait(Activation),
    /// The activation that waits longest waits no more.
    DropWaiting,
}

impl Copied for StoredTerm {
    fn copied(&self, alloc: Global) -> Result<StoredTerm, AllocError> {
        match self {
            StoredTerm::Var(n) => Ok(StoredTerm::Var(*n)),
            StoredTerm::Int(n) => Ok(StoredTerm::Int(*n)),
            StoredTerm::Atom(name) => Ok(StoredTerm::Atom(*name)),
            StoredTerm::Comp(name, args, is_ground) => Ok(StoredTerm::Comp(
                *name,
                args.copy(alloc)?,
                *is_ground,
            )),
        }
    }
}

impl Copied for StoredVariable {
    fn copied(&self, alloc: Global) -> Result<StoredVariable, AllocError> {
        let known = match &self.known {
            Known::Free => Known::Free,
            Known::Within(domain) => Known::Within(domain.copy(alloc)?),
            Known::Bound(r) => Known::Bound(*r),
        };
        Ok(StoredVariable {
            term: self.term,
            known,
        })
    }
}

impl Copied for StoredAgent {
    fn copied(&self, alloc: Global) -> Result<StoredAgent, AllocError> {
        let watches = self.watches.copy(alloc)?;
        Ok(StoredAgent {
            call: self.call,
            rule: self.rule,
            watches,
            is_alive: self.is_alive,
        })
    }
}

impl TreeState {
    /// The state in which a run begins.
    pub fn new(alloc: Global) -> TreeState
        ensures { result ≡ record { terms = []; variables = []; constraints = []; agents = []; waiting = [] } }
    {
        TreeState {
            terms: Series::new(alloc),
            variables: Series::new(alloc),
            constraints: Series::new(alloc),
            agents: Series::new(alloc),
            waiting: Queue::new(alloc),
        }
    }

    /// Makes one change; a refused one changes nothing.
    pub fn change(&mut self, change: Change) -> Result<(), AllocError>
        ensures ok { IfOk result (λ _. self.new ≡ changed self.old change) }
        ensures err { OnErr result (self.new ≡ self.old) }
    {
        match change {
            Change::Term(term) => Ok(self.terms.push(term)?),
            Change::NewVariable => self.new_variable(),
            Change::SetVariable(n, variable) => Ok(self.variables.set(n as usize, variable)),
            Change::Post(constraint) => Ok(self.constraints.push(constraint)?),
            Change::Suspend(agent) => Ok(self.agents.push(agent)?),
            Change::SetAgent(n, agent) => Ok(self.agents.set(n as usize, agent)),
            Change::Wait(activation) => Ok(self.waiting.push(activation)?),
            Change::DropWaiting => Ok(self.waiting.drop_first()),
        }
    }

    /// One more variable, with its term.
    fn new_variable(&mut self) -> Result<(), AllocError>
        ensures ok { IfOk result (λ _. self.new ≡ changed self.old Change.NewVariable) }
        ensures err { OnErr result (self.new ≡ self.old) }
    {
        let n = self.variables.len() as u64;
        let term = Ref {
            number: self.terms.len() as u64,
        };
        self.terms.push(StoredTerm::Var(n))?;
        let variable = StoredVariable {
            term,
            known: Known::Free,
        };
        if self.variables.push(variable).is_err() {
            self.terms.pop();
            return Err(AllocError);
        }
        Ok(())
    }
}

impl Copied for TreeState {
    fn copied(&self, alloc: Global) -> Result<TreeState, AllocError> {
        let terms = copied_all(alloc, &self.terms)?;
        let variables = copied_all(alloc, &self.variables)?;
        let constraints = copied_all(alloc, &self.constraints)?;
        let agents = copied_all(alloc, &self.agents)?;
        let waiting = copied_queue(alloc, &self.waiting)?;
        Ok(TreeState {
            terms,
            variables,
            constraints,
            agents,
            waiting,
        })
    }
}
