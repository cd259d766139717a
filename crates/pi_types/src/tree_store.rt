//! A store that keeps whole states for its marks.
ghost use Rattle.std.specs.Prelude.{◌≡◌, ℕ, Some, length, IfOk, OnErr, slice_index_or};
ghost use Rattle.pi_constraints.specs.Store.{Keeps, Changes, Stays};
ghost use Rattle.pi_constraints.specs.State.{empty_state, with_variable};
ghost use Rattle.pi_types.specs.TreeStore.{store_view, trees_of, state_of, known_of};
ghost use Rattle.pi_types.specs.TreeStoreWalks.{changed, unbound_in};
ghost use Rattle.pi_types.specs.TreeStoreProps.{sound_prop};
ghost use Rattle.pi_types.specs.TreeStoreSound.{IsSound, IsSoundState, IsSoundTerm, IsMadeBelow, IsKnownBelow, IsAdvanced, IsSame};

mod copied;
mod places;
mod queue;
mod read;
mod state;
mod stored;
mod terms;

use crate::tree_store::copied::Copied;
use crate::tree_store::state::{Change, Known, StoredAgent, StoredTerm, StoredVariable, TreeState};
use pi_atoms::Atoms;
use pi_constraints::{
    Activation, AgentView, Cell, Constraint, Domain, Places, ReadStop, Ref, StateStore, Watches,
};
use pi_terms::{Series, Term};
use std::alloc::{AllocError, Global};
use std::mem;

/// A store as a list of whole states. A mark is the number of the present state, which is kept from then on; a kept
/// state is copied before it is changed, and `undo` copies nothing.
pub struct TreeStore {
    alloc: Global,
    /// They are not undone.
    atoms: Atoms,
    /// The kept states before the present one.
    earlier: Series<TreeState>,
    present: TreeState,
    /// Whether the present state is kept.
    is_kept: bool,
    ghost sound: { IsSound atoms earlier present } by { sound_prop atoms earlier present },
}

// By hand, so that letting one go is a call and not its parts at each way out.
impl Drop for TreeStore {
    fn drop(self) {
        let TreeStore {
            alloc: _,
            atoms: _,
            earlier: _,
            present: _,
            is_kept: _,
        } = self;
    }
}

impl TreeStore {
    /// The empty state.
    pub fn new(alloc: Global) -> Result<TreeStore, AllocError>
        ensures { IfOk result (λ made. (⟦<TreeStore as StateStore>⟧.seen made).now.state ≡ empty_state) }
    {
        Ok(TreeStore {
            alloc,
            atoms: Atoms::new(alloc),
            earlier: Series::new(alloc),
            present: TreeState::new(alloc),
            is_kept: false,
        })
    }

    /// Changes the present state, or a copy of it where it is kept; a refused change changes nothing.
    fn change(&mut self, change: Change) -> Result<(), AllocError>
        requires { IsSoundState self.old.atoms (changed self.old.present change) }
        ensures ok { IfOk result (λ _. IsAdvanced self.old.atoms self.new.atoms self.old.earlier self.new.earlier self.old.present
            self.new.present self.old.is_kept self.new.is_kept (changed self.old.present change)) }
        ensures err { OnErr result (IsSame self.old.atoms self.new.atoms self.old.earlier self.new.earlier self.old.present
            self.new.present self.old.is_kept self.new.is_kept) }
    {
        if !self.is_kept {
            self.present.change(change)?;
            return Ok(());
        }
        let mut next = self.present.copied(self.alloc)?;
        next.change(change)?;
        let kept = mem::replace(&mut self.present, next);
        if let Err(refused) = self.earlier.push(kept) {
            self.present = refused.value;
            return Err(AllocError);
        }
        self.is_kept = false;
        Ok(())
    }

    /// One more term.
    fn add(&mut self, term: StoredTerm) -> Result<Ref, AllocError>
        requires { IsSoundTerm self.old.atoms (trees_of self.old.atoms self.old.present) (length self.old.present.terms) term ×
            IsMadeBelow (length self.old.present.variables) term }
        ensures ok { IfOk result (λ made. IsAdvanced self.old.atoms self.new.atoms self.old.earlier self.new.earlier self.old.present
            self.new.present self.old.is_kept self.new.is_kept (changed self.old.present (Change.Term term))) }
        ensures number { IfOk result (λ made. made ≡ record { number = length self.old.present.terms }) }
        ensures err { OnErr result (IsSame self.old.atoms self.new.atoms self.old.earlier self.new.earlier self.old.present
            self.new.present self.old.is_kept self.new.is_kept) }
    {
        let number = self.present.terms.len() as u64;
        self.change(Change::Term(term))?;
        Ok(Ref { number })
    }

    /// Makes something else known of an unbound variable; nothing where the term is none.
    fn know(&mut self, v: Ref, known: Known) -> Result<(), AllocError>
        requires { IsKnownBelow (length self.old.present.terms) known }
        ensures keeps { Keeps (store_view self.old.atoms self.old.earlier self.old.present self.old.is_kept)
            (store_view self.new.atoms self.new.earlier self.new.present self.new.is_kept) }
        ensures ok { IfOk result (λ _. (n : ℕ) → unbound_in self.old.present v ≡ Some n →
            Changes (store_view self.old.atoms self.old.earlier self.old.present self.old.is_kept)
            (store_view self.new.atoms self.new.earlier self.new.present self.new.is_kept)
            (with_variable (state_of (trees_of self.old.atoms self.old.present) self.old.present) n
            (known_of (trees_of self.old.atoms self.old.present) known))) }
        ensures err { OnErr result (Stays (store_view self.old.atoms self.old.earlier self.old.present self.old.is_kept)
            (store_view self.new.atoms self.new.earlier self.new.present self.new.is_kept)) }
    {
        let Some(n) = self.present.unbound(v) else {
            return Ok(());
        };
        let term = self.present.var_ref(n);
        self.change(Change::SetVariable(n, StoredVariable { term, known }))?;
        Ok(())
    }

    /// The state that a mark brings back.
    fn marked(&self, m: u64) -> &TreeState
        ensures { result.now ≡ slice_index_or self.now.earlier m self.now.present }
    {
        match self.earlier.get(m as usize) {
            Some(state) => state,
            None => &self.present,
        }
    }
}

impl StateStore for TreeStore {
    type Mark = u64;

    ghost seen = { λ s. store_view s.atoms s.earlier s.present s.is_kept };

    ghost order = { λ m. m };

    fn new_var(&mut self) -> Result<Ref, AllocError> {
        let number = self.present.terms.len() as u64;
        self.change(Change::NewVariable)?;
        Ok(Ref { number })
    }

    fn put_int(&mut self, n: i128) -> Result<Ref, AllocError> {
        let made = self.add(StoredTerm::Int(n))?;
        Ok(made)
    }

    fn put_atom(&mut self, name: &str) -> Result<Ref, AllocError> {
        let number = self.atoms.number(self.alloc, name)?;
        let made = self.add(StoredTerm::Atom(number))?;
        Ok(made)
    }

    fn put_comp(&mut self, name: &str, args: &[Ref]) -> Result<Ref, AllocError> {
        let number = self.atoms.number(self.alloc, name)?;
        let term = self.present.compound(self.alloc, number, args)?;
        let made = self.add(term)?;
        Ok(made)
    }

    fn var_ref(&self, n: u64) -> Ref {
        self.present.var_ref(n)
    }

    fn look(&self, r: Ref) -> Cell {
        self.present.cell(self.present.followed(r))
    }

    fn arg(&self, r: Ref, i: u64) -> Ref {
        self.present.arg(self.present.followed(r), i)
    }

    fn name(&self, atom: u64) -> &str {
        self.atoms.name(atom)
    }

    fn vars(&self) -> u64 {
        self.present.variables.len() as u64
    }

    fn is_ground(&self, r: Ref) -> bool {
        self.present.is_ground(r)
    }

    fn leads_to(&self, r: Ref, v: u64) -> bool {
        self.present.leads_to(r, v)
    }

    fn bind(&mut self, v: Ref, t: Ref) -> Result<(), AllocError> {
        if !self.present.has(t) {
            return Ok(());
        }
        let to = self.present.followed(t);
        self.know(v, Known::Bound(to))?;
        Ok(())
    }

    fn domain(&self, alloc: Global, v: Ref) -> Result<Option<Domain>, AllocError> {
        let Cell::Var(n) = self.look(v) else {
            return Ok(None);
        };
        let found = self.present.domain(alloc, n)?;
        Ok(found)
    }

    fn set_domain(&mut self, v: Ref, d: &Domain) -> Result<(), AllocError> {
        let domain = d.copy(self.alloc)?;
        self.know(v, Known::Within(domain))?;
        Ok(())
    }

    fn post(&mut self, c: &Constraint) -> Result<(), AllocError> {
        let constraint = c.copy(self.alloc)?;
        self.change(Change::Post(constraint))?;
        Ok(())
    }

    fn constraints(&self) -> u64 {
        self.present.constraints.len() as u64
    }

    fn constraint(&self, alloc: Global, i: u64) -> Result<Constraint, AllocError> {
        match self.present.constraints.get(i as usize) {
            Some(constraint) => constraint.copy(alloc),
            None => Ok(Constraint::Different(Series::new(alloc))),
        }
    }

    fn posted_on(&self, alloc: Global, v: u64) -> Result<Places, AllocError> {
        let found = self.present.posted_on(alloc, v)?;
        Ok(found)
    }

    fn suspend(&mut self, call: Ref, rule: u64, watches: &Watches) -> Result<u64, AllocError> {
        let number = self.present.agents.len() as u64;
        if !self.present.has(call) {
            return Ok(number);
        }
        if !self.present.has_watched(watches) {
            return Ok(number);
        }
        let watches = watches.copy(self.alloc)?;
        self.change(Change::Suspend(StoredAgent {
            call,
            rule,
            watches,
            is_alive: true,
        }))?;
        Ok(number)
    }

    fn agents(&self) -> u64 {
        self.present.agents.len() as u64
    }

    fn agent(&self, n: u64) -> Option<AgentView> {
        let agent = self.present.agents.get(n as usize)?;
        if !agent.is_alive {
            return None;
        }
        Some(AgentView {
            call: agent.call,
            rule: agent.rule,
        })
    }

    fn watches(&self, alloc: Global, n: u64) -> Result<Watches, AllocError> {
        let Some(agent) = self.present.agents.get(n as usize) else {
            return Ok(Series::new(alloc));
        };
        let watches = agent.watches.copy(alloc)?;
        Ok(watches)
    }

    fn retire(&mut self, n: u64) -> Result<(), AllocError> {
        let Some(agent) = self.present.agents.get(n as usize) else {
            return Ok(());
        };
        let mut ended = agent.copied(self.alloc)?;
        ended.is_alive = false;
        self.change(Change::SetAgent(n, ended))?;
        Ok(())
    }

    fn wait(&mut self, a: &Activation) -> Result<(), AllocError> {
        let activation = a.copy(self.alloc)?;
        self.change(Change::Wait(activation))?;
        Ok(())
    }

    fn take_waiting(&mut self) -> Result<Option<Activation>, AllocError> {
        let Some(first) = self.present.waiting.get(0) else {
            return Ok(None);
        };
        let taken = first.copy(self.alloc)?;
        self.change(Change::DropWaiting)?;
        Ok(Some(taken))
    }

    fn mark(&mut self) -> Result<u64, AllocError> {
        self.is_kept = true;
        Ok(self.earlier.len() as u64)
    }

    fn undo(&mut self, m: &u64) {
        let number = *m as usize;
        if number < self.earlier.len() {
            self.earlier.truncate(number + 1);
            if let Some(kept) = self.earlier.pop() {
                self.present = kept;
                self.is_kept = true;
            }
        }
    }

    fn changed_since(&self, alloc: Global, m: &u64) -> Result<Places, AllocError> {
        let found = self.marked(*m).changed_to(alloc, &self.present)?;
        Ok(found)
    }

    fn domain_at(&self, alloc: Global, m: &u64, v: u64) -> Result<Option<Domain>, AllocError> {
        let found = self.marked(*m).domain(alloc, v)?;
        Ok(found)
    }

    fn read_term(&self, alloc: Global, r: Ref) -> Result<Term, ReadStop> {
        self.present.read(alloc, &self.atoms, r)
    }
}
