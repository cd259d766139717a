//! The store over raw words as a store of states.
ghost use Rattle.std.specs.Prelude.{IfOk, IsOk, OnErr};
ghost use Rattle.pi_constraints.specs.Store.{Marks, Stays};
ghost use Rattle.pi_store.specs.Holding.{order, view_of};

use crate::mark::RawMark;
use crate::store::RawStore;
use pi_constraints::{
    Activation, AgentView, Cell, Constraint, Domain, Places, ReadStop, Ref, StateStore, Watches,
};
use pi_terms::Term;
use std::alloc::{AllocError, Global};

impl StateStore for RawStore {
    type Mark = RawMark;

    ghost seen = { λ s. view_of s.names s.image };

    ghost order = { λ m. m.length };

    fn new_var(&mut self) -> Result<Ref, AllocError> {
        let made = self.new_var()?;
        Ok(made)
    }

    fn put_int(&mut self, n: i128) -> Result<Ref, AllocError> {
        let made = self.put_int(n)?;
        Ok(made)
    }

    fn put_atom(&mut self, name: &str) -> Result<Ref, AllocError> {
        let made = self.put_atom(name)?;
        Ok(made)
    }

    fn put_comp(&mut self, name: &str, args: &[Ref]) -> Result<Ref, AllocError> {
        let made = self.put_comp(name, args)?;
        Ok(made)
    }

    fn var_ref(&self, n: u64) -> Ref {
        self.var_ref(n)
    }

    fn look(&self, r: Ref) -> Cell {
        self.look(r)
    }

    fn arg(&self, r: Ref, i: u64) -> Ref {
        self.arg(r, i)
    }

    fn name(&self, atom: u64) -> &str {
        self.name(atom)
    }

    fn vars(&self) -> u64 {
        self.vars()
    }

    fn is_ground(&self, r: Ref) -> bool {
        self.is_ground(r)
    }

    fn leads_to(&self, r: Ref, v: u64) -> bool {
        self.leads_to(r, v)
    }

    fn bind(&mut self, v: Ref, t: Ref) -> Result<(), AllocError> {
        self.bind(v, t)?;
        Ok(())
    }

    fn domain(&self, alloc: Global, v: Ref) -> Result<Option<Domain>, AllocError> {
        let found = self.domain(alloc, v)?;
        Ok(found)
    }

    fn set_domain(&mut self, v: Ref, d: &Domain) -> Result<(), AllocError> {
        self.set_domain(v, d)?;
        Ok(())
    }

    fn post(&mut self, c: &Constraint) -> Result<(), AllocError> {
        self.post(c)?;
        Ok(())
    }

    fn constraints(&self) -> u64 {
        self.constraints()
    }

    fn constraint(&self, alloc: Global, i: u64) -> Result<Constraint, AllocError> {
        let found = self.constraint(alloc, i)?;
        Ok(found)
    }

    fn posted_on(&self, alloc: Global, v: u64) -> Result<Places, AllocError> {
        let found = self.posted_on(alloc, v)?;
        Ok(found)
    }

    fn suspend(&mut self, call: Ref, rule: u64, watches: &Watches) -> Result<u64, AllocError> {
        let made = self.suspend(call, rule, watches)?;
        Ok(made)
    }

    fn agents(&self) -> u64 {
        self.agents()
    }

    fn agent(&self, n: u64) -> Option<AgentView> {
        self.agent(n)
    }

    fn watches(&self, alloc: Global, n: u64) -> Result<Watches, AllocError> {
        let found = self.watches(alloc, n)?;
        Ok(found)
    }

    fn retire(&mut self, n: u64) -> Result<(), AllocError> {
        self.retire(n)?;
        Ok(())
    }

    fn wait(&mut self, a: &Activation) -> Result<(), AllocError> {
        self.wait(a)?;
        Ok(())
    }

    fn take_waiting(&mut self) -> Result<Option<Activation>, AllocError> {
        let taken = self.take_waiting()?;
        Ok(taken)
    }

    /// Remembers what the store holds. It takes no memory, and so it is always Ok.
    fn mark(&mut self) -> Result<RawMark, AllocError>
        ensures ok { IfOk result (Marks order (view_of self.old.names self.old.image) (view_of self.new.names self.new.image)) }
        ensures err { OnErr result (Stays (view_of self.old.names self.old.image) (view_of self.new.names self.new.image)) }
        ensures always { IsOk result }
    {
        Ok(self.mark_now())
    }

    fn undo(&mut self, m: &RawMark) {
        self.undo(m);
    }

    fn changed_since(&self, alloc: Global, m: &RawMark) -> Result<Places, AllocError> {
        let found = self.changed_since(alloc, m)?;
        Ok(found)
    }

    fn domain_at(&self, alloc: Global, m: &RawMark, v: u64) -> Result<Option<Domain>, AllocError> {
        let found = self.domain_at(alloc, m, v)?;
        Ok(found)
    }

    fn read_term(&self, alloc: Global, r: Ref) -> Result<Term, ReadStop> {
        self.read_term(alloc, r)
    }
}
