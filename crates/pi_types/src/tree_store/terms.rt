//! What a stored state shows of its terms, and where variables lead in them.
ghost use Rattle.std.specs.Prelude.{◌≡◌, ◌↔◌, ◌<◌, [], length, IfOk, IsTrue, slice_get, true};
ghost use Rattle.pi_types.specs.TreeStoreWalks.{AllBelow, AllWatchedBelow, is_ground_in, all_ground_in, term_of, binding_in, followed_in, cell_in, arg_in, unbound_in, unbound_of, leads_in, any_in, variable_in, variable_of_any, binding_of_any, watched_ref};

use crate::tree_store::state::{Known, StoredTerm, TreeState};
use pi_constraints::{Cell, Ref, Watch, Watches};
use pi_terms::Series;
use std::alloc::{AllocError, Global};

impl TreeState {
    /// Whether the state has this term.
    pub fn has(&self, r: Ref) -> bool
        ensures { IsTrue result ↔ (r.number < length self.now.terms) }
    {
        (r.number as usize) < self.terms.len()
    }

    /// Whether the state has all these terms.
    #[tactic(auto, unfolding(crate::specs::TreeStoreWalks::AllBelow))]
    fn has_all(&self, terms: &[Ref]) -> bool
        ensures { IsTrue result ↔ AllBelow (length self.now.terms) terms.now }
    {
        for r in terms {
            if !self.has(*r) {
                return false;
            }
        }
        true
    }

    /// Whether the state has the terms of all these events.
    #[tactic(auto, unfolding(crate::specs::TreeStoreWalks::AllWatchedBelow))]
    pub fn has_watched(&self, watches: &Watches) -> bool
        ensures { IsTrue result ↔ AllWatchedBelow (length self.now.terms) watches.now }
    {
        for watch in watches.as_slice() {
            if !self.has(watched(*watch)) {
                return false;
            }
        }
        true
    }

    /// Whether no variable occurs in a term, as it was made.
    pub fn is_ground(&self, r: Ref) -> bool
        ensures { result ≡ is_ground_in self.now r }
    {
        match self.terms.get(r.number as usize) {
            Some(StoredTerm::Var(_)) => false,
            Some(StoredTerm::Comp(_, _, is_ground)) => *is_ground,
            _ => true,
        }
    }

    /// Whether no variable occurs in any of these terms.
    #[tactic(auto, unfolding(crate::specs::TreeStoreWalks::all_ground_in))]
    fn are_ground(&self, terms: &[Ref]) -> bool
        ensures { result ≡ all_ground_in self.now terms.now }
    {
        for r in terms {
            if !self.is_ground(*r) {
                return false;
            }
        }
        true
    }

    /// The compound with this name and these arguments, and without arguments where the state lacks one of them.
    pub fn compound(&self, alloc: Global, name: u64, args: &[Ref]) -> Result<StoredTerm, AllocError>
        ensures all { IfOk result (λ made. AllBelow (length self.now.terms) args.now →
            made ≡ StoredTerm.Comp name args.now (all_ground_in self.now args.now)) }
        ensures lacks { IfOk result (λ made. ¬ (AllBelow (length self.now.terms) args.now) → made ≡ StoredTerm.Comp name [] true) }
    {
        if !self.has_all(args) {
            return Ok(StoredTerm::Comp(name, Series::new(alloc), true));
        }
        let is_ground = self.are_ground(args);
        let args = Series::from_vec(Vec::from_slice(alloc, args)?);
        Ok(StoredTerm::Comp(name, args, is_ground))
    }

    /// The term of a variable; the first term where there is no such variable.
    pub fn var_ref(&self, n: u64) -> Ref
        ensures { result ≡ term_of (slice_get self.now.variables n) }
    {
        match self.variables.get(n as usize) {
            Some(variable) => variable.term,
            None => Ref { number: 0 },
        }
    }

    /// What a variable is bound to.
    pub fn binding(&self, n: u64) -> Option<Ref>
        ensures { result ≡ binding_in self.now n }
    {
        let variable = self.variables.get(n as usize)?;
        match &variable.known {
            Known::Bound(r) => Some(*r),
            _ => None,
        }
    }

    /// The variable that a term is.
    fn variable(&self, r: Ref) -> Option<u64>
        ensures { result ≡ variable_in self.now r }
    {
        match self.terms.get(r.number as usize) {
            Some(StoredTerm::Var(n)) => Some(*n),
            _ => None,
        }
    }

    /// What a term is bound to directly.
    fn bound_to(&self, r: Ref) -> Option<Ref>
        ensures { result ≡ binding_of_any self.now (variable_in self.now r) }
    {
        match self.variable(r) {
            Some(n) => self.binding(n),
            None => None,
        }
    }

    /// The variable that a variable is bound to directly.
    fn next_variable(&self, n: u64) -> Option<u64>
        ensures { result ≡ variable_of_any self.now (binding_in self.now n) }
    {
        match self.binding(n) {
            Some(r) => self.variable(r),
            None => None,
        }
    }

    /// The term itself, or what it is bound to, directly or through others.
    pub fn followed(&self, r: Ref) -> Ref
        ensures { result ≡ followed_in self.now r }
    {
        let mut at = r;
        for _ in 0..self.variables.len() {
            match self.bound_to(at) {
                Some(next) => at = next,
                None => return at,
            }
        }
        at
    }

    /// What a term is, with no binding followed.
    pub fn cell(&self, r: Ref) -> Cell
        ensures { result ≡ cell_in self.now r }
    {
        match self.terms.get(r.number as usize) {
            Some(StoredTerm::Var(n)) => Cell::Var(*n),
            Some(StoredTerm::Int(n)) => Cell::Int(*n),
            Some(StoredTerm::Atom(name)) => Cell::Atom(*name),
            Some(StoredTerm::Comp(name, args, _)) => Cell::Comp(*name, args.len() as u64),
            None => Cell::Var(self.variables.len() as u64),
        }
    }

    /// An argument of a term; the term itself where it has no such argument.
    pub fn arg(&self, r: Ref, i: u64) -> Ref
        ensures { result ≡ arg_in self.now r i }
    {
        match self.terms.get(r.number as usize) {
            Some(StoredTerm::Comp(_, args, _)) => match args.get(i as usize) {
                Some(arg) => *arg,
                None => r,
            },
            _ => r,
        }
    }

    /// The number itself, where it is that of a variable that isn't bound.
    pub fn unless_bound(&self, n: u64) -> Option<u64>
        ensures { result ≡ unbound_of n (slice_get self.now.variables n) }
    {
        let variable = self.variables.get(n as usize)?;
        match &variable.known {
            Known::Bound(_) => None,
            _ => Some(n),
        }
    }

    /// The unbound variable that a term is.
    pub fn unbound(&self, r: Ref) -> Option<u64>
        ensures { result ≡ unbound_in self.now r }
    {
        match self.cell(self.followed(r)) {
            Cell::Var(n) => self.unless_bound(n),
            _ => None,
        }
    }

    /// Whether a variable is the second one, or bound to it directly or through others.
    pub fn variable_leads_to(&self, n: u64, v: u64) -> bool
        ensures { result ≡ leads_in self.now n v }
    {
        let mut at = n;
        for _ in 0..self.variables.len() {
            if at == v {
                return true;
            }
            match self.next_variable(at) {
                Some(next) => at = next,
                None => return false,
            }
        }
        at == v
    }

    /// Whether a term is a variable, or bound to it directly or through others.
    pub fn leads_to(&self, r: Ref, v: u64) -> bool
        ensures { result ≡ any_in (λ n. leads_in self.now n v) (variable_in self.now r) }
    {
        match self.variable(r) {
            Some(n) => self.variable_leads_to(n, v),
            None => false,
        }
    }
}

/// The term of an event.
fn watched(watch: Watch) -> Ref
    ensures { result ≡ watched_ref watch }
{
    match watch {
        Watch::Ins(r) | Watch::Bound(r) => r,
        Watch::Dom(r, _) | Watch::DomAny(r, _) | Watch::Posted(r, _) => r,
    }
}
