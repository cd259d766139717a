//! The places of constraints, and the domains of variables, in a stored state.
ghost use Rattle.std.specs.Prelude.{◌≡◌, ◌↔◌, ◌<◌, IfOk, IsTrue, Some, option_copied, unwrap_or, slice_get, length, cond, ◌++◌, ◌∷◌, []};
ghost use Rattle.pi_constraints.specs.Domain.{IsDomain};
ghost use Rattle.pi_types.specs.TreeStoreWalks.{known_domain_in, is_unbound_in, item_leads, items_lead, sum_leads, constraint_leads, posted_in, HasChangedIn, ListsBelow};

use crate::tree_store::state::{Known, TreeState};
use pi_constraints::{Constraint, Domain, Item, Items, LinTerms, Places, Span};
use pi_terms::Series;
use std::alloc::{AllocError, Global};

impl TreeState {
    /// The domain of a variable that isn't bound and has one.
    fn domain_ref(&self, n: u64) -> Option<&Domain>
        ensures { option_copied result ≡ known_domain_in self.now n }
    {
        let variable = self.variables.get(n as usize)?;
        match &variable.known {
            Known::Within(domain) => Some(domain),
            _ => None,
        }
    }

    /// The domain of a variable that isn't bound and has one.
    pub fn domain(&self, alloc: Global, n: u64) -> Result<Option<Domain>, AllocError>
        ensures { IfOk result (λ found. found ≡ known_domain_in self.now n) }
    {
        let Some(domain) = self.domain_ref(n) else {
            return Ok(None);
        };
        let found = domain.copy(alloc)?;
        Ok(Some(found))
    }

    /// How many spans a variable has that isn't bound; none where it has no domain.
    pub fn span_count(&self, n: u64) -> usize
        ensures count { result ≡ length (unwrap_or (known_domain_in self.now n) []) }
        ensures domain { IsDomain (unwrap_or (known_domain_in self.now n) []) }
    {
        match self.domain_ref(n) {
            Some(domain) => count_of(domain),
            None => 0,
        }
    }

    /// The span of a variable with this number, counted from 0.
    pub fn span(&self, n: u64, k: usize) -> Span
        ensures { k < length (unwrap_or (known_domain_in self.now n) []) →
            slice_get (unwrap_or (known_domain_in self.now n) []) k ≡ Some result }
    {
        match self.domain_ref(n) {
            Some(domain) => span_of(domain, k),
            None => Span { lo: 0, hi: 0 },
        }
    }

    fn item_leads_to(&self, item: Item, v: u64) -> bool
        ensures { result ≡ item_leads self.now item v }
    {
        match item {
            Item::Var(n) => self.variable_leads_to(n, v),
            Item::Int(_) => false,
        }
    }

    #[tactic(auto, unfolding(crate::specs::TreeStoreWalks::items_lead))]
    fn items_lead_to(&self, items: &Items, v: u64) -> bool
        ensures { result ≡ items_lead self.now items.now v }
    {
        for item in items.as_slice() {
            if self.item_leads_to(*item, v) {
                return true;
            }
        }
        false
    }

    #[tactic(auto, unfolding(crate::specs::TreeStoreWalks::sum_leads))]
    fn sum_leads_to(&self, terms: &LinTerms, v: u64) -> bool
        ensures { result ≡ sum_leads self.now terms.now v }
    {
        for term in terms.as_slice() {
            if self.variable_leads_to(term.1, v) {
                return true;
            }
        }
        false
    }

    /// Whether a variable stands in a constraint, itself or as one that is bound to it.
    fn is_posted_on(&self, constraint: &Constraint, v: u64) -> bool
        ensures { result ≡ constraint_leads self.now constraint.now v }
    {
        match constraint {
            Constraint::Linear { terms, .. } => self.sum_leads_to(terms, v),
            Constraint::Product { z, x, y } => {
                self.item_leads_to(*z, v) || self.item_leads_to(*x, v) || self.item_leads_to(*y, v)
            }
            Constraint::Absolute { z, x } => {
                self.item_leads_to(*z, v) || self.item_leads_to(*x, v)
            }
            Constraint::Different(items) => self.items_lead_to(items, v),
            Constraint::Element {
                index,
                items,
                value,
            } => {
                self.item_leads_to(*index, v)
                    || self.items_lead_to(items, v)
                    || self.item_leads_to(*value, v)
            }
            Constraint::Reified { truth, terms, .. } => {
                self.item_leads_to(*truth, v) || self.sum_leads_to(terms, v)
            }
            Constraint::Distinct(items) => self.items_lead_to(items, v),
        }
    }

    /// Whether a variable stands in the constraint with this number.
    fn is_posted(&self, i: usize, v: u64) -> bool
        ensures { result ≡ posted_in self.now v i }
    {
        match self.constraints.get(i) {
            Some(constraint) => self.is_posted_on(constraint, v),
            None => false,
        }
    }

    /// The numbers of the constraints in which a variable stands, itself or as one that is bound to it; ascending.
    pub fn posted_on(&self, alloc: Global, v: u64) -> Result<Places, AllocError>
        ensures { IfOk result (ListsBelow (λ i. IsTrue (posted_in self.now v i)) (length self.now.constraints)) }
    {
        let mut found = Series::new(alloc);
        for i in 0..self.constraints.len() {
            push_if(&mut found, i as u64, self.is_posted(i, v))?;
        }
        Ok(found)
    }

    fn is_unbound(&self, n: u64) -> bool
        ensures { result ≡ is_unbound_in self.now n }
    {
        self.unless_bound(n).is_some()
    }

    /// Whether a variable isn't bound here, and is bound or has another domain in a later state.
    fn has_changed(&self, later: &TreeState, n: u64) -> bool
        ensures { IsTrue result ↔ HasChangedIn self.now later.now n }
    {
        if !self.is_unbound(n) {
            return false;
        }
        if later.binding(n).is_some() {
            return true;
        }
        !are_same_domains(later.domain_ref(n), self.domain_ref(n))
    }

    /// The variables that aren't bound here, and are bound or have another domain in a later state; ascending.
    pub fn changed_to(&self, alloc: Global, later: &TreeState) -> Result<Places, AllocError>
        ensures { IfOk result (ListsBelow (HasChangedIn self.now later.now) (length self.now.variables)) }
    {
        let mut found = Series::new(alloc);
        for n in 0..self.variables.len() {
            push_if(&mut found, n as u64, self.has_changed(later, n as u64))?;
        }
        Ok(found)
    }
}

/// How many spans a domain has.
fn count_of(domain: &Domain) -> usize
    ensures count { result ≡ length domain.now }
    ensures domain { IsDomain domain.now }
{
    domain.spans().len()
}

/// The span of a domain with this number; any one where there is none.
fn span_of(domain: &Domain, k: usize) -> Span
    ensures { k < length domain.now → slice_get domain.now k ≡ Some result }
{
    match domain.spans().get(k) {
        Some(span) => *span,
        None => Span { lo: 0, hi: 0 },
    }
}

/// One more number, where it is one of those that are looked for.
fn push_if(found: &mut Places, number: u64, is_one: bool) -> Result<(), AllocError>
    ensures { IfOk result (λ _. found.new ≡ cond is_one (found.old ++ number ∷ []) found.old) }
{
    if is_one {
        found.push(number)?;
    }
    Ok(())
}

fn is_same_domain(a: &Domain, b: &Domain) -> bool
    ensures { IsTrue result ↔ (a.now ≡ b.now) }
{
    a.spans() == b.spans()
}

fn are_same_domains(a: Option<&Domain>, b: Option<&Domain>) -> bool
    ensures { IsTrue result ↔ (option_copied a.entry ≡ option_copied b.entry) }
{
    match (a, b) {
        (Some(a), Some(b)) => is_same_domain(a, b),
        (None, None) => true,
        _ => false,
    }
}
