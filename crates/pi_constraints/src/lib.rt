//! Domains and constraints.
//! States of a run, the trait of stores that hold them, matching and unification.
#![tactic(auto)]

mod constraint;
mod cuts;
mod domain;
mod event;
mod fault;
mod kept_states;
pub mod laws;
mod make;
mod meets;
mod reads;
mod store;
mod stored;
mod var_domain;

pub use constraint::{Constraint, Constraints, Item, Items, LinTerm, LinTerms, Rel};
pub use cuts::{cut_above, cut_below, remove};
pub use domain::{Domain, Domains, MAX_VALUE, Span};
pub use event::{Activation, Activations, AgentView, Event, Events, Watch, Watches};
pub use fault::DomFault;
pub use kept_states::KeptStates;
pub use make::{of_list, of_span};
pub use meets::meet;
pub use reads::{contains, max, min, size};
pub use store::{Cell, Places, ReadStop, Ref, StateStore};
pub use stored::StoredDomains;
pub use var_domain::{VarDomain, VarDomains};
