//! The laws of the definitions, under one name.
pub use pi_constraints::laws::{domains, matching, states, stores, unification, value};
pub use pi_syntax::laws::grammar;
pub use pi_terms::laws::{order, terms};
