//! Answers of queries.
use pi_constraints::VarDomains;
use pi_terms::{Series, Term, Text};

/// A named variable and its value.
pub struct NamedTerm {
    pub name: Text,
    pub value: Term,
}

// By hand, so that letting one go is a call and not its parts at each way out.
impl Drop for NamedTerm {
    fn drop(self) {
        let NamedTerm { name: _, value: _ } = self;
    }
}

/// Named variables with their values, in order.
pub type NamedTerms = Series<NamedTerm>;

/// An answer of a query: the value of each named variable in the order of the goal, and the domain of each unbound
/// variable in them that has one.
pub struct Answer {
    pub values: NamedTerms,
    pub domains: VarDomains,
}

// By hand, so that letting one go is a call and not its parts at each way out.
impl Drop for Answer {
    fn drop(self) {
        let Answer {
            values: _,
            domains: _,
        } = self;
    }
}
