//! What every layer of picatq speaks of, under one name: terms, syntax, core programs, domains and constraints, states and
//! their stores, answers and logs.
#![tactic(auto)]

pub mod laws;
mod tree_store;

pub use pi_constraints::{
    Activation, Activations, AgentView, Cell, Constraint, Constraints, Domain, Domains, Event,
    Events, Item, Items, LinTerm, LinTerms, MAX_VALUE, Places, ReadStop, Ref, Rel, Span,
    StateStore, StoredDomains, VarDomain, VarDomains, Watch, Watches,
};
pub use pi_core::{
    Answer, CallLog, CoreClause, CoreClauses, CoreGoal, CorePred, CorePreds, CoreProgram,
    CoreQuery, Entered, EnteredCalls, GoalNode, LogEntry, NameSlot, NameSlots, NamedTerm,
    NamedTerms, Pattern, Patterns, PlanResult, SlotWatch, SlotWatches, Work,
};
pub use pi_syntax::{
    Between, Branches, Clause, Decl, Exp, Exps, FunctionBody, FunctionClause, Goal, Integer, Mode,
    ModeLists, Modes, Names, Part, Parts, Program, RuleClause, Triggers,
};
pub use pi_terms::{Args, BoxedSeries, Numbers, Series, Term, TermHead, Text};
pub use tree_store::TreeStore;
