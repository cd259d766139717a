//! Programs and queries of the core language.
use crate::core_goal::CoreGoal;
use pi_syntax::Decl;
use pi_terms::{Series, Term, Text};

/// What an argument of a call has to look like. A slot takes whatever stands there, and where it is filled already, an
/// identical term.
pub enum Pattern {
    Slot(u32),
    Int(i128),
    Atom(Text),
    Comp(Text, Patterns),
    /// A slot for what the pattern matches as a whole.
    Named(u32, Box<Pattern>),
}

// By hand, so that letting one go is a call and not its parts at each way out.
impl Drop for Pattern {
    fn drop(self) {
        match self {
            Pattern::Slot(_) => {}
            Pattern::Int(_) => {}
            Pattern::Atom(_) => {}
            Pattern::Comp(_, _) => {}
            Pattern::Named(_, _) => {}
        }
    }
}

/// The patterns of a head, from the left.
pub type Patterns = Vec<Pattern>;

/// An event that an agent waits for: the slot of its variable, then the slot that its value takes.
#[derive(Clone, Copy)]
pub enum SlotWatch {
    Ins(u32),
    Bound(u32),
    Dom(u32, u32),
    DomAny(u32, u32),
    Posted(u32, u32),
}

/// The events of an action rule, in order.
pub type SlotWatches = Series<SlotWatch>;

/// A clause of the core language. In its terms `Var(k)` stands for slot k, for k below `slots`.
pub struct CoreClause {
    pub head: Patterns,
    /// The condition; `truth` stands for none. A condition that is written `true` is a `seq` of `truth` alone: what waits
    /// is run before a condition's answer counts, and a clause without a condition runs it first in its body.
    pub guard: CoreGoal,
    /// Later clauses stay as alternatives where this one applies. It counts for no action rule and for no function's
    /// rule, which are committed.
    pub back: bool,
    pub watches: SlotWatches,
    pub body: CoreGoal,
    /// A function's value.
    pub value: Option<Term>,
    pub slots: u32,
}

// By hand, so that letting one go is a call and not its parts at each way out.
impl Drop for CoreClause {
    fn drop(self) {
        let CoreClause {
            head: _,
            guard: _,
            back: _,
            watches: _,
            body: _,
            value: _,
            slots: _,
        } = self;
    }
}

/// The clauses of a predicate, in order.
pub type CoreClauses = Series<CoreClause>;

/// A predicate or a function of the core language.
pub struct CorePred {
    pub name: Text,
    pub arity: u32,
    pub function: bool,
    /// Made for a loop: its calls count no Tick.
    pub quiet: bool,
    pub decl: Decl,
    pub clauses: CoreClauses,
}

// By hand, so that letting one go is a call and not its parts at each way out.
impl Drop for CorePred {
    fn drop(self) {
        let CorePred {
            name: _,
            arity: _,
            function: _,
            quiet: _,
            decl: _,
            clauses: _,
        } = self;
    }
}

/// Predicates and functions, in order.
pub type CorePreds = Series<CorePred>;

/// A program of the core language.
pub struct CoreProgram {
    pub preds: CorePreds,
}

// By hand, so that letting one go is a call and not its parts at each way out.
impl Drop for CoreProgram {
    fn drop(self) {
        let CoreProgram { preds: _ } = self;
    }
}

/// A named variable of a goal, and the slot of its last value.
pub struct NameSlot {
    pub name: Text,
    pub slot: u32,
}

// By hand, so that letting one go is a call and not its parts at each way out.
impl Drop for NameSlot {
    fn drop(self) {
        let NameSlot { name: _, slot: _ } = self;
    }
}

/// The named variables of a goal, in the order of their first occurrences.
pub type NameSlots = Series<NameSlot>;

/// A goal of the core language, asked of a program, with the predicates that were made for it alone.
#[derive(Drop)]
pub struct CoreQuery {
    pub goal: CoreGoal,
    pub helpers: CorePreds,
    pub names: NameSlots,
    pub slots: u32,
}
