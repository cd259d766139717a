//! Programs and goals as they are written.
use crate::exp::{Exp, Exps};
use pi_terms::{BoxedSeries, Series, Text};

/// Names, in order, behind one pointer, so that a declaration is small: most parts have none.
pub type Names = BoxedSeries<Text>;

/// A clause of a program as it is written. A User's Guide to Picat, 'Predicates and Functions', and for events 'Action
/// Rules'.
///
/// What a clause holds is boxed, so that a part of a program is small whatever its clause is.
pub enum Clause {
    /// A predicate's rule.
    Rule(Box<RuleClause>),
    /// A function's rule or fact.
    Function(Box<FunctionClause>),
    /// A fact of a predicate behind its `index`.
    Fact { head: Box<Exp> },
}

// By hand, so that letting one go is a call and not its parts at each way out.
impl Drop for Clause {
    fn drop(self) {
        match self {
            Clause::Rule(_) => {}
            Clause::Function(_) => {}
            Clause::Fact { head: _ } => {}
        }
    }
}

/// A predicate's rule, committed (`=>`) or, where `back` is true, backtrackable (`?=>`).
pub struct RuleClause {
    pub head: Exp,
    pub between: Between,
    pub back: bool,
    pub body: Exp,
}

// By hand, so that letting one go is a call and not its parts at each way out.
impl Drop for RuleClause {
    fn drop(self) {
        let RuleClause {
            head: _,
            between: _,
            back: _,
            body: _,
        } = self;
    }
}

impl RuleClause {
    ghost use Rattle.std.specs.Prelude.{◌≡◌, option_copied};
    ghost use Rattle.pi_syntax.specs.ProgramTree.{cond_between, events_between};

    /// The condition, where there is one.
    pub fn cond(&self) -> Option<&Exp>
        ensures { option_copied result ≡ cond_between self.now.between }
    {
        match &self.between {
            Between::Nothing => None,
            Between::Condition(cond) => Some(cond),
            Between::Triggers(triggers) => triggers.cond.as_ref(),
        }
    }

    /// The events, of which there are none but in an action rule.
    pub fn events(&self) -> &[Exp]
        ensures { result.now ≡ events_between self.now.between }
    {
        match &self.between {
            Between::Nothing => &[],
            Between::Condition(_) => &[],
            Between::Triggers(triggers) => triggers.events.as_slice(),
        }
    }
}

/// What stands between a rule's head and its arrow, each kind in no more than it takes: most rules have nothing there, and
/// most others a condition alone.
pub enum Between {
    Nothing,
    Condition(Box<Exp>),
    Triggers(Box<Triggers>),
}

// By hand, so that letting one go is a call and not its parts at each way out.
impl Drop for Between {
    fn drop(self) {
        match self {
            Between::Nothing => {}
            Between::Condition(_) => {}
            Between::Triggers(_) => {}
        }
    }
}

/// The events of an action rule, and the condition before them, where there is one.
pub struct Triggers {
    pub cond: Option<Exp>,
    pub events: Exps,
}

// By hand, so that letting one go is a call and not its parts at each way out.
impl Drop for Triggers {
    fn drop(self) {
        let Triggers { cond: _, events: _ } = self;
    }
}

/// A function's rule or, with nothing behind the value, its fact.
pub struct FunctionClause {
    pub head: Exp,
    pub value: Exp,
    pub behind: Option<Box<FunctionBody>>,
}

// By hand, so that letting one go is a call and not its parts at each way out.
impl Drop for FunctionClause {
    fn drop(self) {
        let FunctionClause {
            head: _,
            value: _,
            behind: _,
        } = self;
    }
}

impl FunctionClause {
    ghost use Rattle.std.specs.Prelude.{◌≡◌, option_copied};
    ghost use Rattle.pi_syntax.specs.ProgramTree.{cond_behind, body_behind};

    /// The condition, where there is one.
    pub fn cond(&self) -> Option<&Exp>
        ensures { option_copied result ≡ cond_behind self.now.behind }
    {
        match &self.behind {
            Some(behind) => behind.cond.as_ref(),
            None => None,
        }
    }

    /// The body, which a fact lacks.
    pub fn body(&self) -> Option<&Exp>
        ensures { option_copied result ≡ body_behind self.now.behind }
    {
        match &self.behind {
            Some(behind) => Some(&behind.body),
            None => None,
        }
    }
}

/// What stands behind the value of a function's rule.
pub struct FunctionBody {
    pub cond: Option<Exp>,
    pub body: Exp,
}

// By hand, so that letting one go is a call and not its parts at each way out.
impl Drop for FunctionBody {
    fn drop(self) {
        let FunctionBody { cond: _, body: _ } = self;
    }
}

/// A place of a mode list: `+` for one that is ground in a call, `-` for any.
#[derive(Clone, Copy)]
pub enum Mode {
    Plus,
    Minus,
}

/// A mode list, from the left.
pub type Modes = Series<Mode>;

/// Mode lists, in order, behind one pointer, so that a declaration is small: most clauses have none.
pub type ModeLists = BoxedSeries<Modes>;

/// What stands before a part's clause.
#[derive(Drop)]
pub enum Decl {
    Plain,
    Import(Names),
    Index(ModeLists),
}

/// A part of a program: what stands between two end points.
pub struct Part {
    pub decl: Decl,
    pub clause: Option<Clause>,
}

// By hand, so that letting one go is a call and not its parts at each way out.
impl Drop for Part {
    fn drop(self) {
        let Part { decl: _, clause: _ } = self;
    }
}

/// Parts, in the order of the text.
pub type Parts = Series<Part>;

/// A program as it is written.
#[derive(Drop)]
pub struct Program {
    pub parts: Parts,
}

/// A goal as it is written.
#[derive(Drop)]
pub struct Goal {
    pub body: Exp,
}
