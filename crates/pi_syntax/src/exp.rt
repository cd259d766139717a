//! Expressions as they are written.
use crate::integer::Integer;
use pi_terms::Text;

/// An expression as it is written: a term, a call or a goal. Operators, `not` and `once` are a `Call` with their sign as
/// name. A User's Guide to Picat, 'Appendix: Formats' and 'Predicates and Functions'.
pub enum Exp {
    Var(Text),
    Int(Integer),
    Atom(Text),
    Str(Text),
    /// Items, and what follows the bar where there is one.
    List(Exps, Option<Box<Exp>>),
    Array(Exps),
    Call(Text, Exps),
    Quote(Box<Exp>),
    Index(Box<Exp>, Exps),
    /// First value, step where there is one, last value.
    Range(Box<Exp>, Option<Box<Exp>>, Box<Exp>),
    /// `V@P`.
    At(Text, Box<Exp>),
    /// A comprehension, of an array where the first part is true: its item, then its iterators and tests.
    Collect(bool, Box<Exp>, Exps),
    And(Exps),
    Or(Exps),
    Arrow(Box<Exp>, Box<Exp>),
    /// Conditions with their bodies, and the body of `else` where there is one.
    If(Branches, Option<Box<Exp>>),
    Foreach(Exps, Box<Exp>),
    While(Box<Exp>, Box<Exp>),
    /// Body, then test.
    DoWhile(Box<Exp>, Box<Exp>),
}

// By hand, so that letting one go is a call and not its parts at each way out.
impl Drop for Exp {
    fn drop(self) {
        match self {
            Exp::Var(_) => {}
            Exp::Int(_) => {}
            Exp::Atom(_) => {}
            Exp::Str(_) => {}
            Exp::List(_, _) => {}
            Exp::Array(_) => {}
            Exp::Call(_, _) => {}
            Exp::Quote(_) => {}
            Exp::Index(_, _) => {}
            Exp::Range(_, _, _) => {}
            Exp::At(_, _) => {}
            Exp::Collect(_, _, _) => {}
            Exp::And(_) => {}
            Exp::Or(_) => {}
            Exp::Arrow(_, _) => {}
            Exp::If(_, _) => {}
            Exp::Foreach(_, _) => {}
            Exp::While(_, _) => {}
            Exp::DoWhile(_, _) => {}
        }
    }
}

/// An expression that is taken apart.
#[derive(Drop)]
pub enum Apart {
    Conjunction(Exps),
    Array(Exps),
    Call(Text, Exps),
    /// Any other, whole.
    Other(Exp),
}

impl Exp {
    ghost use Rattle.pi_syntax.specs.Apart.{IsApart};

    /// The parts of a conjunction, an array or a call; any other stays whole.
    pub fn apart(self) -> Apart
        ensures { IsApart result self }
    {
        match self {
            Exp::And(units) => Apart::Conjunction(units),
            Exp::Array(items) => Apart::Array(items),
            Exp::Call(name, args) => Apart::Call(name, args),
            _ => Apart::Other(self),
        }
    }
}

/// Expressions from the left.
pub type Exps = Vec<Exp>;

/// Conditions with their bodies, in order.
pub type Branches = Vec<(Exp, Exp)>;
