//! The built-in predicates. A User's Guide to Picat, 'Appendix: Predicates and Functions'; which of them are there is own.
use crate::kinds::TermKind;
use crate::ordering::TermRelation;
use crate::relations::Relation;

/// A predicate without arguments.
#[derive(Clone, Copy)]
pub enum PredicateOfNone {
    True,
    Fail,
    /// `nl`
    LineFeed,
}

/// A predicate with one argument.
#[derive(Clone, Copy)]
pub enum PredicateOfOne {
    /// A test of the kind of a term.
    Kind(TermKind),
    Ground,
    Throw,
    Print,
    /// `println`
    PrintLine,
    Write,
    /// `writeln`
    WriteLine,
}

/// A predicate with two arguments.
#[derive(Clone, Copy)]
pub enum PredicateOfTwo {
    /// `=`
    Unify,
    /// `!=`
    Differ,
    /// A relation of two integers.
    Integers(Relation),
    /// A relation of two terms by the standard order.
    Terms(TermRelation),
}

/// A predicate that is built in, by its number of arguments.
#[derive(Clone, Copy)]
pub enum Predicate {
    OfNone(PredicateOfNone),
    OfOne(PredicateOfOne),
    OfTwo(PredicateOfTwo),
    /// `printf`, with 1 to 16 arguments
    Printf,
}
