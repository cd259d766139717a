//! Which built-in a name is.
ghost use Rattle.std.specs.Prelude.{◌≡◌, ◌↔◌, ◌++◌, ℕ, List, true, false, IfSome, IfNone, IfOk, IsTrue, Contains};
ghost use Rattle.pi_effects.specs.BuiltIns.{is_function, is_predicate};
ghost use Rattle.pi_lib_builtin.specs.Names.{takes};
ghost use Rattle.pi_lib_builtin.specs.Resolved.{IsFunctionNamed, IsPredicateNamed, rows_shown, first_named, named_with};

use crate::functions::{Function, FunctionOfCollection, FunctionOfOne, FunctionOfTwo};
use crate::kinds::TermKind;
use crate::ordering::TermRelation;
use crate::predicates::{Predicate, PredicateOfNone, PredicateOfOne, PredicateOfTwo};
use crate::relations::Relation;
use pi_effects::Op;
use std::alloc::{AllocError, Global};

/// A name, with what it is.
type Row<T> = (&'static str, T);

const FUNCTIONS_OF_ONE: [Row<FunctionOfOne>; 29] = [
    ("+", FunctionOfOne::Same),
    ("-", FunctionOfOne::Negate),
    ("abs", FunctionOfOne::Magnitude),
    ("sign", FunctionOfOne::Sign),
    ("~", FunctionOfOne::Complement),
    (
        "length",
        FunctionOfOne::Collection(FunctionOfCollection::Length),
    ),
    (
        "len",
        FunctionOfOne::Collection(FunctionOfCollection::Length),
    ),
    (
        "head",
        FunctionOfOne::Collection(FunctionOfCollection::Head),
    ),
    (
        "tail",
        FunctionOfOne::Collection(FunctionOfCollection::Tail),
    ),
    (
        "first",
        FunctionOfOne::Collection(FunctionOfCollection::First),
    ),
    (
        "last",
        FunctionOfOne::Collection(FunctionOfCollection::Last),
    ),
    (
        "reverse",
        FunctionOfOne::Collection(FunctionOfCollection::Reverse),
    ),
    ("sum", FunctionOfOne::Collection(FunctionOfCollection::Sum)),
    (
        "prod",
        FunctionOfOne::Collection(FunctionOfCollection::Product),
    ),
    (
        "to_list",
        FunctionOfOne::Collection(FunctionOfCollection::ToList),
    ),
    (
        "to_array",
        FunctionOfOne::Collection(FunctionOfCollection::ToArray),
    ),
    (
        "sort",
        FunctionOfOne::Collection(FunctionOfCollection::Sort),
    ),
    (
        "sort_remove_dups",
        FunctionOfOne::Collection(FunctionOfCollection::SortOnce),
    ),
    (
        "remove_dups",
        FunctionOfOne::Collection(FunctionOfCollection::EachOnce),
    ),
    (
        "min",
        FunctionOfOne::Collection(FunctionOfCollection::Least),
    ),
    (
        "max",
        FunctionOfOne::Collection(FunctionOfCollection::Greatest),
    ),
    ("name", FunctionOfOne::Name),
    ("arity", FunctionOfOne::Arity),
    ("to_string", FunctionOfOne::ToString),
    ("new_list", FunctionOfOne::NewList),
    ("new_array", FunctionOfOne::NewArray),
    ("copy_term", FunctionOfOne::CopyTerm),
    ("once", FunctionOfOne::Itself),
    ("not", FunctionOfOne::InOrder),
];

const FUNCTIONS_OF_TWO: [Row<FunctionOfTwo>; 24] = [
    ("+", FunctionOfTwo::Operation(Op::Add)),
    ("-", FunctionOfTwo::Operation(Op::Sub)),
    ("*", FunctionOfTwo::Operation(Op::Mul)),
    ("//", FunctionOfTwo::Operation(Op::Quot)),
    ("/<", FunctionOfTwo::Operation(Op::Floor)),
    ("div", FunctionOfTwo::Operation(Op::Floor)),
    ("/>", FunctionOfTwo::Operation(Op::Ceil)),
    ("mod", FunctionOfTwo::Operation(Op::Mod)),
    ("rem", FunctionOfTwo::Operation(Op::Rem)),
    ("**", FunctionOfTwo::Operation(Op::Pow)),
    (">>", FunctionOfTwo::Operation(Op::ShiftRight)),
    ("<<", FunctionOfTwo::Operation(Op::ShiftLeft)),
    ("/\\", FunctionOfTwo::Operation(Op::And)),
    ("\\/", FunctionOfTwo::Operation(Op::Or)),
    ("^", FunctionOfTwo::Operation(Op::Xor)),
    ("min", FunctionOfTwo::Least),
    ("max", FunctionOfTwo::Greatest),
    ("++", FunctionOfTwo::Append),
    ("delete_all", FunctionOfTwo::DeleteAll),
    ("zip", FunctionOfTwo::Zip),
    ("in", FunctionOfTwo::Item),
    ("..", FunctionOfTwo::Range),
    ("new_array", FunctionOfTwo::NewGrid),
    (":=", FunctionOfTwo::RangeCount),
];

const PREDICATES_OF_NONE: [Row<PredicateOfNone>; 3] = [
    ("true", PredicateOfNone::True),
    ("fail", PredicateOfNone::Fail),
    ("nl", PredicateOfNone::LineFeed),
];

const PREDICATES_OF_ONE: [Row<PredicateOfOne>; 16] = [
    ("var", PredicateOfOne::Kind(TermKind::Variable)),
    ("nonvar", PredicateOfOne::Kind(TermKind::NoVariable)),
    ("integer", PredicateOfOne::Kind(TermKind::Integer)),
    ("int", PredicateOfOne::Kind(TermKind::Integer)),
    ("atom", PredicateOfOne::Kind(TermKind::Atom)),
    ("atomic", PredicateOfOne::Kind(TermKind::Atomic)),
    ("compound", PredicateOfOne::Kind(TermKind::Compound)),
    ("list", PredicateOfOne::Kind(TermKind::List)),
    ("array", PredicateOfOne::Kind(TermKind::Array)),
    ("struct", PredicateOfOne::Kind(TermKind::Structure)),
    ("ground", PredicateOfOne::Ground),
    ("throw", PredicateOfOne::Throw),
    ("print", PredicateOfOne::Print),
    ("println", PredicateOfOne::PrintLine),
    ("write", PredicateOfOne::Write),
    ("writeln", PredicateOfOne::WriteLine),
];

const PREDICATES_OF_TWO: [Row<PredicateOfTwo>; 14] = [
    ("=", PredicateOfTwo::Unify),
    ("!=", PredicateOfTwo::Differ),
    ("==", PredicateOfTwo::Terms(TermRelation::Same)),
    ("!==", PredicateOfTwo::Terms(TermRelation::Different)),
    ("<", PredicateOfTwo::Integers(Relation::Less)),
    ("=<", PredicateOfTwo::Integers(Relation::AtMost)),
    (">", PredicateOfTwo::Integers(Relation::Greater)),
    (">=", PredicateOfTwo::Integers(Relation::AtLeast)),
    ("=:=", PredicateOfTwo::Integers(Relation::Equal)),
    ("=\\=", PredicateOfTwo::Integers(Relation::Unequal)),
    ("@<", PredicateOfTwo::Terms(TermRelation::Before)),
    ("@=<", PredicateOfTwo::Terms(TermRelation::NotAfter)),
    ("@>", PredicateOfTwo::Terms(TermRelation::After)),
    ("@>=", PredicateOfTwo::Terms(TermRelation::NotBefore)),
];

/// The function of a name with this number of arguments; None exactly where none is built in.
pub fn function_named(name: &str, arity: usize) -> Option<Function>
    ensures some { IfSome result (λ f. IsFunctionNamed name.now arity f) }
    ensures none { IfNone result (is_function name.now arity ≡ false) }
{
    match arity {
        1 => match find(&FUNCTIONS_OF_ONE, name) {
            Some(f) => Some(Function::OfOne(f)),
            None => None,
        },
        2 => match find(&FUNCTIONS_OF_TWO, name) {
            Some(f) => Some(Function::OfTwo(f)),
            None => None,
        },
        3 => {
            if name == ".." {
                Some(Function::RangeBy)
            } else {
                None
            }
        }
        _ => None,
    }
}

/// The predicate of a name with this number of arguments; None exactly where none is built in.
pub fn predicate_named(name: &str, arity: usize) -> Option<Predicate>
    ensures some { IfSome result (λ p. IsPredicateNamed name.now arity p) }
    ensures none { IfNone result (is_predicate name.now arity ≡ false) }
{
    if name == "printf" {
        return printf_with(arity);
    }
    match arity {
        0 => match find(&PREDICATES_OF_NONE, name) {
            Some(p) => Some(Predicate::OfNone(p)),
            None => None,
        },
        1 => match find(&PREDICATES_OF_ONE, name) {
            Some(p) => Some(Predicate::OfOne(p)),
            None => None,
        },
        2 => match find(&PREDICATES_OF_TWO, name) {
            Some(p) => Some(Predicate::OfTwo(p)),
            None => None,
        },
        _ => None,
    }
}

/// All names of built-in predicates, each with a number of arguments.
pub fn predicate_names<'n>(alloc: Global) -> Result<Vec<(&'n str, u32)>, AllocError>
    ensures { IfOk result (λ made. (name : List ℕ) (k : ℕ) → IsTrue (is_predicate name k) ↔ Contains (rows_shown made.items) (name, k)) }
{
    let mut names = Vec::new(alloc);
    push_names(&mut names, &PREDICATES_OF_NONE, 0)?;
    push_names(&mut names, &PREDICATES_OF_ONE, 1)?;
    push_names(&mut names, &PREDICATES_OF_TWO, 2)?;
    for more in 0..16 {
        names.push(("printf", more + 1))?;
    }
    Ok(names)
}

/// Pushes the names of rows, each with this number of arguments.
fn push_names<'n, T: Copy>(
    names: &mut Vec<(&'n str, u32)>,
    rows: &[Row<T>],
    arity: u32,
) -> Result<(), AllocError>
    ensures { IfOk result (λ _. rows_shown names.new.items ≡ rows_shown names.old.items ++ named_with arity (rows_shown rows.now)) }
{
    for row in rows {
        names.push((row.0, arity))?;
    }
    Ok(())
}

/// `printf`, where it has this number of arguments.
fn printf_with(arity: usize) -> Option<Predicate>
    ensures some { IfSome result (λ p. (p ≡ Predicate.Printf) × (takes Predicate.Printf arity ≡ true)) }
    ensures none { IfNone result (takes Predicate.Printf arity ≡ false) }
{
    if 0 < arity && arity < 17 {
        Some(Predicate::Printf)
    } else {
        None
    }
}

/// What stands in the first row with a name.
#[tactic(auto, unfolding(crate::specs::Resolved::first_named))]
fn find<T: Copy>(rows: &[Row<T>], name: &str) -> Option<T>
    ensures { result ≡ first_named name.now (rows_shown rows.now) }
{
    for row in rows {
        if row.0 == name {
            return Some(row.1);
        }
    }
    None
}
