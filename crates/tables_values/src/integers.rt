//! Operations on integers, and their values or faults.

use pi_arith::{ArithFault, Op, evaluate};
use tables_cases::{Case, named};

/// Each operation with its word.
const OPERATIONS: [(&str, Op); 18] = [
    ("Add", Op::Add),
    ("Sub", Op::Sub),
    ("Mul", Op::Mul),
    ("Quot", Op::Quot),
    ("Floor", Op::Floor),
    ("Ceil", Op::Ceil),
    ("Mod", Op::Mod),
    ("Rem", Op::Rem),
    ("Pow", Op::Pow),
    ("ShiftLeft", Op::ShiftLeft),
    ("ShiftRight", Op::ShiftRight),
    ("And", Op::And),
    ("Or", Op::Or),
    ("Xor", Op::Xor),
    ("Neg", Op::Neg),
    ("Not", Op::Not),
    ("Abs", Op::Abs),
    ("Sign", Op::Sign),
];

/// Tells the value of an operation at two integers, or its fault. One of one place leaves the second integer unread.
pub fn answer(case: &Case) {
    let Some(operation) = operation_of(case.take_word()) else {
        return case.lacks("a known operation");
    };
    let a = case.take_integer();
    let b = case.take_integer();
    match evaluate(operation, a, b) {
        Ok(value) => case.tell_integer(value),
        Err(fault) => case.tell_shown(fault),
    }
}

/// The operation with a word.
fn operation_of(word: &str) -> Option<Op> {
    named(&OPERATIONS, word)
}
