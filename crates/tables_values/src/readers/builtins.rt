//! Names, and what they are with so many arguments.

use pi_lib::{BuiltinKind, is_builtin};
use pi_syntax::kind_of;
use std::str;
use tables_cases::{Case, bytes_of};

/// Below which number of arguments a name is asked, where no number stands before it.
const MOST: u32 = 20;

/// Tells what a name is: with each number of arguments below 20, or with the number that stands before it.
pub fn answer(case: &Case, line: &str) {
    let (asked, written) = line.split_once(' ').unwrap_or((line, ""));
    let name = bytes_of(case, written);
    let name = str::from_utf8(name.as_slice()).unwrap_or("");
    match asked.parse() {
        Ok(arity) => case.tell(told(kind_of(name, arity))),
        Err(_) if asked == "each" => tell_each(case, name),
        Err(_) => case.lacks("`each` or a number, and a name"),
    }
}

/// Tells each kind behind which a number of arguments stands, and those numbers.
fn tell_each(case: &Case, name: &str) {
    let mut last = None;
    for arity in 0..MOST {
        let kind = is_builtin(name, arity);
        if kind.is_none() {
            continue;
        }
        case.begin(" ");
        if kind != last {
            case.tell(told(kind));
            case.tell(" ");
        }
        case.tell_number(u64::from(arity));
        last = kind;
    }
    if last.is_none() {
        case.tell(told(None));
    }
}

fn told(kind: Option<BuiltinKind>) -> &'static str {
    match kind {
        Some(BuiltinKind::Function) => "function",
        Some(BuiltinKind::Predicate) => "predicate",
        Some(BuiltinKind::Prelude) => "prelude",
        None => "not built in",
    }
}
