//! Which names the language builds in.
ghost use Rattle.std.specs.Prelude.{◌≡◌};
ghost use Rattle.std.specs.List.{list_any};
ghost use Rattle.pi_syntax.specs.Names.{kind_of, is_named_by, rows_shown};

use crate::rows::{FUNCTIONS, PREDICATES, PRELUDE, Row};

/// What a name that is built in names. A User's Guide to Picat, 'Appendix: Predicates and Functions'.
#[derive(Clone, Copy, PartialEq, Eq)]
pub enum BuiltinKind {
    /// A predicate that no rules define.
    Predicate,
    /// A function that no rules define.
    Function,
    /// A predicate whose rules are the prelude's (own).
    Prelude,
}

/// What the name is with this number of arguments; `None` exactly where it isn't built in with that number.
#[tactic(auto, unfolding(crate::specs::Names::kind_of, crate::specs::Names::function_rows, crate::specs::Names::predicate_rows, crate::specs::Names::prelude_rows))]
pub fn is_builtin(name: &str, arity: u32) -> Option<BuiltinKind>
    ensures { result ≡ kind_of name.now arity }
{
    if is_listed(&FUNCTIONS, name, arity) {
        Some(BuiltinKind::Function)
    } else if is_listed(&PREDICATES, name, arity) {
        Some(BuiltinKind::Predicate)
    } else if is_listed(&PRELUDE, name, arity) {
        Some(BuiltinKind::Prelude)
    } else {
        None
    }
}

/// The same for a number of arguments that may be past 32 bits, with which nothing is built in.
pub fn kind_of(name: &str, arity: usize) -> Option<BuiltinKind>
    ensures { result ≡ kind_of name.now arity }
{
    match u32::try_from(arity) {
        Ok(arity) => is_builtin(name, arity),
        Err(_) => None,
    }
}

/// Whether a table has the name with this number of arguments.
fn is_listed(rows: &[Row], name: &str, arity: u32) -> bool
    ensures { result ≡ list_any (is_named_by name.now arity) (rows_shown rows.now) }
{
    for row in rows {
        if row.0 == name && row.1 <= arity && arity <= row.2 {
            return true;
        }
    }
    false
}
