//! Programs and goals as they are written: tokens, expressions, parts.
#![tactic(auto)]

mod builtin;
mod builtin_laws;
mod exp;
mod forms;
mod integer;
pub mod laws;
mod program;
mod rows;
mod rules;

pub use builtin::{BuiltinKind, is_builtin, kind_of};
pub use builtin_laws::tables_are_disjoint;
pub use exp::{Apart, Branches, Exp, Exps};
pub use forms::is_form;
pub use integer::Integer;
pub use program::{
    Between, Clause, Decl, FunctionBody, FunctionClause, Goal, Mode, ModeLists, Modes, Names, Part,
    Parts, Program, RuleClause, Triggers,
};
pub use rules::prelude;
