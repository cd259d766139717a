//! Which names may be called.
ghost use Rattle.std.specs.Prelude.{◌≡◌};
ghost use Rattle.pi_effects.specs.BuiltIns.{is_function as is_function_name, is_predicate as is_predicate_name};
ghost use Rattle.pi_settling.specs.DomainValues.{is_domain_function};
ghost use Rattle.pi_settling.specs.Goals.{is_constraint_goal};
ghost use Rattle.pi_settling.specs.SolveCalls.{is_solve};
ghost use Rattle.pi_syntax.specs.Names.{kind_of as kind_in_tables};
ghost use Rattle.pi_rewrite_sound.specs.Built as spec;

use pi_label::is_solve as is_solve_named;
use pi_lib_builtin::{function_named, predicate_named};
use pi_rewrite_slots::Reading;
use pi_syntax::{BuiltinKind, is_form, kind_of};

/// Whether a predicate of this name may be called: one that is built in, a goal of constraints, `solve`, one of the prelude, or
/// of the program.
pub(crate) fn is_built_predicate(name: &str, count: usize) -> bool
    ensures { result ≡ spec.is_built_predicate name.now count }
{
    ((is_predicate(name, count) | is_constraint_goal(name, count)) | is_solve(name, count))
        | (is_own(name, count) | is_of_prelude(name, count))
}

/// Whether a function of this name may be called: one that is built in, of domains, or of the program. A sign of constraints
/// may stay as structure.
pub(crate) fn is_built_function(name: &str, count: usize) -> bool
    ensures { result ≡ spec.is_built_function name.now count }
{
    (is_function(name, count) | is_domain_function(name, count))
        | (is_own(name, count) | is_boolean_sign(name, count))
}

/// Whether a name is neither built in with this number of arguments nor `not`, `once`, `:=` or `in`.
fn is_own(name: &str, count: usize) -> bool
    ensures { result ≡ spec.is_own name.now count }
{
    !is_form(name, count) & kind_of(name, count).is_none()
}

/// Whether the prelude has rules of a predicate of this name.
fn is_of_prelude(name: &str, count: usize) -> bool
    ensures { result ≡ spec.is_prelude_kind (kind_in_tables name.now count) }
{
    match kind_of(name, count) {
        Some(kind) => match kind {
            BuiltinKind::Predicate => false,
            BuiltinKind::Function => false,
            BuiltinKind::Prelude => true,
        },
        None => false,
    }
}

/// Whether a predicate of this name is built in.
fn is_predicate(name: &str, count: usize) -> bool
    ensures { result ≡ is_predicate_name name.now count }
{
    match predicate_named(name, count) {
        Some(_) => true,
        None => false,
    }
}

/// Whether a function of this name is built in.
fn is_function(name: &str, count: usize) -> bool
    ensures { result ≡ is_function_name name.now count }
{
    match function_named(name, count) {
        Some(_) => true,
        None => false,
    }
}

/// Whether a name is a sign between constraints, or a relation of constraints.
fn is_boolean_sign(name: &str, count: usize) -> bool
    ensures { result ≡ spec.is_boolean_sign name.now count }
{
    Reading::Boolean.stays(name, count)
}

/// Whether a goal of constraints has this name.
fn is_constraint_goal(name: &str, count: usize) -> bool
    ensures { result ≡ is_constraint_goal name.now count }
{
    is_boolean_sign(name, count)
        | ((count == 2) & ((name == "::") | (name == "notin"))
            | ((count == 1) & ((name == "all_different") | (name == "all_distinct"))
                | ((count == 3) & (name == "element"))))
}

/// Whether a call of this name labels.
fn is_solve(name: &str, count: usize) -> bool
    ensures { result ≡ is_solve name.now count }
{
    match u32::try_from(count) {
        Ok(count) => is_solve_named(name, count),
        Err(_) => false,
    }
}

/// Whether a function of domains has this name.
#[tactic(auto, using(crate::proofs::GoalNames::function_tested))]
fn is_domain_function(name: &str, count: usize) -> bool
    ensures { result ≡ is_domain_function name.now count }
{
    (count == 1)
        & ((name == "fd_min") | ((name == "fd_max") | ((name == "fd_size") | (name == "fd_dom"))))
}
