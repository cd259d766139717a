//! The names that clauses define.
ghost use Rattle.std.specs.Prelude.{◌≡◌};
ghost use Rattle.pi_syntax.specs.Names.{kind_of};
ghost use Rattle.pi_prog_clauses.specs.Calls.{is_kind};

use crate::names::calls::Called;
use pi_syntax::{BuiltinKind, kind_of};
use std::alloc::{AllocError, Global};
use std::collections::BTreeSet;

/// A set of names with their numbers of arguments.
#[derive(Drop)]
pub(crate) struct Definitions<'a> {
    names: BTreeSet<Called<'a>>,
}

impl<'a> Definitions<'a> {
    ghost use Rattle.std.specs.Prelude.{◌≡◌, [], ◌∷◌, ◌++◌, List, Some, OnOk};
    ghost use Rattle.std.specs.List.{list_any};
    ghost use Rattle.pi_prog_clauses.specs.Called.{named_by};
    ghost use Rattle.pi_prog_clauses.specs.Calls.{Named, same_named, is_known};
    ghost use Rattle.pi_prog_clauses.specs.Defined.{signature_by, IsSetOf};
    ghost use Rattle.pi_prog_clauses.specs.Verdict.{holds, holds_other_kind};

    /// No names.
    pub(crate) fn new(alloc: Global) -> Definitions<'a>
        ensures { IsSetOf result [] }
    {
        Definitions {
            names: BTreeSet::new(alloc),
        }
    }

    /// One name more.
    pub(crate) fn insert(&mut self, name: Called<'a>) -> Result<(), AllocError>
        ensures behind { OnOk result ((names : List Named) → IsSetOf self.old names →
            IsSetOf self.new (names ++ named_by name.entry ∷ [])) }
        ensures before { OnOk result ((names : List Named) → IsSetOf self.old names → IsSetOf self.new (named_by name.entry ∷ names)) }
    {
        self.names.insert(name)?;
        Ok(())
    }

    /// Whether it is there, as a function's or as a predicate's as it is called.
    fn contains(&self, name: Called<'a>) -> bool
        ensures { (names : List Named) → IsSetOf self.now names → result ≡ list_any (same_named (named_by name.entry)) names }
    {
        self.names.contains(&name)
    }

    /// Whether it is there as the other kind.
    pub(crate) fn contains_other_kind(&self, name: Called<'a>) -> bool
        ensures { (names : List Named) → IsSetOf self.now names →
            result ≡ holds_other_kind names name.entry.is_function (Some (signature_by name.entry)) }
    {
        let other = Called {
            name: name.name,
            arity: name.arity,
            is_function: !name.is_function,
        };
        self.contains(other)
    }

    /// Whether it is there as one kind or the other.
    pub(crate) fn contains_name(&self, name: Called<'a>) -> bool
        ensures { (names : List Named) → IsSetOf self.now names → result ≡ holds names (Some (signature_by name.entry)) }
    {
        self.contains(name) || self.contains_other_kind(name)
    }

    /// Whether it is there or built in, as it is called.
    pub(crate) fn knows(&self, name: Called<'a>) -> bool
        ensures { (names : List Named) → IsSetOf self.now names → result ≡ is_known names (named_by name.entry) }
    {
        is_built_in_as(name) || self.contains(name)
    }
}

/// Whether it is built in, as a function or as a predicate as it is called.
fn is_built_in_as(name: Called) -> bool
    ensures { result ≡ is_kind name.entry.is_function (kind_of name.entry.name.now name.entry.arity) }
{
    match kind_of(name.name, name.arity) {
        None => false,
        Some(BuiltinKind::Function) => name.is_function,
        Some(BuiltinKind::Predicate) => !name.is_function,
        Some(BuiltinKind::Prelude) => !name.is_function,
    }
}
