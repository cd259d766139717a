//! The names of a head's variables.
use crate::nodes::form::Form;
use crate::nodes::walk::Walk;
use pi_syntax::Exp;
use std::alloc::{AllocError, Global};
use std::collections::BTreeSet;

/// The names of the variables in the arguments of a head.
#[derive(Drop)]
pub(crate) struct HeadNames<'a> {
    names: BTreeSet<&'a str>,
}

impl<'a> HeadNames<'a> {
    ghost use Rattle.std.specs.Prelude.{◌≡◌, ◌||◌, ℕ, List, false, IfOk, OnOk};
    ghost use Rattle.pi_syntax.specs.ExpTree.{exp_tree};
    ghost use Rattle.pi_prog_clauses.specs.Form.{shown_form, is_variable_form};
    ghost use Rattle.pi_prog_clauses.specs.HeadNames.{holds, has, AreNamesOf};

    /// Those of one head, collected in one walk.
    pub(crate) fn of(alloc: Global, head: &'a Exp) -> Result<HeadNames<'a>, AllocError>
        ensures { IfOk result (λ names. AreNamesOf names (exp_tree head.now)) }
    {
        let mut names = HeadNames::new(alloc);
        let mut walk = Walk::of_head(alloc, head)?;
        while let Some(node) = walk.next()? {
            let form = Form::of(node.exp);
            names.insert(form)?;
        }
        Ok(names)
    }

    /// No names.
    fn new(alloc: Global) -> HeadNames<'a>
        ensures { (name : List ℕ) → holds result name ≡ false }
    {
        HeadNames {
            names: BTreeSet::new(alloc),
        }
    }

    /// The name of a node, where it is a variable or `V@P`.
    fn insert(&mut self, form: Form<'a>) -> Result<(), AllocError>
        ensures { OnOk result ((name : List ℕ) → holds self.new name ≡
            (is_variable_form name (shown_form form.entry) || holds self.old name)) }
    {
        let name = match form {
            Form::Variable(name) => name,
            Form::Binding(name) => name,
            _ => return Ok(()),
        };
        self.names.insert(name)?;
        Ok(())
    }

    /// Whether a variable of this name occurs in the head; each `_` is a name of its own.
    pub(crate) fn has(&self, name: &str) -> bool
        ensures { result ≡ has self.now name.now }
    {
        if name == "_" {
            return false;
        }
        self.names.contains(name)
    }
}
