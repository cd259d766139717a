//! The arguments of a call.
ghost use Rattle.std.specs.Prelude.{◌≡◌, IfOk};

use crate::term::Term;
use std::alloc::{AllocError, Global};
use std::marker::Model;

/// The arguments of a call, from the left. A contract sees the list of their trees.
pub struct Args {
    terms: Vec<Term>,
}

// By hand, so that letting one go is a call and not its parts at each way out.
impl Drop for Args {
    fn drop(self) {
        let Args { terms: _ } = self;
    }
}

impl Model for Args {
    ghost use Rattle.std.specs.Prelude.{List};
    ghost use Rattle.std.specs.Coded.{coded_list};
    ghost use Rattle.pi_terms.specs.Tree.{Tree};
    ghost use Rattle.pi_terms.specs.TermCells.{tree_code};

    ghost Value = { List Tree };

    ghost coded = { coded_list tree_code };

    ghost view = { λ a. a.terms.items };
}

impl Args {
    /// The arguments that these terms are.
    pub fn new(alloc: Global, terms: &[Term]) -> Result<Args, AllocError>
        ensures ok { IfOk result (λ made. made ≡ terms.now) }
    {
        let mut copies = Vec::new(alloc);
        for term in terms {
            copies.push(term.copy(alloc)?)?;
        }
        Ok(Args { terms: copies })
    }

    /// Their terms, from the left.
    pub fn as_slice(&self) -> &[Term]
        ensures { result.now ≡ self.now }
    {
        self.terms.as_slice()
    }

    /// Other arguments with the same trees.
    pub fn copy(&self, alloc: Global) -> Result<Args, AllocError>
        ensures ok { IfOk result (λ made. made ≡ self.now) }
    {
        Args::new(alloc, self.as_slice())
    }
}
