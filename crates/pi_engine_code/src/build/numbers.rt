//! Predicates and functions by what a call names.
ghost use Rattle.std.specs.Prelude.{◌≡◌, ◌++◌, [], List, IfOk};
ghost use Rattle.pi_core.specs.declared.core_program.CorePred.{CorePred as Pred};
ghost use Rattle.pi_engine_code.specs.Numbers.{number_in, IsNumbering};

use super::short;
use pi_core::CorePred;
use pi_terms::Text;
use std::alloc::{AllocError, Global};
use std::collections::HashMap;

/// What a call names: a predicate or a function, its name, and its number of arguments.
#[derive(Clone, Copy, PartialEq, Eq, Hash)]
pub struct Key<'n> {
    pub is_function: bool,
    pub name: &'n str,
    pub arity: u32,
}

/// The numbers of predicates and functions, in their order.
#[derive(Drop)]
pub struct Numbers<'n> {
    by_key: HashMap<Key<'n>, u32>,
    count: u32,
}

impl<'n> Numbers<'n> {
    /// No predicates.
    pub fn new(alloc: Global) -> Numbers<'n>
        ensures { IsNumbering result [] }
    {
        Numbers {
            by_key: HashMap::new(alloc),
            count: 0,
        }
    }

    /// Numbers more predicates, behind those that have a number.
    pub fn add(&mut self, preds: &'n [CorePred]) -> Result<(), AllocError>
        ensures { IfOk result (λ _. (front : List Pred) → IsNumbering self.old front → IsNumbering self.new (front ++ preds.now)) }
    {
        for pred in preds {
            self.by_key.insert(key_of(pred), self.count)?;
            let Some(count) = self.count.checked_add(1) else {
                return Err(AllocError);
            };
            self.count = count;
        }
        Ok(())
    }

    /// The number of the one that a call names.
    pub fn get(
        &self,
        is_function: bool,
        name: &Text,
        arity: usize,
    ) -> Result<Option<u32>, AllocError>
        ensures { IfOk result (λ number. number ≡ number_in self.now is_function name.now arity) }
    {
        let key = Key {
            is_function,
            name: name.as_str(),
            arity: short(arity)?,
        };
        Ok(self.by_key.get(&key).copied())
    }
}

/// What names a predicate in calls.
fn key_of(pred: &CorePred) -> Key<'_>
    ensures function { result.is_function ≡ pred.now.function }
    ensures name { result.name.now ≡ pred.now.name }
    ensures arity { result.arity ≡ pred.now.arity }
{
    Key {
        is_function: pred.function,
        name: pred.name.as_str(),
        arity: pred.arity,
    }
}
