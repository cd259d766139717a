//! Bindings, and what they make of lists.
ghost use Rattle.std.specs.Prelude.{◌≡◌, suc, ◌<◌, ◌^◌, IfOk, OnErr};
ghost use Rattle.pi_region.specs.Back.{Advances};
ghost use Rattle.pi_store.specs.Added.{AddsToLists, IsJoinedTo, BindsTo};

use crate::heads::{give_back, list_end};
use crate::lists::add_along;
use crate::walk::variable;
use pi_constraints::Ref;
use pi_region::{Table, Trailed};
use pi_store_blocks::Node;
use std::alloc::AllocError;

/// How many variables can be bound. Binding one past them is want of memory.
const MOST_BOUND: u64 = 576_460_752_303_423_488;

/// Puts what the list of a variable has into the lists of the variable that a term is and of all that it leads to. A refusal may leave
/// words.
fn join_lists(words: &mut Trailed, n: u64, to: Ref) -> Result<(), AllocError>
    ensures ok { IfOk result (λ _. IsJoinedTo words.old words.new n to.number) }
    ensures adds { AddsToLists words.old words.new }
{
    let _len = words.len();
    let end = list_end(words, n);
    if end == 0 {
        return Ok(());
    }
    let number = Node::at(words, end).number;
    match variable(to) {
        Some(m) => Ok(add_along(words, m, number, end)?),
        None => Ok(()),
    }
}

/// Joins lists, and then gives a variable another word. A refusal may leave words.
fn join_and_bind(words: &mut Trailed, n: u64, to: Ref) -> Result<(), AllocError>
    requires { suc to.number < 2 ^ 64 }
    ensures ok { IfOk result (λ _. BindsTo words.old words.new n to.number) }
    ensures advances { Advances words.old words.new }
{
    let _len = words.len();
    if n >= MOST_BOUND {
        return Err(AllocError);
    }
    join_lists(words, n, to)?;
    words.replace(Table::Variables, n as usize, to.number + 1)?;
    Ok(())
}

/// Binds the variable with this number.
pub fn bind_variable(words: &mut Trailed, n: u64, to: Ref) -> Result<(), AllocError>
    requires { suc to.number < 2 ^ 64 }
    ensures ok { IfOk result (λ _. BindsTo words.old words.new n to.number) }
    ensures err { OnErr result (words.new ≡ words.old) }
{
    let start = words.len();
    match join_and_bind(words, n, to) {
        Ok(()) => Ok(()),
        Err(refused) => Err(give_back(words, start, refused)),
    }
}
