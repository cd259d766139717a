//! Activations as terms of a store.
ghost use Rattle.std.specs.Prelude.{◌≡◌, ℕ, Some, IfOk};
ghost use Rattle.pi_terms.specs.Tree.{Tree, arg_at};
ghost use Rattle.pi_store_blocks.specs.Heap.{Heap, term_at};
ghost use Rattle.pi_store.specs.Waiting.{number_at, number_shown, ShowsArgument, WaitsAt};
ghost use Rattle.pi_store.specs.Holding.{heap_of, activation_in};

use crate::read::{Reading, arity, read};
use pi_constraints::{Activation, Cell, Ref};
use pi_region::Trailed;
use pi_store_blocks as raw;
use pi_store_blocks::RawNames;
use pi_terms::Term;
use std::alloc::{AllocError, Global};

/// An integer is no number of 64 bits from here on.
const NO_NUMBER: i128 = 18_446_744_073_709_551_616;

/// The activation with this word of the table of those that wait.
pub fn activation(
    alloc: Global,
    names: &RawNames,
    words: &Trailed,
    word: u64,
) -> Result<Activation, AllocError>
    ensures { IfOk result (λ found. WaitsAt (heap_of names.now words.now) word → found ≡ activation_in (heap_of names.now words.now) word) }
{
    if word == 0 {
        return Ok(Activation {
            agent: 0,
            watch: 0,
            value: None,
        });
    }
    let made = Ref { number: word };
    let agent = number_at(words, made, 0);
    let watch = number_at(words, made, 1);
    let value = value_at(alloc, names, words, made)?;
    Ok(Activation {
        agent,
        watch,
        value,
    })
}

/// The value of the activation that a term is.
fn value_at(
    alloc: Global,
    names: &RawNames,
    words: &Trailed,
    made: Ref,
) -> Result<Option<Term>, AllocError>
    ensures { IfOk result (λ found. (t : Tree) → term_at (heap_of names.now words.now) made.number ≡ Some t → found ≡ arg_at t 2) }
{
    let Some(value) = argument(words, made, 2) else {
        return Ok(None);
    };
    match read(alloc, names, words, Reading::Made, value) {
        Ok(value) => Ok(Some(value)),
        Err(_) => Err(AllocError),
    }
}

/// The number that stands as an argument of a term, counted from 0; 0 where none does. It takes no memory.
fn number_at(words: &Trailed, made: Ref, i: u64) -> u64
    ensures { (h : Heap) (t : Tree) → h.words ≡ words.now.region → term_at h made.number ≡ Some t → result ≡ number_at (arg_at t i) }
{
    match argument(words, made, i) {
        Some(found) => number(raw::cell(words, found)),
        None => 0,
    }
}

/// The number of 64 bits that an integer is; 0 for any other.
fn number(cell: Cell) -> u64
    ensures { result ≡ number_shown cell }
{
    match cell {
        Cell::Int(n) => { if n < 0 || n >= NO_NUMBER { 0 } else { n as u64 } }
        Cell::Var(_) | Cell::Atom(_) | Cell::Comp(_, _) => 0,
    }
}

/// An argument of a term, counted from 0, where it has so many. It takes no memory.
fn argument(words: &Trailed, r: Ref, i: u64) -> Option<Ref>
    ensures { (h : Heap) (t : Tree) → h.words ≡ words.now.region → term_at h r.number ≡ Some t → ShowsArgument h (arg_at t i) result }
{
    if i < arity(raw::cell(words, r)) {
        Some(raw::arg(words, r, i))
    } else {
        None
    }
}
