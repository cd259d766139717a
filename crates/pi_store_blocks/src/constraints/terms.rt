//! Terms of sums as numbers.
ghost use Rattle.std.specs.Prelude.{◌≡◌, ◌+◌, ◌*◌, ◌<◌, ◌^◌, ◌∷◌, [], map, drop, IfOk, OnErr};
ghost use Rattle.pi_region.specs.Entry.{data_of};
ghost use Rattle.pi_region.specs.Image.{appended};
ghost use Rattle.pi_store_blocks.specs.Heap.{Appends};
ghost use Rattle.pi_store_blocks.specs.Terms.{term_numbers, terms_of, term_at};

use crate::block::Block;
use crate::numbers::{moved_down, moved_up};
use pi_constraints::{LinTerm, LinTerms};
use pi_region::{Trailed, data};
use pi_terms::Series;
use std::alloc::{AllocError, Global};

/// Numbers of variables below this are told apart.
const VARIABLES: u64 = 576_460_752_303_423_488;

/// Terms, two numbers each.
pub fn append_terms(words: &mut Trailed, terms: &[LinTerm]) -> Result<(), AllocError>
    ensures ok { IfOk result (λ _. words.new ≡ appended words.old (map data_of (term_numbers terms.now))) }
    ensures appends { Appends words.old words.new }
{
    for term in terms {
        append_term(words, *term)?;
    }
    Ok(())
}

/// A coefficient and its variable.
fn append_term(words: &mut Trailed, term: LinTerm) -> Result<(), AllocError>
    ensures ok { IfOk result (λ _. words.new ≡ appended words.old (map data_of (term_numbers (term ∷ [])))) }
    ensures err { OnErr result (words.new ≡ words.old) }
{
    let (coefficient, variable) = term;
    words.append_two(data(moved_up(coefficient)), data(variable % VARIABLES))?;
    Ok(())
}

/// The terms from a place of a block on.
pub fn read_terms(alloc: Global, block: &Block, from: usize) -> Result<LinTerms, AllocError>
    ensures { IfOk result (λ made. made ≡ terms_of (drop from block.now)) }
{
    let mut terms = Series::new(alloc);
    for k in 0..block.len().saturating_sub(from) / 2 {
        terms.push(read_term(block, from + 2 * k))?;
    }
    Ok(terms)
}

/// The term at a place of a block.
fn read_term(block: &Block, at: usize) -> LinTerm
    requires { at + 1 < 2 ^ 64 }
    ensures { result ≡ term_at block.now at }
{
    let coefficient = moved_down(block.get(at));
    (i128::from(coefficient), block.get(at + 1))
}
