//! Domains of variables.
ghost use Rattle.std.specs.Prelude.{◌≡◌, ◌<◌, [], IfOk, OnErr, Some, length, slice_get, unwrap_or};
ghost use Rattle.pi_constraints.specs.Domain.{IsDomain};
ghost use Rattle.pi_store.specs.Domains.{domain_end, domain_by, domain_of, Confined};

use crate::walk::{followed, variable};
use pi_constraints::{Domain, Ref, Span};
use pi_region::{Table, Trailed};
use pi_store_blocks::{give_up, read_domain, span, span_count, write_domain};
use std::alloc::{AllocError, Global};

/// How many variables can have a domain. Giving one past them a domain is want of memory.
const MOST_CONFINED: u64 = 576_460_752_303_423_488;

/// Where the block of a domain ends that the word of a variable names; 0 where it names none.
fn domain_end(word: u64) -> usize
    ensures { result ≡ domain_end word }
{
    if word % 8 == 0 {
        (word / 8) as usize
    } else {
        0
    }
}

/// The domain of a variable with this word.
pub fn domain_by(alloc: Global, words: &Trailed, word: u64) -> Result<Option<Domain>, AllocError>
    ensures { IfOk result (λ found. found ≡ domain_by words.now.region word) }
{
    let end = domain_end(word);
    if end == 0 {
        return Ok(None);
    }
    let found = read_domain(alloc, words, end)?;
    Ok(Some(found))
}

/// The domain of the variable that a term is at its root.
pub fn domain_of(alloc: Global, words: &Trailed, r: Ref) -> Result<Option<Domain>, AllocError>
    ensures { IfOk result (λ found. found ≡ domain_of words.now r) }
{
    let Some(n) = variable(followed(words, r)) else {
        return Ok(None);
    };
    let found = domain_by(alloc, words, words.get(Table::Variables, n as usize))?;
    Ok(found)
}

/// How many spans a variable with this word has. It takes no memory.
pub fn span_count_by(words: &Trailed, word: u64) -> usize
    ensures count { result ≡ length (unwrap_or (domain_by words.now.region word) []) }
    ensures domain { IsDomain (unwrap_or (domain_by words.now.region word) []) }
{
    let end = domain_end(word);
    if end == 0 {
        return 0;
    }
    span_count(words, end)
}

/// The span with a number of a variable with this word. It takes no memory.
pub fn span_by(words: &Trailed, word: u64, k: usize) -> Span
    ensures { k < length (unwrap_or (domain_by words.now.region word) []) →
        slice_get (unwrap_or (domain_by words.now.region word) []) k ≡ Some result }
{
    let end = domain_end(word);
    if end == 0 {
        return Span { lo: 0, hi: 0 };
    }
    span(words, end, k)
}

/// Gives the variable with this number a domain.
pub fn confine(words: &mut Trailed, n: u64, d: &Domain) -> Result<(), AllocError>
    ensures ok { IfOk result (λ _. Confined words.old words.new n d.now) }
    ensures err { OnErr result (words.new ≡ words.old) }
{
    if n >= MOST_CONFINED {
        return Err(AllocError);
    }
    let start = words.len();
    let _spans = d.spans();
    let _end = write_domain(words, d)?;
    let word = words.len() as u64 * 8;
    match words.replace(Table::Variables, n as usize, word) {
        Ok(()) => Ok(()),
        Err(refused) => Err(give_up(words, start, refused)),
    }
}
