//! The reader of whole texts.
ghost use Rattle.std.specs.Prelude.{◌≡◌, ℕ, ◌≤◌, ◌⊎◌, Option, None, Some, List, length, IfOk, IfErr, IfSome, IsErrAnd, MatchResult};
ghost use Rattle.std.specs.Str.{chars};
ghost use Rattle.pi_lex.specs.declared.fault.LexFault.TheVariants.{Memory};
ghost use Rattle.pi_lex.specs.Kinds.{fault_shown};
ghost use Rattle.pi_lex.specs.Store.{listed, IsSound};
ghost use Rattle.pi_syntax.specs.Tokens as spec;

use crate::fault::LexFault;
use crate::item::{item_at, item_len};
use crate::store::Store;
use crate::token_list::Tokens;
use std::alloc::{AllocError, Global};
use std::str;

/// The most bytes of a text.
const MAX_LEN: usize = 16_777_216;

/// The tokens of a text with their lines, or the first fault of the text: that it has more than 16,777,216 bytes,
/// that it isn't UTF-8, or the first bad or wide token. White space (spaces, tabs, line feeds and carriage returns) and
/// comments, from `%` to the end of the line or from `/*` to the next `*/`, stand between tokens and are none. Lines
/// count from 1, and a line feed ends a line.
/// Source: "Tokens" of A User's Guide to Picat; the faults and the greatest length are own.
pub fn tokens(alloc: Global, text: &[u8]) -> Result<Tokens, LexFault>
    ensures tokens { IfOk result (spec.HasTokens text.now) }
    ensures fault { IfErr result (λ e. IfSome (fault_shown e) (spec.HasFault text.now)) }

    // A text that has tokens gives these, and one that has a fault gives this, unless memory runs out.
    ensures only_tokens { (expected : List spec.Located) → spec.HasTokens text.now expected
        → MatchResult result (λ found. found ≡ expected) (λ e. e ≡ Memory) }
    ensures only_fault { (expected : spec.Fault) → spec.HasFault text.now expected
        → IsErrAnd result (λ e. (fault_shown e ≡ Some expected) ⊎ (e ≡ Memory)) }
{
    lex(alloc, text)
}

/// No text has two lists of tokens, tokens and a fault, or two first faults.
pub fn one_reading()
    ensures { (text : List ℕ) (tokens others : List spec.Located) (fault other : Option spec.Fault)
        → spec.Lexes text tokens fault → spec.Lexes text others other → (tokens ≡ others) × (fault ≡ other) }
{}

fn lex(alloc: Global, text: &[u8]) -> Result<Tokens, LexFault>
    ensures tokens { IfOk result (spec.HasTokens text.now) }
    ensures fault { IfErr result (λ e. IfSome (fault_shown e) (spec.HasFault text.now)) }
{
    if text.len() > MAX_LEN {
        return Err(LexFault::TooLong);
    }
    let text = match str::from_utf8(text) {
        Ok(text) => text,
        Err(e) => {
            return Err(LexFault::NotUtf8 {
                at: e.valid_up_to(),
            });
        }
    };
    let chars = characters(alloc, text)?;
    let store = read(alloc, &chars)?;
    Ok(Tokens::of(store))
}

fn characters(alloc: Global, text: &str) -> Result<Vec<char>, AllocError>
    ensures { IfOk result (λ found. found.items ≡ chars text.now) }
{
    text.chars().collect(alloc)
}

/// The tokens of characters, or their first fault.
fn read(alloc: Global, chars: &[char]) -> Result<Store, LexFault>
    requires { length chars.now ≤ spec.most_bytes }
    ensures sound { IfOk result IsSound }
    ensures tokens { IfOk result (λ store. spec.Reads 1 chars.now (listed store) None) }
    ensures fault { IfErr result (λ e. IfSome (fault_shown e) (spec.HasFaultFrom 1 chars.now)) }
{
    let mut store = Store::new(alloc);
    let mut rest = chars;
    let mut line = 1u32;
    'items: while !rest.is_empty() {
        let item = item_at(rest);
        let len = item_len(item, rest, line)?;
        store.push(item, rest, line)?;
        line += line_feeds(&rest[..len]);
        rest = &rest[len..];
    }
    Ok(store)
}

fn line_feeds(text: &[char]) -> u32
    requires { length text.now ≤ spec.most_bytes }
    ensures value { result ≡ spec.line_feeds text.now }
    ensures within { result ≤ length text.now }
{
    text.iter().filter(|c| **c == '\n').count() as u32
}
