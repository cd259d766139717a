//! Which numbers are terms of a store.
ghost use Rattle.std.specs.Prelude.{◌≡◌, ◌↔◌, Some, IsTrue, slice_get};
ghost use Rattle.pi_terms.specs.ListNames.{cell_name};
ghost use Rattle.pi_region.specs.Image.{numbers_of};
ghost use Rattle.pi_store_blocks.specs.Form.{form_of};
ghost use Rattle.pi_store_blocks.specs.Placed.{IsNamed, IsRefIn, AreRefsIn};
ghost use Rattle.pi_store_blocks.specs.AgentTable.{AreEventsIn};
ghost use Rattle.pi_store_blocks.specs.NameTable.{names_of};
ghost use Rattle.pi_store.specs.Holding.{heap_of};

use pi_constraints::{Ref, Watch};
use pi_region::{Table, Trailed};
use pi_store_blocks::{Form, RawNames, is_placed, watched};

/// Whether a term may have the name with this number. It takes no memory.
fn is_named(names: &RawNames, number: u64, len: usize) -> bool
    ensures { IsTrue result ↔ IsNamed (names_of names.now len) number }
{
    names.is_given(number, len)
}

/// Whether a number is a Ref of the store, in constant time. It takes no memory.
pub fn has(names: &RawNames, words: &Trailed, r: Ref) -> bool
    ensures { slice_get names.now.texts 0 ≡ Some cell_name → IsTrue result ↔ IsRefIn (heap_of names.now words.now) (form_of r.number) }
{
    match Form::of(r) {
        Form::Var(n) => n < words.count(Table::Variables) as u64,
        Form::Int(_) => true,
        Form::Atom(name) => is_named(names, name, words.len()),
        Form::Pair(_, _) => is_placed(words, r),
        Form::Comp(_, _) => is_placed(words, r),
        Form::Data(_) => false,
    }
}

/// Whether all these numbers are Refs of the store. It takes no memory.
pub fn has_all(names: &RawNames, words: &Trailed, refs: &[Ref]) -> bool
    ensures { slice_get names.now.texts 0 ≡ Some cell_name → IsTrue result ↔ AreRefsIn (heap_of names.now words.now) (numbers_of refs.now) }
{
    for r in refs {
        if !has(names, words, *r) {
            return false;
        }
    }
    true
}

/// Whether the terms of all these events are Refs of the store. It takes no memory.
pub fn has_events(names: &RawNames, words: &Trailed, watches: &[Watch]) -> bool
    ensures { slice_get names.now.texts 0 ≡ Some cell_name → IsTrue result ↔ AreEventsIn (heap_of names.now words.now) watches.now }
{
    for watch in watches {
        if !has(names, words, watched(*watch)) {
            return false;
        }
    }
    true
}

/// These Refs, where all are Refs of the store, and else none. It takes no memory.
pub fn known<'a>(names: &RawNames, words: &Trailed, refs: &'a [Ref]) -> &'a [Ref]
    ensures are { slice_get names.now.texts 0 ≡ Some cell_name → AreRefsIn (heap_of names.now words.now) (numbers_of result.now) }
    ensures all { slice_get names.now.texts 0 ≡ Some cell_name → AreRefsIn (heap_of names.now words.now) (numbers_of refs.now) →
        result.now ≡ refs.now }
{
    if has_all(names, words, refs) {
        refs
    } else {
        &[]
    }
}
