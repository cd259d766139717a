//! Terms that are looked at in a region, with no binding followed.
ghost use Rattle.std.specs.Prelude.{◌≡◌, ◌+◌, Some, IsTrue, ◌↔◌, slice_index};
ghost use Rattle.pi_terms.specs.Tree.{Tree, arg_at};
ghost use Rattle.pi_terms.specs.Variables.{IsGround};
ghost use Rattle.pi_store_blocks.specs.Form.{header_of};
ghost use Rattle.pi_store_blocks.specs.Heap.{Heap, term_at, Shows};
ghost use Rattle.pi_store_blocks.specs.Look.{headed_cell, headed_arg};

use crate::form::Form;
use crate::header::Header;
use crate::wide::joined;
use pi_constraints::{Cell, Ref};
use pi_region::{Trailed, value};

/// What a term is at its root. It takes no memory.
pub fn cell(words: &Trailed, r: Ref) -> Cell
    ensures { (h : Heap) (t : Tree) → h.words ≡ words.now.region → term_at h r.number ≡ Some t → Shows h.names t result }
{
    let _len = words.len();
    match Form::of(r) {
        Form::Var(n) => Cell::Var(n),
        Form::Int(n) => Cell::Int(i128::from(n)),
        Form::Atom(k) => Cell::Atom(k),
        Form::Pair(_, _) => Cell::Comp(0, 2),
        Form::Comp(place, _) => headed(words, place as usize),
        Form::Data(n) => Cell::Var(n),
    }
}

/// What a header stands for, which is at a place.
fn headed(words: &Trailed, place: usize) -> Cell
    ensures { result ≡ headed_cell words.now.region place (header_of (slice_index words.now.region place)) }
{
    match Header::of(words.word(place)) {
        Header::Comp(name, count, _) => Cell::Comp(name, count),
        Header::Wide(top) => {
            let mid = value(words.word(place.saturating_sub(2)));
            let low = value(words.word(place.saturating_sub(1)));
            Cell::Int(joined(top, mid, low))
        }
        Header::Nothing => Cell::Atom(0),
    }
}

/// An argument of a compound, counted from 0. It takes no memory.
pub fn arg(words: &Trailed, r: Ref, i: u64) -> Ref
    ensures { (h : Heap) (t u : Tree) → h.words ≡ words.now.region → term_at h r.number ≡ Some t → arg_at t i ≡ Some u →
        term_at h result.number ≡ Some u }
{
    let _len = words.len();
    match Form::of(r) {
        Form::Pair(place, _) => at(words, place, i),
        Form::Comp(place, _) => behind(words, r, place, i),
        Form::Var(_) => r,
        Form::Int(_) => r,
        Form::Atom(_) => r,
        Form::Data(_) => r,
    }
}

/// The Ref that stands so many words behind a place.
fn at(words: &Trailed, place: u64, i: u64) -> Ref
    ensures { result.number ≡ slice_index words.now.region (place + i) }
{
    let _len = words.len();
    Ref {
        number: words.word(place.saturating_add(i) as usize),
    }
}

/// An argument of what a header stands for, which is at a place; the Ref itself where it is no compound.
fn behind(words: &Trailed, r: Ref, place: u64, i: u64) -> Ref
    ensures { result.number ≡ headed_arg words.now.region r.number place i (header_of (slice_index words.now.region place)) }
{
    match Header::of(words.word(place as usize)) {
        Header::Comp(_, count, _) => at(words, place.saturating_sub(count), i),
        Header::Wide(_) => r,
        Header::Nothing => r,
    }
}

/// Whether no variable occurs in a term, as it was made. It takes no memory, and touches none.
pub fn is_ground(r: Ref) -> bool
    ensures { (h : Heap) (t : Tree) → term_at h r.number ≡ Some t → (IsTrue result ↔ IsGround t) }
{
    Form::of(r).is_ground()
}
