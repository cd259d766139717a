//! Which numbers are terms, by the words that they point to.
ghost use Rattle.std.specs.Prelude.{◌≡◌, [], ◌∷◌, slice_index};
ghost use Rattle.pi_store_blocks.specs.Form.{form_of, header_of};
ghost use Rattle.pi_store_blocks.specs.Placed.{is_placed, is_headed, all_refs};
ghost use Rattle.pi_store_blocks.specs.Heap.{is_same};

use crate::form::{Form, is_ref};
use crate::header::Header;
use crate::put::are_both_ground;
use pi_constraints::Ref;
use pi_region::Trailed;

/// Whether what a Ref points to is there, in constant time. A variable and an atom point to nothing in the region. It
/// takes no memory.
pub fn is_placed(words: &Trailed, r: Ref) -> bool
    ensures { result ≡ is_placed words.now.region (form_of r.number) }
{
    match Form::of(r) {
        Form::Var(_) => true,
        Form::Int(_) => true,
        Form::Atom(_) => true,
        Form::Pair(place, is_ground) => are_two(words, place as usize, is_ground),
        Form::Comp(place, is_ground) => is_header(words, place as usize, is_ground),
        Form::Data(_) => false,
    }
}

/// Whether two Refs stand at a place that are ground or not, as the flag says.
fn are_two(words: &Trailed, place: usize, is_ground: bool) -> bool
    ensures { result ≡ is_placed words.now.region (Form.Pair place is_ground) }
{
    if words.len() < 2 || place > words.len() - 2 {
        return false;
    }
    let first = Ref {
        number: words.word(place),
    };
    let second = Ref {
        number: words.word(place + 1),
    };
    if !are_both_refs(first, second) {
        return false;
    }
    is_same(is_ground, are_both_ground(first, second))
}

fn is_same(a: bool, b: bool) -> bool
    ensures { result ≡ is_same a b }
{
    a == b
}

/// Whether both words are Refs.
#[tactic(auto, unfolding(crate::specs::Placed::all_refs))]
fn are_both_refs(first: Ref, second: Ref) -> bool
    ensures { result ≡ all_refs (first.number ∷ second.number ∷ []) }
{
    if !is_ref(first.number) {
        return false;
    }
    is_ref(second.number)
}

/// Whether a header stands at a place, of what is ground or not, as the flag says.
fn is_header(words: &Trailed, place: usize, is_ground: bool) -> bool
    ensures { result ≡ is_headed is_ground (header_of (slice_index words.now.region place)) }
{
    match Header::of(words.word(place)) {
        Header::Comp(_, _, own) => is_same(own, is_ground),
        Header::Wide(_) => is_ground,
        Header::Nothing => false,
    }
}
