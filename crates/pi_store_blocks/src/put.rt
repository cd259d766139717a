//! Terms that are made in a region.
ghost use Rattle.std.specs.Prelude.{◌≡◌, ◌<◌, ◌^◌, ℕ, List, [], ◌∷◌, Some, IfOk, OnErr};
ghost use Rattle.pi_terms.specs.Tree.{var, int, atom};
ghost use Rattle.pi_region.specs.Image.{numbers_of};
ghost use Rattle.pi_store_blocks.specs.Form.{all_ground};
ghost use Rattle.pi_store_blocks.specs.Heap.{Heap, term_at, Makes, Appends};
ghost use Rattle.pi_store_blocks.specs.Placed.{IsNamed, AreRefsIn, WritesRight};

use crate::form::{Form, is_small};
use crate::header::{comp, wide};
use crate::wide::{low, mid, top};
use pi_constraints::Ref;
use pi_region::{Trailed, data};
use std::alloc::AllocError;

/// How many variables a Ref tells apart.
const MOST_VARIABLES: u64 = 2_305_843_009_213_693_952;

/// The Ref of a variable. It takes no memory.
pub fn var_ref(n: u64) -> Ref
    ensures { (h : Heap) → n < h.next → h.next < 2 ^ 61 → term_at h result.number ≡ Some (var n) }
{
    Form::Var(n % MOST_VARIABLES).to_ref()
}

/// The Ref of an atom. It takes no memory.
pub fn put_atom(name: u32) -> Ref
    ensures { (h : Heap) (text : List ℕ) → h.names name ≡ Some text → term_at h result.number ≡ Some (atom text) }
{
    Form::Atom(u64::from(name)).to_ref()
}

/// The Ref of an integer: three more words where it doesn't fit the Ref, and none else.
pub fn put_int(words: &mut Trailed, n: i128) -> Result<Ref, AllocError>
    ensures ok { IfOk result (λ made. (h : Heap) → h.words ≡ words.new.region → term_at h made.number ≡ Some (int n)) }
    ensures appends { IfOk result (λ _. Appends words.old words.new) }
    ensures right { IfOk result (λ _. (h : Heap) → h.words ≡ words.old.region → WritesRight h words.new.region) }
    ensures err { OnErr result (words.new ≡ words.old) }
{
    if is_small(n) {
        return Ok(Form::Int(n as i64).to_ref());
    }
    let place = words.len() as u64 + 2;
    words.append_three(data(mid(n)), data(low(n)), wide(top(n)))?;
    Ok(Form::Comp(place, true).to_ref())
}

/// The Ref of a compound of a name and its arguments: two more words for two arguments of the first name, and else a
/// word for each argument and a header.
pub fn put_compound(words: &mut Trailed, name: u32, args: &[Ref]) -> Result<Ref, AllocError>
    ensures ok { IfOk result (λ made. Makes words.old.region words.new.region name (numbers_of args.now) made.number) }
    ensures appends { IfOk result (λ _. Appends words.old words.new) }
    ensures right { IfOk result (λ _. (h : Heap) → h.words ≡ words.old.region → IsNamed h.names name →
        AreRefsIn h (numbers_of args.now) → WritesRight h words.new.region) }
    ensures err { OnErr result (words.new ≡ words.old) }
{
    if name == 0 && args.len() == 2 {
        return put_pair(words, args[0], args[1]);
    }
    put_block(words, name, args)
}

/// Two arguments of the first name.
fn put_pair(words: &mut Trailed, first: Ref, second: Ref) -> Result<Ref, AllocError>
    ensures ok { IfOk result (λ made. Makes words.old.region words.new.region 0 (first.number ∷ second.number ∷ []) made.number) }
    ensures appends { IfOk result (λ _. Appends words.old words.new) }
    ensures right { IfOk result (λ _. (h : Heap) → h.words ≡ words.old.region → IsNamed h.names 0 →
        AreRefsIn h (first.number ∷ second.number ∷ []) → WritesRight h words.new.region) }
    ensures err { OnErr result (words.new ≡ words.old) }
{
    let place = words.len() as u64;
    let is_ground = are_both_ground(first, second);
    words.append_two(first.number, second.number)?;
    Ok(Form::Pair(place, is_ground).to_ref())
}

/// The arguments, and a header behind them.
fn put_block(words: &mut Trailed, name: u32, args: &[Ref]) -> Result<Ref, AllocError>
    ensures ok { IfOk result (λ made. Makes words.old.region words.new.region name (numbers_of args.now) made.number) }
    ensures appends { IfOk result (λ _. Appends words.old words.new) }
    ensures right { IfOk result (λ _. (h : Heap) → h.words ≡ words.old.region → IsNamed h.names name →
        AreRefsIn h (numbers_of args.now) → WritesRight h words.new.region) }
    ensures err { OnErr result (words.new ≡ words.old) }
{
    let is_ground = are_ground(args);
    let header = comp(name, args.len(), is_ground)?;
    let place = words.len() as u64 + args.len() as u64;
    words.append_refs(args, header)?;
    Ok(Form::Comp(place, is_ground).to_ref())
}

/// Whether no variable occurs in either.
#[tactic(auto, unfolding(crate::specs::Form::all_ground))]
pub fn are_both_ground(first: Ref, second: Ref) -> bool
    ensures { result ≡ all_ground (first.number ∷ second.number ∷ []) }
{
    if !Form::of(first).is_ground() {
        return false;
    }
    Form::of(second).is_ground()
}

/// Whether no variable occurs in any of these.
#[tactic(auto, unfolding(crate::specs::Form::all_ground))]
fn are_ground(args: &[Ref]) -> bool
    ensures { result ≡ all_ground (numbers_of args.now) }
{
    for r in args {
        if !Form::of(*r).is_ground() {
            return false;
        }
    }
    true
}
