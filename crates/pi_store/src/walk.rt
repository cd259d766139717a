//! What variables lead to.
ghost use Rattle.std.specs.Prelude.{◌≡◌, slice_index};
ghost use Rattle.pi_store.specs.Walk.{binding_at, variable_at, bound_to, followed_at, unless_bound, free_at, next_at, leads_at, any_of};

use pi_constraints::Ref;
use pi_region::{Table, Trailed};
use pi_store_blocks::Form;

/// What a variable is bound to directly. It takes no memory.
fn binding(words: &Trailed, n: u64) -> Option<Ref>
    ensures { result ≡ binding_at words.now.variables n }
{
    let word = words.get(Table::Variables, n as usize);
    if word % 8 == 0 {
        return None;
    }
    Some(Ref { number: word - 1 })
}

/// The variable that a Ref is.
pub fn variable(r: Ref) -> Option<u64>
    ensures { result ≡ variable_at r }
{
    match Form::of(r) {
        Form::Var(n) => Some(n),
        Form::Int(_) => None,
        Form::Atom(_) => None,
        Form::Pair(_, _) => None,
        Form::Comp(_, _) => None,
        Form::Data(_) => None,
    }
}

/// What a term is bound to directly.
fn bound_to(words: &Trailed, r: Ref) -> Option<Ref>
    ensures { result ≡ bound_to words.now.variables r }
{
    match variable(r) {
        Some(n) => binding(words, n),
        None => None,
    }
}

/// The term itself, or what it is bound to, directly or through others. It takes no memory.
pub fn followed(words: &Trailed, r: Ref) -> Ref
    ensures { result ≡ followed_at words.now.variables r }
{
    let mut at = r;
    for _ in 0..words.count(Table::Variables) {
        match bound_to(words, at) {
            Some(next) => at = next,
            None => return at,
        }
    }
    at
}

/// The number itself, where it is that of a variable that isn't bound.
fn unless_bound(words: &Trailed, n: u64) -> Option<u64>
    ensures { result ≡ unless_bound n (slice_index words.now.variables n) }
{
    if words.get(Table::Variables, n as usize) % 8 == 0 {
        return Some(n);
    }
    None
}

/// The variable that a term is at its root and that isn't bound. It takes no memory.
pub fn free_variable(words: &Trailed, r: Ref) -> Option<u64>
    ensures { result ≡ free_at words.now.variables r }
{
    match variable(followed(words, r)) {
        Some(n) => unless_bound(words, n),
        None => None,
    }
}

/// The variable that a variable is bound to directly.
pub fn next_variable(words: &Trailed, n: u64) -> Option<u64>
    ensures { result ≡ next_at words.now.variables n }
{
    match binding(words, n) {
        Some(r) => variable(r),
        None => None,
    }
}

/// Whether a variable is the second one, or bound to it directly or through others.
pub fn variable_leads_to(words: &Trailed, n: u64, v: u64) -> bool
    ensures { result ≡ leads_at words.now.variables n v }
{
    let mut at = n;
    for _ in 0..words.count(Table::Variables) {
        if at == v {
            return true;
        }
        match next_variable(words, at) {
            Some(next) => at = next,
            None => return false,
        }
    }
    at == v
}

/// Whether a term is a variable, or bound to it directly or through others. It takes no memory.
pub fn leads_to(words: &Trailed, r: Ref, v: u64) -> bool
    ensures { result ≡ any_of (λ n. leads_at words.now.variables n v) (variable_at r) }
{
    match variable(r) {
        Some(n) => variable_leads_to(words, n, v),
        None => false,
    }
}
