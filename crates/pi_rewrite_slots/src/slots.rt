//! The slots of a clause or a query.
ghost use Rattle.std.specs.Prelude.{◌≡◌, ◌++◌, ◌∷◌, [], length, not, IfOk};
ghost use Rattle.std.specs.Str.{bytes_eq};
ghost use Rattle.pi_rewrite_spec.specs.Slots.{slot_of, slot_known, slot_for, slots_for, with_value};
ghost use Rattle.pi_rewrite_spec.specs.Loops.{with_values};
ghost use Rattle.pi_rewrite_spec.specs.Iterators.{found_by, only, behind_collection};
ghost use Rattle.pi_rewrite_slots.specs.Indexed.{names_in};

use crate::views::{names_but, names_only, push_unnamed};
use std::alloc::{AllocError, Global};
use std::marker::Model;

/// The slots of a clause or a query, in order: one for each name, one for each `_`, and one for each value that is made
/// before it is used. A contract sees the name of each (own).
#[derive(Drop)]
pub struct Slots<'a> {
    names: Vec<&'a str>,
}

impl<'a> Model for Slots<'a> {
    ghost use Rattle.std.specs.Prelude.{List, ℕ};
    ghost use Rattle.pi_rewrite_slots.specs.Indexed.{names_in};

    ghost Value = { List (List ℕ) };

    ghost view = { λ a. names_in a.names.items };
}

impl<'a> Slots<'a> {
    /// No slots.
    pub fn new(alloc: Global) -> Slots<'a>
        ensures { result ≡ [] }
    {
        Slots {
            names: Vec::new(alloc),
        }
    }

    /// The number of slots, which has 32 bits: for more of them memory is wanted.
    pub fn count(&self) -> Result<u32, AllocError>
        ensures { IfOk result (λ count. count ≡ length self.now) }
    {
        short(self.names.len())
    }

    /// The slot of an occurrence of a name, which is a new one for a name that has none, and for each `_`.
    pub fn slot_for(&mut self, name: &'a str) -> Result<u32, AllocError>
        ensures is { IfOk result (λ slot. slot ≡ slot_for name.now self.old) }
        ensures slots { IfOk result (λ _. self.new ≡ slots_for name.now self.old) }
    {
        if name == "_" {
            return self.value_slot();
        }
        match place_of(self.names.as_slice(), name) {
            Some(place) => short(place),
            None => {
                let slot = short(self.names.len())?;
                self.names.push(name)?;
                Ok(slot)
            }
        }
    }

    /// A new slot that no name finds.
    pub fn value_slot(&mut self) -> Result<u32, AllocError>
        ensures is { IfOk result (λ slot. slot ≡ length self.old) }
        ensures slots { IfOk result (λ _. self.new ≡ with_value self.old) }
    {
        let slot = short(self.names.len())?;
        self.names.push("_")?;
        Ok(slot)
    }

    /// The slot that the next occurrence of a name has, which it doesn't take yet.
    pub fn slot_of(&self, name: &str) -> Result<u32, AllocError>
        ensures { IfOk result (λ slot. slot ≡ slot_for name.now self.now) }
    {
        match known_place(self.names.as_slice(), name) {
            Some(place) => short(place),
            None => short(self.names.len()),
        }
    }

    /// A new slot that has this name, whatever slots have it.
    pub fn new_slot(&mut self, name: &'a str) -> Result<(), AllocError>
        ensures { IfOk result (λ _. self.new ≡ self.old ++ name.now ∷ []) }
    {
        self.names.push(name)?;
        Ok(())
    }

    /// New slots that have these names, in order.
    pub fn new_slots(&mut self, names: &[&'a str]) -> Result<(), AllocError>
        ensures { IfOk result (λ _. self.new ≡ self.old ++ names_in names.now) }
    {
        self.names.extend_from_slice(names)?;
        Ok(())
    }

    /// A new slot that no name finds for each of some names.
    pub fn value_slots(&mut self, names: &[&str]) -> Result<(), AllocError>
        ensures { IfOk result (λ _. self.new ≡ with_values (names_in names.now) self.old) }
    {
        push_unnamed(&mut self.names, names.len())?;
        Ok(())
    }

    /// As many slots as `after` has: those that are new are found by no name.
    pub fn behind(&mut self, after: &Slots<'_>) -> Result<(), AllocError>
        ensures { IfOk result (λ _. self.new ≡ behind_collection self.old after.now) }
    {
        let more = after.names.len().saturating_sub(self.names.len());
        push_unnamed(&mut self.names, more)
    }

    /// The same slots, found by these names alone.
    pub fn only(&self, alloc: Global, names: &[&str]) -> Result<Slots<'a>, AllocError>
        ensures { IfOk result (λ made. made ≡ only (names_in names.now) self.now) }
    {
        let names = names_only(alloc, self.names.as_slice(), names)?;
        Ok(Slots { names })
    }

    /// The same slots, but for those of a name, which it doesn't find.
    pub fn but(&self, alloc: Global, name: &str) -> Result<Slots<'a>, AllocError>
        ensures { IfOk result (λ made. made ≡ found_by (λ n. not (bytes_eq n name.now)) self.now) }
    {
        let names = names_but(alloc, self.names.as_slice(), name)?;
        Ok(Slots { names })
    }
}

/// The first place of a name.
pub(crate) fn place_of(names: &[&str], name: &str) -> Option<usize>
    ensures { result ≡ slot_of name.now (names_in names.now) }
{
    for (k, other) in names.iter().enumerate() {
        if name == *other {
            return Some(k);
        }
    }
    None
}

/// The place of an occurrence of a name, where it has one.
fn known_place(names: &[&str], name: &str) -> Option<usize>
    ensures { result ≡ slot_known name.now (names_in names.now) }
{
    let blank = name == "_";
    if blank {
        return None;
    }
    place_of(names, name)
}

/// A number of slots, which has 32 bits: for more of them memory is wanted.
fn short(count: usize) -> Result<u32, AllocError>
    ensures { IfOk result (λ made. made ≡ count) }
{
    u32::try_from(count).map_err(|_| AllocError)
}
