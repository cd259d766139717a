//! Values that stand in slots of their own.
ghost use Rattle.std.specs.Prelude.{◌≡◌, ◌∷◌, ◌++◌, [], length, IfOk};
ghost use Rattle.pi_terms.specs.Tree.{Tree, trees_of};
ghost use Rattle.pi_core.specs.GoalTree.{GoalTree};
ghost use Rattle.pi_effects.specs.Inner.{itself_name};
ghost use Rattle.pi_rewrite_spec.specs.Slots.{with_value};
ghost use Rattle.pi_rewrite_spec.specs.Values.{applied as applied_of, slotted as slotted_of};
ghost use Rattle.pi_rewrite_loops.specs.Parts.{IsValue, IsSlotted};

use pi_core::CoreGoal;
use pi_rewrite_slots::Slots;
use pi_terms::{Term, TermHead};
use std::alloc::{AllocError, Global};

/// A function's value, which stands in a slot of its own.
pub(crate) fn applied<'a>(
    alloc: Global,
    name: &str,
    args: &[Term],
    slots: &mut Slots<'a>,
    goals: &mut Vec<CoreGoal>,
) -> Result<Term, AllocError>
    ensures { IfOk result (λ term. IsValue (applied_of name.now (record { goals = []; trees = args.now; names = slots.old }))
        goals.old.items goals.new.items term slots.new) }
{
    let slot = slots.value_slot()?;
    let goal = CoreGoal::apply(alloc, name, args, slot)?;
    goals.push(goal)?;
    Term::var(alloc, u64::from(slot))
}

/// The value of a function of two.
pub(crate) fn applied_to_two<'a>(
    alloc: Global,
    name: &str,
    one: Term,
    two: Term,
    slots: &mut Slots<'a>,
    goals: &mut Vec<CoreGoal>,
) -> Result<Term, AllocError>
    ensures { IfOk result (λ term. IsValue (applied_of name.now (record { goals = []; trees = one ∷ two ∷ []; names = slots.old }))
        goals.old.items goals.new.items term slots.new) }
{
    let mut args = Vec::new(alloc);
    args.push(one)?;
    args.push(two)?;
    let term = applied(alloc, name, &args, slots, goals)?;
    Ok(term)
}

/// The value of a function of three.
pub(crate) fn applied_to_three<'a>(
    alloc: Global,
    name: &str,
    one: Term,
    two: Term,
    three: Term,
    slots: &mut Slots<'a>,
    goals: &mut Vec<CoreGoal>,
) -> Result<Term, AllocError>
    ensures { IfOk result (λ term. IsValue (applied_of name.now
        (record { goals = []; trees = one ∷ two ∷ three ∷ []; names = slots.old })) goals.old.items goals.new.items term
        slots.new) }
{
    let mut args = Vec::new(alloc);
    args.push(one)?;
    args.push(two)?;
    args.push(three)?;
    let term = applied(alloc, name, &args, slots, goals)?;
    Ok(term)
}

/// A structure of two.
pub(crate) fn of_two(alloc: Global, name: &str, one: Term, two: Term) -> Result<Term, AllocError>
    ensures { IfOk result (λ term. term ≡ Tree.comp name.now (trees_of (one ∷ two ∷ []))) }
{
    let mut args = Vec::new(alloc);
    args.push(one)?;
    args.push(two)?;
    let term = Term::comp(alloc, name, &args)?;
    Ok(term)
}

/// A structure of three.
pub(crate) fn of_three(
    alloc: Global,
    name: &str,
    one: Term,
    two: Term,
    three: Term,
) -> Result<Term, AllocError>
    ensures { IfOk result (λ term. term ≡ Tree.comp name.now (trees_of (one ∷ two ∷ three ∷ []))) }
{
    let mut args = Vec::new(alloc);
    args.push(one)?;
    args.push(two)?;
    args.push(three)?;
    let term = Term::comp(alloc, name, &args)?;
    Ok(term)
}

/// The slot of a value. One that is none is put into one, as it stands.
pub(crate) fn slotted<'a>(
    alloc: Global,
    value: Term,
    slots: &mut Slots<'a>,
    goals: &mut Vec<CoreGoal>,
) -> Result<u32, AllocError>
    ensures { IfOk result (λ slot. IsSlotted (slotted_of [] value slots.old) goals.old.items goals.new.items slot slots.new) }
{
    match value.head() {
        TermHead::Var(slot) => short(slot),
        TermHead::Int(_) => into_slot(alloc, value, slots, goals),
        TermHead::Atom(_) => into_slot(alloc, value, slots, goals),
        TermHead::Comp(_, _) => into_slot(alloc, value, slots, goals),
    }
}

/// The number of a slot, which has 32 bits.
fn short(slot: u64) -> Result<u32, AllocError>
    ensures { IfOk result (λ made. made ≡ slot) }
{
    u32::try_from(slot).map_err(|_| AllocError)
}

/// Puts a value into a slot of its own, as it stands.
fn into_slot<'a>(
    alloc: Global,
    value: Term,
    slots: &mut Slots<'a>,
    goals: &mut Vec<CoreGoal>,
) -> Result<u32, AllocError>
    ensures is { IfOk result (λ slot. slot ≡ length slots.old) }
    ensures goals { IfOk result (λ _. goals.new.items ≡
        goals.old.items ++ GoalTree.apply itself_name (value ∷ []) (length slots.old) ∷ []) }
    ensures slots { IfOk result (λ _. slots.new ≡ with_value slots.old) }
{
    let slot = slots.value_slot()?;
    push_itself(alloc, value, slot, goals)?;
    Ok(slot)
}

/// Puts the call behind the others that puts a value into a slot, as it stands.
pub(crate) fn push_itself(
    alloc: Global,
    value: Term,
    slot: u32,
    goals: &mut Vec<CoreGoal>,
) -> Result<(), AllocError>
    ensures { IfOk result (λ _. goals.new.items ≡ goals.old.items ++ GoalTree.apply itself_name (value ∷ []) slot ∷ []) }
{
    let goal = CoreGoal::apply(alloc, "once", &[value], slot)?;
    goals.push(goal)?;
    Ok(())
}
