//! Terms of goals as terms of the store.
ghost use Rattle.std.specs.Prelude.{◌≡◌, ◌<◌, ◌≤◌, ◌-◌, ℕ, IfOk, length, take, drop, reverse};
ghost use Rattle.pi_terms.specs.Tree.{Tree, Trees, tree, no_trees};
ghost use Rattle.pi_terms.specs.Places.{Places, held};
ghost use Rattle.pi_constraints.specs.Store.{Terms};
ghost use Rattle.pi_constraints.specs.Evaluation.{slot_term, evaluated};
ghost use Rattle.pi_unify.specs.Copying.{AreBuilt};
ghost use Rattle.pi_engine_code.specs.Code.{tables_of, operand_tree, spelled_parts};
ghost use Rattle.pi_engine_stands.specs.Here.{Block, IsReadable, IsReadablePart};
ghost use Rattle.pi_constraints.specs.Store.{Extend};
ghost use Rattle.pi_engine_arenas.specs.Frames.{slot_number};
ghost use Rattle.pi_engine_stands.specs.Evaluates.{Evaluates, Writes, filled_one, filled_by, part_on, parts_between, IsFilledPart, AreReadableParts, AreFilledParts, WritesFilling};
ghost use Rattle.pi_engine_stands.specs.Changes.{HoldsIn};
ghost use Rattle.pi_engine_arenas.specs.Runs.{across, state_in, terms_in};

use pi_constraints::{Ref, StateStore};
use pi_engine_arenas::Run;
use pi_engine_code::{Code, Operand, Part};
use std::alloc::AllocError;

/// What an operand is where the slots of the clause begin at `first`. A slot that is empty takes a new variable at its
/// first occurrence from the left.
#[inline(always)]
pub fn value<S: StateStore>(
    code: &Code<'_>,
    run: &mut Run<S>,
    operand: Operand,
    first: usize,
) -> Result<Ref, AllocError>
    ensures ok { IfOk result (λ r. (t : Terms) (b : Block) (e : Places) → first ≡ slot_number b.base b.first →
        IsReadable (tables_of t code.now) b operand → Extend t (terms_in S.seen run.old) →
        HoldsIn S.seen run.old b e →
        Evaluates b (across S.seen run.old run.new)
        (evaluated (operand_tree (tables_of t code.now) operand) e (state_in S.seen run.old)) r) }
    ensures terms { run.new.terms ≡ run.old.terms }
{
    match operand {
        Operand::Known(term) => Ok(term),
        Operand::Slot(k) => slot_value(run, slot_at(first, k)),
        Operand::Made(from, to) => {
            fill_slots(code, run, from, to, first)?;
            put_together(code, run, from, to, first)
        }
    }
}

/// A slot of a clause whose slots begin at `first`.
pub fn slot_at(first: usize, slot: u32) -> usize
    ensures { result ≡ slot_number first slot }
{
    first.saturating_add(slot as usize)
}

/// What a slot holds, which is a new variable where it was empty.
#[inline(always)]
pub fn slot_value<S: StateStore>(run: &mut Run<S>, slot: usize) -> Result<Ref, AllocError>
    ensures ok { IfOk result (λ r. (b : Block) (k : ℕ) (e : Places) → slot ≡ slot_number (slot_number b.base b.first) k →
        k < b.count → HoldsIn S.seen run.old b e →
        Evaluates b (across S.seen run.old run.new)
        (slot_term (held e k) k e (state_in S.seen run.old)) r) }
    ensures made { run.new.made ≡ run.old.made }
    ensures terms { run.new.terms ≡ run.old.terms }
{
    match run.arenas.blocks.get(slot) {
        Some(term) => Ok(term),
        None => {
            let term = run.store.new_var()?;
            run.arenas.blocks.set(slot, term)?;
            Ok(term)
        }
    }
}

/// Fills the empty slots of a compound, from the left.
#[inline(never)]
fn fill_slots<S: StateStore>(
    code: &Code<'_>,
    run: &mut Run<S>,
    from: u32,
    to: u32,
    first: usize,
) -> Result<(), AllocError>
    ensures ok { IfOk result (λ _. (t : Terms) (b : Block) (e : Places) → first ≡ slot_number b.base b.first → from ≤ to →
        to ≤ length code.now.parts.items → AreReadableParts (tables_of t code.now) b
        (parts_between (tables_of t code.now) from to) → HoldsIn S.seen run.old b e →
        WritesFilling b (across S.seen run.old run.new) (filled_by (parts_between (tables_of t code.now) from to)
        (record { slots = e; state = state_in S.seen run.old }))) }
    ensures terms { run.new.terms ≡ run.old.terms }
{
    for i in from..to {
        if let Some(part) = code.part(i) {
            fill_part(run, part, first)?;
        }
    }
    Ok(())
}

fn fill_part<S: StateStore>(run: &mut Run<S>, part: Part, first: usize) -> Result<(), AllocError>
    ensures ok { IfOk result (λ _. (t : Terms) (b : Block) (e : Places) → first ≡ slot_number b.base b.first →
        IsReadablePart t b part → HoldsIn S.seen run.old b e →
        WritesFilling b (across S.seen run.old run.new) (filled_one part (record { slots = e; state = state_in S.seen run.old }))) }
    ensures terms { run.new.terms ≡ run.old.terms }
{
    match part {
        Part::Slot(k) => {
            slot_value(run, slot_at(first, k))?;
        }
        Part::Known(_) => {}
        Part::Compound(_, _) => {}
    }
    Ok(())
}

/// Puts a compound together from its cells, from the right: what is made last is the first argument of what comes next.
#[inline(never)]
fn put_together<S: StateStore>(
    code: &Code<'_>,
    run: &mut Run<S>,
    from: u32,
    to: u32,
    first: usize,
) -> Result<Ref, AllocError>
    ensures ok { IfOk result (λ r. (t : Terms) (b : Block) (f : Places) (u : Tree) → first ≡ slot_number b.base b.first →
        from ≤ to → to ≤ length code.now.parts.items → Extend t (terms_in S.seen run.old) →
        AreReadableParts (tables_of t code.now) b (parts_between (tables_of t code.now) from to) →
        AreFilledParts f (parts_between (tables_of t code.now) from to) →
        spelled_parts (tables_of t code.now) (parts_between (tables_of t code.now) from to) ≡ tree u no_trees →
        HoldsIn S.seen run.old b f →
        Evaluates b (across S.seen run.old run.new)
        (record {
          tree = (evaluated u f (state_in S.seen run.old)).tree;
          slots = f;
          state = state_in S.seen run.old;
        }) r) }
    ensures terms { run.new.terms ≡ run.old.terms }
{
    run.made.clear();
    for i in (from..to).rev() {
        if let Some(part) = code.part(i) {
            add_part(code, run, part, first)?;
        }
    }
    match run.made.pop() {
        Some(term) => Ok(term),
        None => Err(AllocError),
    }
}

fn add_part<S: StateStore>(
    code: &Code<'_>,
    run: &mut Run<S>,
    part: Part,
    first: usize,
) -> Result<(), AllocError>
    ensures ok { IfOk result (λ _. (t : Terms) (b : Block) (f : Places) (us : Trees) → first ≡ slot_number b.base b.first →
        Extend t (terms_in S.seen run.old) → IsReadablePart t b part → IsFilledPart f part →
        HoldsIn S.seen run.old b f →
        AreBuilt (S.seen run.old.store) run.old.made.items us →
        Writes b (across S.seen run.old run.new) f
        (state_in S.seen run.old) × AreBuilt (S.seen run.new.store) run.new.made.items
        (part_on (tables_of t code.now) part f (state_in S.seen run.old) us)) }
    ensures terms { run.new.terms ≡ run.old.terms }
{
    let term = match part {
        Part::Known(term) => term,
        Part::Slot(k) => slot_value(run, slot_at(first, k))?,
        Part::Compound(name, count) => {
            take_arguments(&mut run.made, count, &mut run.parts)?;
            run.store.put_comp(code.name(name), &run.parts)?
        }
    };
    run.made.push(term)?;
    Ok(())
}

/// Takes the newest so many terms, the newest first.
fn take_arguments(
    made: &mut Vec<Ref>,
    count: u32,
    arguments: &mut Vec<Ref>,
) -> Result<(), AllocError>
    ensures taken { IfOk result (λ _. arguments.new.items ≡ take count (reverse made.old.items)) }
    ensures left { IfOk result (λ _. reverse made.new.items ≡ drop count (reverse made.old.items)) }
{
    arguments.clear();
    for _i in 0..count {
        if let Some(term) = made.pop() {
            arguments.push(term)?;
        }
    }
    Ok(())
}
