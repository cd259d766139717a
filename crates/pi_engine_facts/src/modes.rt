//! The mode lists of a predicate of facts, and whether one of them fits a call.
ghost use Rattle.std.specs.Prelude.{◌≡◌, List, Some, slice_get, IfOk};
ghost use Rattle.std.specs.List.{list_any};
ghost use Rattle.pi_terms.specs.Tree.{Trees, drop_trees};
ghost use Rattle.pi_constraints.specs.Value.{IsAcyclic};
ghost use Rattle.pi_constraints.specs.State.{bindings};
ghost use Rattle.pi_constraints.specs.Store.{AreTerms};
ghost use Rattle.pi_core.specs.CoreTree.{index_of};
ghost use Rattle.pi_meaning.specs.CoreMeaning.Facts.{fits_modes};
ghost use Rattle.pi_syntax.specs.declared.program.Mode.{Mode};
ghost use Rattle.pi_engine_facts.specs.Modes.{fits_first};

use pi_constraints::{Ref, StateStore};
use pi_lib_builtin::is_closed;
use pi_syntax::{Decl, Mode, Modes};
use std::alloc::{AllocError, Global};

/// Whether a mode list of a declaration fits a call with these arguments; false for a declaration without any.
pub fn fits_call<S: StateStore>(
    alloc: Global,
    s: &S,
    decl: &Decl,
    args: &[Ref],
) -> Result<bool, AllocError>
    ensures { IfOk result (λ one. (lists : List (List Mode)) (ts : Trees) → index_of decl.now ≡ Some lists →
        IsAcyclic (bindings (S.seen s.now).now.state) → AreTerms (S.seen s.now) args.now ts →
        one ≡ list_any (λ modes. fits_modes (bindings (S.seen s.now).now.state) modes ts) lists) }
{
    match decl {
        Decl::Index(lists) => {
            let one = fits_one(alloc, s, lists.as_slice(), args)?;
            Ok(one)
        }
        Decl::Plain | Decl::Import(_) => Ok(false),
    }
}

/// Whether one of these mode lists fits a call with these arguments: none of the places `+` holds an unbound variable.
fn fits_one<S: StateStore>(
    alloc: Global,
    s: &S,
    lists: &[Modes],
    args: &[Ref],
) -> Result<bool, AllocError>
    ensures { IfOk result (λ one. (ts : Trees) → IsAcyclic (bindings (S.seen s.now).now.state) →
        AreTerms (S.seen s.now) args.now ts → one ≡ list_any
        (λ modes. fits_modes (bindings (S.seen s.now).now.state) modes ts) lists.now) }
{
    for i in 0..lists.len() {
        let modes = &lists[i];
        if fits(alloc, s, modes.as_slice(), args)? {
            return Ok(true);
        }
    }
    Ok(false)
}

fn fits<S: StateStore>(
    alloc: Global,
    s: &S,
    modes: &[Mode],
    args: &[Ref],
) -> Result<bool, AllocError>
    ensures { IfOk result (λ one. (ts : Trees) → IsAcyclic (bindings (S.seen s.now).now.state) →
        AreTerms (S.seen s.now) args.now ts → one ≡ fits_modes (bindings (S.seen s.now).now.state) modes.now ts) }
{
    for i in 0..modes.len() {
        if !fits_at(alloc, s, modes, args, i)? {
            return Ok(false);
        }
    }
    Ok(true)
}

/// Whether a place of a mode list fits the argument with its number, where there are both.
fn fits_at<S: StateStore>(
    alloc: Global,
    s: &S,
    modes: &[Mode],
    args: &[Ref],
    place: usize,
) -> Result<bool, AllocError>
    ensures { IfOk result (λ one. (ts : Trees) (m : Mode) → IsAcyclic (bindings (S.seen s.now).now.state) →
        AreTerms (S.seen s.now) args.now ts → slice_get modes.now place ≡ Some m →
        one ≡ fits_first (bindings (S.seen s.now).now.state) m (drop_trees place ts)) }
{
    let Some(arg) = arg_at(args, place) else {
        return Ok(true);
    };
    let Some(mode) = mode_at(modes, place) else {
        return Ok(true);
    };
    match mode {
        Mode::Minus => Ok(true),
        Mode::Plus => match is_closed(alloc, s, arg) {
            Ok(closed) => Ok(closed),
            Err(_) => Err(AllocError),
        },
    }
}

fn arg_at(args: &[Ref], place: usize) -> Option<Ref>
    ensures { result ≡ slice_get args.now place }
{
    args.get(place).copied()
}

fn mode_at(modes: &[Mode], place: usize) -> Option<Mode>
    ensures { result ≡ slice_get modes.now place }
{
    modes.get(place).copied()
}
