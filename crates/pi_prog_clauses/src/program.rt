//! The program that parts are.
ghost use Rattle.std.specs.Prelude.{◌≡◌, ◌++◌, ◌∷◌, [], IfOk, OnOk, map, vec_len};
ghost use Rattle.pi_syntax.specs.ProgramTree.{source_tree, part_tree};
ghost use Rattle.pi_prog_clauses.specs.Seen.{seen, all_seen};
ghost use Rattle.pi_prog_clauses.specs.Verdict.{parts_of, part_of, decl_of};

use crate::parts::PartReading;
use pi_syntax::{Decl, ModeLists, Part, Parts, Program};
use std::alloc::{AllocError, Global};

/// The program of parts without a fault.
pub fn program_of(alloc: Global, readings: Vec<PartReading>) -> Result<Program, AllocError>
    ensures { IfOk result (λ program. source_tree program ≡ parts_of (all_seen readings.items)) }
{
    // All at once: while a vector grows, its old block stands beside the new one.
    let mut parts = Vec::with_capacity(alloc, readings.len())?;
    let mut left = readings;
    left.reverse();
    while let Some(reading) = left.pop() {
        add_part(&mut parts, reading)?;
        give_back(&mut left);
    }
    Ok(Program {
        parts: Parts::from_vec(parts),
    })
}

/// Gives back the memory behind the readings that are left, at each thousandth or so: so readings and parts aren't both
/// there as a whole.
fn give_back(left: &mut Vec<PartReading>)
    ensures items { left.new.items ≡ left.old.items }
    ensures count { vec_len left.new ≡ vec_len left.old }
{
    if left.len() % 1_024 == 0 {
        left.shrink_to_fit();
    }
}

/// Adds the part that a reading is, where it has no fault.
fn add_part(parts: &mut Vec<Part>, reading: PartReading) -> Result<(), AllocError>
    ensures { IfOk result (λ _. map part_tree parts.new.items ≡ map part_tree parts.old.items ++ part_of (seen reading)) }
{
    match reading {
        PartReading::Import(names) => push_part(
            parts,
            Part {
                decl: Decl::Import(names),
                clause: None,
            },
        ),
        PartReading::Written(written) => push_part(
            parts,
            Part {
                decl: declaration(written.modes),
                clause: Some(written.clause),
            },
        ),
        _ => {
            drop(reading);
            Ok(())
        }
    }
}

/// What stands before a clause, of which these are the mode lists.
fn declaration(modes: Option<ModeLists>) -> Decl
    ensures { result ≡ decl_of modes }
{
    match modes {
        Some(lists) => Decl::Index(lists),
        None => Decl::Plain,
    }
}

fn push_part(parts: &mut Vec<Part>, part: Part) -> Result<(), AllocError>
    ensures { OnOk result (parts.new.items ≡ parts.old.items ++ part ∷ []) }
{
    parts.push(part)?;
    Ok(())
}
