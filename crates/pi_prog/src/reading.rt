//! The parts of a program's tokens, each by itself.
ghost use Rattle.std.specs.Prelude.{◌+◌, ◌<◌, ◌≤◌, List, length, IfOk, IfErr, true};
ghost use Rattle.pi_lex.specs.Kinds.{kinds};
ghost use Rattle.pi_expr.specs.Faults.{stretch};
ghost use Rattle.pi_syntax.specs.Crowding.{IsCrowded};
ghost use Rattle.pi_syntax.specs.Tokens.{Token};
ghost use Rattle.pi_prog_clauses.specs.Reading as spec;
ghost use Rattle.pi_prog_clauses.specs.Declaration.{Opening, Opens, importing};
ghost use Rattle.pi_prog.specs.Parts.{SoFar};
ghost use Rattle.pi_prog_clauses.specs.Formed.{IsFormed};
ghost use Rattle.pi_prog.specs.Pieces.{ShowsPart, IsFormedOf, IsMarkedOf, IsShapeFault, AreMarks, IsClauseOf};
ghost use Rattle.pi_prog_clauses.specs.Shape.{Shape};
ghost use Rattle.pi_prog_clauses.specs.Shown.{AreShown};
ghost use Rattle.pi_prog_clauses.specs.Stretch as stretches;

mod declaration;
mod shape;
pub(crate) mod stretch;
pub(crate) mod variables;

use crate::reading::declaration::{PartOpening, opening};
use crate::reading::shape::{ReadShape, read_shape};
use crate::reading::stretch::is_end;
use crate::reading::variables::has_too_many_names;
use pi_expr::{ExpFault, is_crowded};
use pi_lex::Tokens;
use pi_prog_clauses::{
    FormedClause, PartReading, WrittenPart, bare_clause, has_bad_form, ruled_clause,
};
use pi_syntax::{Clause, ModeLists, Names};
use std::alloc::{AllocError, Global};

/// What is to be told of a clause by itself.
#[derive(Clone, Copy)]
pub(crate) struct Marks {
    has_bad_form: bool,
    has_too_many_names: bool,
}

/// A clause with its marks.
#[derive(Drop)]
pub(crate) struct MarkedClause {
    clause: Clause,
    marks: Marks,
}

/// The parts of these tokens, in order, each by itself: what they are together isn't judged, so a part may define a name
/// that the language builds in. A User's Guide to Picat, 'Predicates and Functions'; the limits are own. `Err` is want of
/// memory.
pub fn read_parts(alloc: Global, tokens: &Tokens) -> Result<Vec<PartReading>, AllocError>
    ensures { IfOk result (λ parts. (rs : List spec.Reading) × spec.ReadAll (stretches.stretches (kinds tokens.now)) rs ×
        AreShown parts.items rs) }
{
    let mut parts = Vec::new(alloc);
    let mut from = 0;
    let count = tokens.len();
    for i in 0..count {
        let next = read_ended(alloc, tokens, &mut parts, from, i)?;
        from = next;
    }
    if from >= count {
        return Ok(parts);
    }
    let part = read_part(alloc, tokens, from, count, false)?;
    parts.push(part)?;
    Ok(parts)
}

/// Adds the part from one place up to another, where an end point stands there. Answers where the next part begins.
fn read_ended(
    alloc: Global,
    tokens: &Tokens,
    parts: &mut Vec<PartReading>,
    from: usize,
    at: usize,
) -> Result<usize, AllocError>
    requires ordered { from ≤ at }
    requires within { at < length tokens.now }
    requires fits { at < usize.MAX }
    ensures { IfOk result (λ next. SoFar (kinds tokens.now) parts.old.items from at →
        SoFar (kinds tokens.now) parts.new.items next (at + 1)) }
{
    let token = tokens.kind(at);
    if !is_end(token) {
        return Ok(from);
    }
    let part = read_part(alloc, tokens, from, at, true)?;
    parts.push(part)?;
    Ok(at + 1)
}

/// The part from one place up to another, behind which an end point stands or not.
fn read_part(
    alloc: Global,
    tokens: &Tokens,
    from: usize,
    to: usize,
    ended: bool,
) -> Result<PartReading, AllocError>
    requires ordered { from ≤ to }
    requires within { to ≤ length tokens.now }
    ensures { IfOk result (ShowsPart (stretches.stretch (stretch (kinds tokens.now) from to) ended)) }
{
    if is_crowded(tokens, from, to) {
        return Ok(PartReading::TooDeep);
    }
    let opening = opening(alloc, tokens, from, to)?;
    match opening {
        PartOpening::Misdeclared => Ok(PartReading::BadDeclaration),
        PartOpening::Importing(names) => Ok(import_part(names, ended)),
        PartOpening::Indexing(lists, start) => {
            let part = read_behind(alloc, tokens, from, start, to, Some(lists), ended)?;
            Ok(part)
        }
        PartOpening::Undeclared => {
            let part = read_behind(alloc, tokens, from, from, to, None, ended)?;
            Ok(part)
        }
    }
}

/// The part whose clause stands behind its mode lists.
fn read_behind(
    alloc: Global,
    tokens: &Tokens,
    from: usize,
    start: usize,
    to: usize,
    modes: Option<ModeLists>,
    ended: bool,
) -> Result<PartReading, AllocError>
    requires behind { from ≤ start }
    requires ordered { start ≤ to }
    requires within { to ≤ length tokens.now }
    requires uncrowded { ¬ IsCrowded (stretch (kinds tokens.now) start to) }
    ensures { IfOk result (λ p. (o : Opening) → IsClauseOf (stretch (kinds tokens.now) from to) o modes
        (stretch (kinds tokens.now) start to) → ShowsPart (stretches.stretch (stretch (kinds tokens.now) from to) ended) p) }
{
    if !ended {
        return Ok(PartReading::NoClause);
    }
    match read_clause(alloc, tokens, from, start, to) {
        Ok(clause) => Ok(PartReading::Written(with_modes(modes, clause))),
        Err(ExpFault::TooDeep) => Ok(PartReading::TooDeep),
        Err(ExpFault::NoExpression) => Ok(PartReading::NoClause),
        Err(ExpFault::Memory) => Err(AllocError),
    }
}

/// An import, where an end point stands behind it.
fn import_part(names: Names, ended: bool) -> PartReading
    ensures { (ts : List Token) → ¬ IsCrowded ts → Opens ts (importing names) → ShowsPart (stretches.stretch ts ended) result }
{
    if ended {
        PartReading::Import(names)
    } else {
        PartReading::NoClause
    }
}

/// The clause from a place on, with the shape's form.
fn read_formed(
    alloc: Global,
    tokens: &Tokens,
    from: usize,
    to: usize,
) -> Result<FormedClause, ExpFault>
    requires ordered { from ≤ to }
    requires within { to ≤ length tokens.now }
    requires uncrowded { ¬ IsCrowded (stretch (kinds tokens.now) from to) }
    ensures clause { IfOk result (IsFormedOf (stretch (kinds tokens.now) from to)) }
    ensures fault { IfErr result (IsShapeFault (stretch (kinds tokens.now) from to)) }
{
    let shape = read_shape(alloc, tokens, from, to)?;
    match shape {
        ReadShape::Bare(exp) => {
            let formed = bare_clause(alloc, exp)?;
            Ok(formed)
        }
        ReadShape::Ruled(left, back, right) => {
            let formed = ruled_clause(alloc, left, back, right)?;
            Ok(formed)
        }
    }
}

/// The clause from a place on of the part that begins before it.
fn read_clause(
    alloc: Global,
    tokens: &Tokens,
    from: usize,
    start: usize,
    to: usize,
) -> Result<MarkedClause, ExpFault>
    requires behind { from ≤ start }
    requires ordered { start ≤ to }
    requires within { to ≤ length tokens.now }
    requires uncrowded { ¬ IsCrowded (stretch (kinds tokens.now) start to) }
    ensures clause { IfOk result (IsMarkedOf (stretch (kinds tokens.now) from to) (stretch (kinds tokens.now) start to)) }
    ensures fault { IfErr result (IsShapeFault (stretch (kinds tokens.now) start to)) }
{
    let formed = read_formed(alloc, tokens, start, to)?;
    match marks_of(alloc, tokens, from, to, &formed) {
        Ok(marks) => Ok(MarkedClause {
            clause: formed.clause,
            marks,
        }),
        Err(_) => {
            drop(formed);
            Err(ExpFault::Memory)
        }
    }
}

fn marks_of(
    alloc: Global,
    tokens: &Tokens,
    from: usize,
    to: usize,
    formed: &FormedClause,
) -> Result<Marks, AllocError>
    requires ordered { from ≤ to }
    requires within { to ≤ length tokens.now }
    ensures { IfOk result (λ marks. (s : Shape) → IsFormed formed.now s → AreMarks (stretch (kinds tokens.now) from to) s marks) }
{
    let has_bad_form = has_bad_form(alloc, formed)?;
    let has_too_many_names = has_too_many_names(alloc, tokens, from, to)?;
    Ok(Marks {
        has_bad_form,
        has_too_many_names,
    })
}

/// The part with these mode lists before its clause.
fn with_modes(modes: Option<ModeLists>, marked: MarkedClause) -> WrittenPart
    ensures { (part ts : List Token) (o : Opening) → IsClauseOf part o modes ts → IsMarkedOf part ts marked →
        ShowsPart (stretches.stretch part true) (PartReading.Written result) }
{
    WrittenPart {
        modes,
        clause: marked.clause,
        has_bad_form: marked.marks.has_bad_form,
        has_too_many_names: marked.marks.has_too_many_names,
    }
}
