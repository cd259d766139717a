//! Lists that are written as their characters.
ghost use Rattle.std.specs.Prelude.{◌≡◌, ◌==◌, ◌≤◌, ◌+◌, true, false, length, IfOk, IfSome, IfNone, OnSome, MatchOption};
ghost use Rattle.std.specs.Str.{chars};
ghost use Rattle.pi_terms.specs.Tree.{atom, tree, tree_count, cells_all};
ghost use Rattle.pi_terms.specs.TermCells.{take_trees};
ghost use Rattle.pi_syntax.specs.PrintTerm.{cell_is_characters};
ghost use Rattle.pi_print_terms.specs.Roots.{root_is_cell, root_is_nil, AreCharacters};

use crate::nodes::Nodes;
use pi_terms::TermHead;
use std::alloc::{AllocError, Global};

/// Whether a term with this root is a list cell.
pub fn is_cell(head: TermHead<'_>) -> bool
    ensures { result ≡ root_is_cell head.entry }
{
    match head {
        TermHead::Comp(name, count) => name == "[|]" && count == 2,
        _ => false,
    }
}

/// Whether a term with this root is the empty list.
pub fn is_nil(head: TermHead<'_>) -> bool
    ensures { result ≡ root_is_nil head.entry }
{
    match head {
        TermHead::Atom(name) => name == "[]",
        _ => false,
    }
}

/// The characters of a list, and what is ahead behind it.
#[derive(Drop)]
pub struct Characters<'t> {
    pub text: String,
    pub behind: Nodes<'t>,
}

/// The characters of the list whose first cell was read, where it is proper and has atoms of one character alone.
pub fn read_characters<'t>(
    alloc: Global,
    ahead: &Nodes<'t>,
) -> Result<Option<Characters<'t>>, AllocError>
    requires { 2 ≤ tree_count ahead.now }
    ensures ok { IfOk result (λ found. MatchOption found (cell_is_characters (take_trees 2 ahead.now) ≡ false) (AreCharacters ahead.now)) }
{
    let mut text = String::new(alloc);
    let mut behind = ahead.copy();
    while let Some(name) = read_character(&mut behind) {
        text.push_str(name)?;
        let Some(head) = behind.next() else {
            return Ok(None);
        };
        if is_nil(head) {
            return Ok(Some(Characters { text, behind }));
        }
        if !is_cell(head) {
            return Ok(None);
        }
    }
    Ok(None)
}

/// Reads an item of a list; gives its name where it is an atom of one character.
fn read_character<'t>(ahead: &mut Nodes<'t>) -> Option<&'t str>
    requires { 2 ≤ tree_count ahead.old }
    ensures item { IfSome result (λ name. ahead.old ≡ tree (atom name.now) ahead.new) }
    ensures character { IfSome result (λ name. (length (chars name.now) == 1) ≡ true) }
    ensures fewer { OnSome result (cells_all ahead.new + 1 ≡ cells_all ahead.old) }
    ensures other { IfNone result (cell_is_characters (take_trees 2 ahead.old) ≡ false) }
{
    let Some(head) = ahead.next() else {
        return None;
    };
    let TermHead::Atom(name) = head else {
        return None;
    };
    if is_one_character(name) {
        Some(name)
    } else {
        None
    }
}

fn is_one_character(text: &str) -> bool
    ensures { result ≡ (length (chars text.now) == 1) }
{
    text.chars().count() == 1
}
