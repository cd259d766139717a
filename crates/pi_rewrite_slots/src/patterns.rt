//! Patterns over slots, of the arguments of heads.
ghost use Rattle.std.specs.Prelude.{◌≡◌, ◌∷◌, ◌++◌, [], map, IfOk};
ghost use Rattle.pi_core.specs.CoreTree.{pattern_tree, pattern_trees};
ghost use Rattle.pi_terms.specs.PatternTree.{PatternTree, compound};
ghost use Rattle.pi_effects.specs.Texts.{text_list};
ghost use Rattle.pi_syntax.specs.ExpTree.{exp_tree};
ghost use Rattle.pi_syntax.specs.ExpLists.{exps_of};
ghost use Rattle.pi_rewrite_spec.specs.Values.{slot_pattern as pattern_of, slot_patterns as patterns_of, cells_onto as onto, exact_term, exact_terms};
ghost use Rattle.pi_rewrite_slots.specs.ItemCells.{letter_atoms};

use crate::letters::{letter_name, letters};
use crate::slots::Slots;
use pi_core::{Pattern, Patterns};
use pi_syntax::Exp;
use pi_terms::Text;
use std::alloc::{AllocError, Global};

/// The patterns over slots that the arguments of a head are. The slot of a named part comes before those of its pattern. Of
/// what is no pattern, as a loop, it is an atom without a name (own).
#[cycle(form)]
pub fn slot_patterns<'a>(
    alloc: Global,
    exps: &'a [Exp],
    slots: &mut Slots<'a>,
) -> Result<Patterns, AllocError>
    ensures are { IfOk result (λ made. pattern_trees made.items ≡ (patterns_of (exps_of exps.now) slots.old).forms) }
    ensures slots { IfOk result (λ _. slots.new ≡ (patterns_of (exps_of exps.now) slots.old).names) }
{
    let mut patterns = Vec::new(alloc);
    for exp in exps {
        patterns.push(slot_pattern(alloc, exp, slots)?)?;
    }
    Ok(patterns)
}

/// The pattern over slots that one argument is.
#[cycle(form)]
#[tactic(auto, unfolding(pi_syntax::specs::ExpTree::exp_tree, pi_rewrite_spec::specs::Values::slot_pattern, pi_core::specs::CoreTree::pattern_tree))]
pub fn slot_pattern<'a>(
    alloc: Global,
    exp: &'a Exp,
    slots: &mut Slots<'a>,
) -> Result<Pattern, AllocError>
    ensures is { IfOk result (λ made. pattern_tree made ≡ (pattern_of (exp_tree exp.now) slots.old).form) }
    ensures slots { IfOk result (λ _. slots.new ≡ (pattern_of (exp_tree exp.now) slots.old).names) }
{
    match exp {
        Exp::Var(name) => {
            let slot = slots.slot_for(name.as_str())?;
            Ok(Pattern::Slot(slot))
        }
        Exp::Int(value) => Ok(Pattern::Int(value.value())),
        Exp::Atom(name) => exact_atom(alloc, name.as_str()),
        Exp::Str(text) => exact_text(alloc, text.as_str()),
        Exp::List(items, tail) => match tail {
            Some(tail) => {
                let items = slot_patterns(alloc, items.as_slice(), slots)?;
                let rest = slot_pattern(alloc, tail, slots)?;
                cells_onto(alloc, items, rest)
            }
            None => {
                let items = slot_patterns(alloc, items.as_slice(), slots)?;
                let rest = exact_atom(alloc, "[]")?;
                cells_onto(alloc, items, rest)
            }
        },
        Exp::Array(items) => {
            let parts = slot_patterns(alloc, items.as_slice(), slots)?;
            structure(alloc, "{}", parts)
        }
        Exp::Call(name, args) => {
            let parts = slot_patterns(alloc, args.as_slice(), slots)?;
            structure(alloc, name.as_str(), parts)
        }
        Exp::Quote(inner) => slot_pattern(alloc, inner, slots),
        Exp::Range(first, step, last) => match step {
            Some(step) => {
                let mut parts = Vec::new(alloc);
                push_pattern(alloc, first, slots, &mut parts)?;
                push_pattern(alloc, step, slots, &mut parts)?;
                push_pattern(alloc, last, slots, &mut parts)?;
                structure(alloc, "..", parts)
            }
            None => {
                let mut parts = Vec::new(alloc);
                push_pattern(alloc, first, slots, &mut parts)?;
                push_pattern(alloc, last, slots, &mut parts)?;
                structure(alloc, "..", parts)
            }
        },
        Exp::At(name, part) => {
            let slot = slots.slot_for(name.as_str())?;
            let part = slot_pattern(alloc, part, slots)?;
            let part = Box::new(alloc, part)?;
            Ok(Pattern::Named(slot, part))
        }
        Exp::Index(_, _) => exact_atom(alloc, ""),
        Exp::Collect(_, _, _) => exact_atom(alloc, ""),
        Exp::And(_) => exact_atom(alloc, ""),
        Exp::Or(_) => exact_atom(alloc, ""),
        Exp::Arrow(_, _) => exact_atom(alloc, ""),
        Exp::If(_, _) => exact_atom(alloc, ""),
        Exp::Foreach(_, _) => exact_atom(alloc, ""),
        Exp::While(_, _) => exact_atom(alloc, ""),
        Exp::DoWhile(_, _) => exact_atom(alloc, ""),
    }
}

/// Puts the pattern over slots that one argument is behind the others.
#[cycle(form)]
fn push_pattern<'a>(
    alloc: Global,
    exp: &'a Exp,
    slots: &mut Slots<'a>,
    patterns: &mut Patterns,
) -> Result<(), AllocError>
    ensures are { IfOk result (λ _. map pattern_tree patterns.new.items ≡
        map pattern_tree patterns.old.items ++ (pattern_of (exp_tree exp.now) slots.old).form ∷ []) }
    ensures slots { IfOk result (λ _. slots.new ≡ (pattern_of (exp_tree exp.now) slots.old).names) }
{
    let made = slot_pattern(alloc, exp, slots)?;
    patterns.push(made)?;
    Ok(())
}

#[tactic(auto, unfolding(pi_core::specs::CoreTree::pattern_tree))]
fn exact_atom(alloc: Global, name: &str) -> Result<Pattern, AllocError>
    ensures { IfOk result (λ made. pattern_tree made ≡ PatternTree.exact_atom name.now) }
{
    let name = Text::new(alloc, name)?;
    Ok(Pattern::Atom(name))
}

/// A text as the list of its characters.
fn exact_text(alloc: Global, text: &str) -> Result<Pattern, AllocError>
    ensures { IfOk result (λ made. pattern_tree made ≡ exact_term (text_list text.now)) }
{
    let letters = letters(alloc, text)?;
    let items = exact_letters(alloc, letters.as_slice())?;
    let rest = exact_atom(alloc, "[]")?;
    cells_onto(alloc, items, rest)
}

/// Characters as atoms.
fn exact_letters(alloc: Global, letters: &[char]) -> Result<Patterns, AllocError>
    ensures { IfOk result (λ made. pattern_trees made.items ≡ exact_terms (letter_atoms letters.now)) }
{
    let mut items = Vec::new(alloc);
    for letter in letters {
        let name = letter_name(alloc, *letter)?;
        items.push(Pattern::Atom(name))?;
    }
    Ok(items)
}

fn structure(alloc: Global, name: &str, parts: Patterns) -> Result<Pattern, AllocError>
    ensures { IfOk result (λ made. pattern_tree made ≡ compound name.now (pattern_trees parts.items)) }
{
    let name = Text::new(alloc, name)?;
    Ok(Pattern::Comp(name, parts))
}

/// The patterns of a list's items in front of that of what is behind them.
fn cells_onto(alloc: Global, items: Patterns, rest: Pattern) -> Result<Pattern, AllocError>
    ensures { IfOk result (λ made. pattern_tree made ≡ onto (pattern_trees items.items) (pattern_tree rest)) }
{
    let mut items = items;
    let mut made = rest;
    while let Some(item) = items.pop() {
        let parts = two(alloc, item, made)?;
        made = structure(alloc, "[|]", parts)?;
    }
    Ok(made)
}

fn two(alloc: Global, first: Pattern, second: Pattern) -> Result<Patterns, AllocError>
    ensures { IfOk result (λ made. made.items ≡ first ∷ second ∷ []) }
{
    let mut patterns = Vec::new(alloc);
    patterns.push(first)?;
    patterns.push(second)?;
    Ok(patterns)
}
