//! Patterns of heads in words: `S0` is a slot, `S0@` a slot for what the pattern behind it matches.

use crate::case::Case;
use crate::nodes::{Node, node_of};
use pi_types::{Pattern, Patterns};

/// The patterns that words are.
pub fn patterns_of(case: &Case, words: &[String]) -> Patterns {
    let mut built = Vec::new(case.alloc);
    for word in words.iter().rev() {
        let made = pattern_over(case, word.as_str(), &mut built);
        case.keep(made, &mut built);
    }
    let count = built.len();
    case.several(&mut built, count)
}

/// The pattern that begins with this word, over the newest patterns of a stack.
fn pattern_over(case: &Case, word: &str, built: &mut Vec<Pattern>) -> Option<Pattern> {
    if let Some(slot) = word.strip_prefix('S') {
        return slot_pattern(case, slot, built);
    }
    match node_of(word) {
        Node::Int(n) => Some(Pattern::Int(n)),
        Node::Atom(name) => Some(Pattern::Atom(case.name_of(name))),
        Node::Comp(name, count) => Some(Pattern::Comp(
            case.name_of(name),
            case.several(built, count),
        )),
        _ => {
            case.lacks("a pattern in place of a word");
            None
        }
    }
}

/// The pattern of a slot, or behind `@` of a slot that has a pattern.
fn slot_pattern(case: &Case, slot: &str, built: &mut Vec<Pattern>) -> Option<Pattern> {
    let Some(slot) = slot.strip_suffix('@') else {
        return Some(Pattern::Slot(case.slot_of(slot)));
    };
    let slot = case.slot_of(slot);
    let inner = case.one(built)?;
    let boxed = Box::new(case.alloc, inner);
    Some(Pattern::Named(slot, case.made(boxed)?))
}

/// Writes a pattern without patterns in it, in words.
pub fn tell_flat(pattern: &Pattern, case: &Case) {
    match pattern {
        Pattern::Slot(k) => tell_slot(*k, "", case),
        Pattern::Int(n) => case.tell_integer(*n),
        Pattern::Atom(name) => case.tell_name(name.as_str()),
        Pattern::Comp(name, args) => {
            case.tell_called(name.as_str(), args.len());
            case.tell(" ..");
        }
        Pattern::Named(k, _) => tell_slot(*k, "@ ..", case),
    }
}

fn tell_slot(slot: u32, behind: &str, case: &Case) {
    case.tell_character('S');
    case.tell_number(u64::from(slot));
    case.tell(behind);
}
