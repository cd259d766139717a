//! The words of a list of options.
ghost use Rattle.std.specs.Prelude.{◌≡◌, ℕ, List, option_map};
ghost use Rattle.pi_terms.specs.Tree.{Tree};
ghost use Rattle.pi_constraints.specs.State.{bindings, followed};
ghost use Rattle.pi_constraints.specs.Store.{IsTerm, IsName};
ghost use Rattle.pi_unify.specs.Terms.{HoldsNoCycle};
ghost use Rattle.pi_settling.specs.Options.{word_of, objective_word};
ghost use Rattle.pi_label.specs.Words.{variable_word, value_word, picking_word, trying_word};
ghost use Rattle.pi_label.specs.Reads.{ShowsWord, ShowsPlain, ShowsObjective};

use crate::options::{Objective, ValueWord, VariableWord};
use pi_constraints::{Cell, Ref, StateStore};

/// A word of a list of options, by its group.
#[derive(Clone, Copy)]
pub(crate) enum Word {
    Picks(VariableWord),
    Tries(ValueWord),
    Seeks(Objective),
}

/// The word that a term is, with bindings followed.
pub(crate) fn word_at<S: StateStore>(s: &S, term: Ref) -> Option<Word>
    ensures { (t : Tree) → HoldsNoCycle (S.seen s.now) → IsTerm (S.seen s.now) term t →
        ShowsWord (S.seen s.now) result (word_of (followed (bindings (S.seen s.now).now.state) t)) }
{
    match s.look(term) {
        Cell::Var(_) => None,
        Cell::Int(_) => None,
        Cell::Atom(name) => plain_word(s.name(name)),
        Cell::Comp(name, count) => {
            if count == 1 {
                match objective_named(s, name, s.arg(term, 0)) {
                    Some(found) => Some(Word::Seeks(found)),
                    None => None,
                }
            } else {
                None
            }
        }
    }
}

/// The word with this name.
fn plain_word(name: &str) -> Option<Word>
    ensures { ShowsPlain name.now result }
{
    match variable_named(name) {
        Some(word) => Some(Word::Picks(word)),
        None => match value_named(name) {
            Some(word) => Some(Word::Tries(word)),
            None => None,
        },
    }
}

fn variable_named(name: &str) -> Option<VariableWord>
    ensures { option_map variable_word result ≡ picking_word name.now }
{
    if name == "forward" {
        Some(VariableWord::Forward)
    } else if name == "backward" {
        Some(VariableWord::Backward)
    } else if name == "ff" {
        Some(VariableWord::Ff)
    } else {
        None
    }
}

fn value_named(name: &str) -> Option<ValueWord>
    ensures { option_map value_word result ≡ trying_word name.now }
{
    if name == "up" {
        Some(ValueWord::Up)
    } else if name == "down" {
        Some(ValueWord::Down)
    } else if name == "split" {
        Some(ValueWord::Split)
    } else if name == "reverse_split" {
        Some(ValueWord::ReverseSplit)
    } else {
        None
    }
}

/// The objective that this name makes of an expression.
fn objective_named<S: StateStore>(s: &S, name: u64, expression: Ref) -> Option<Objective>
    ensures { (f : List ℕ) (t : Tree) → IsName (S.seen s.now) name f → IsTerm (S.seen s.now) expression t →
        ShowsObjective (S.seen s.now) result (objective_word f t) }
{
    let name = s.name(name);
    if name == "min" {
        Some(Objective {
            greatest: false,
            expression,
        })
    } else if name == "max" {
        Some(Objective {
            greatest: true,
            expression,
        })
    } else {
        None
    }
}
