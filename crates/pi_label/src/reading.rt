//! The options of a call, read from its list.
ghost use Rattle.std.specs.Prelude.{◌≡◌, List, map};
ghost use Rattle.pi_terms.specs.Tree.{Tree};
ghost use Rattle.pi_constraints.specs.Value.{value};
ghost use Rattle.pi_constraints.specs.State.{bindings, followed};
ghost use Rattle.pi_constraints.specs.Store.{IsTerm};
ghost use Rattle.pi_unify.specs.Terms.{HoldsNoCycle};
ghost use Rattle.pi_lib_builtin.specs.Items.{AreItems};
ghost use Rattle.pi_settling.specs.Options.{Chosen as ChosenWords, read_options as words_of, with_word, word_of};
ghost use Rattle.pi_label.specs.Reads.{AreChosen, ShowsChosen, ShowsWords, ShowsMeasured, ShowsOptions, refusal_of};

use crate::fault::OptFault;
use crate::options::{Objective, Options, ValueWord, VariableWord};
use crate::words::{Word, word_at};
use pi_constraints::{ReadStop, Ref, StateStore};
use pi_effects::Stop;
use pi_lib_builtin::list_items;
use std::alloc::Global;

/// What was chosen so far, of each group.
#[derive(Clone, Copy)]
pub(crate) struct Chosen {
    variable: Option<VariableWord>,
    value: Option<ValueWord>,
    objective: Option<Objective>,
}

/// The options that a list has; the first word from the left that is none, or a second one of its group, is told, and a
/// term that is no proper list as it is. A User's Guide to Picat, 'Constraints'; what is told is own.
pub fn read_options<S: StateStore>(alloc: Global, s: &S, options: Ref) -> Result<Options, OptFault>
    ensures { (t : Tree) → HoldsNoCycle (S.seen s.now) → IsTerm (S.seen s.now) options t → ShowsOptions (S.seen s.now) t result }
{
    match measure(alloc, s, options) {
        Err(fault) => Err(fault),
        Ok(()) => match list_items(alloc, s, options) {
            Ok(words) => read_words(s, &words),
            Err(stop) => Err(refusal(stop, options)),
        },
    }
}

/// Why a term has no words.
fn refusal(stop: Stop, options: Ref) -> OptFault
    ensures { result ≡ refusal_of stop options }
{
    match stop {
        Stop::Raised(_) => OptFault::BadOption(options),
        Stop::Memory => OptFault::Memory,
    }
}

/// Refuses a term with too many cells.
fn measure<S: StateStore>(alloc: Global, s: &S, options: Ref) -> Result<(), OptFault>
    ensures { (t : Tree) → HoldsNoCycle (S.seen s.now) → IsTerm (S.seen s.now) options t →
        ShowsMeasured (value (bindings (S.seen s.now).now.state) t) result }
{
    match s.read_term(alloc, options) {
        Ok(_) => Ok(()),
        Err(ReadStop::TooLarge) => Err(OptFault::TooLarge),
        Err(ReadStop::Memory) => Err(OptFault::Memory),
    }
}

/// The options that these words are.
fn read_words<S: StateStore>(s: &S, words: &[Ref]) -> Result<Options, OptFault>
    ensures { (ts : List Tree) → HoldsNoCycle (S.seen s.now) → AreItems (S.seen s.now) words.now ts →
        ShowsWords (S.seen s.now) result (words_of (map (followed (bindings (S.seen s.now).now.state)) ts)) }
{
    let mut chosen = Chosen {
        variable: None,
        value: None,
        objective: None,
    };
    for word in words {
        match chosen_with(s, chosen, *word) {
            Some(more) => chosen = more,
            None => return Err(OptFault::BadOption(*word)),
        }
    }
    Ok(Options {
        variable: chosen.variable.unwrap_or(VariableWord::Forward),
        value: chosen.value.unwrap_or(ValueWord::Up),
        objective: chosen.objective,
    })
}

/// One word more; None where it is none, or a second one of its group.
fn chosen_with<S: StateStore>(s: &S, chosen: Chosen, term: Ref) -> Option<Chosen>
    ensures { (t : Tree) (c : ChosenWords) → HoldsNoCycle (S.seen s.now) → IsTerm (S.seen s.now) term t →
        AreChosen (S.seen s.now) chosen c → ShowsChosen (S.seen s.now) result
        (with_word c (word_of (followed (bindings (S.seen s.now).now.state) t))) }
{
    let Some(word) = word_at(s, term) else {
        return None;
    };
    match word {
        Word::Picks(word) => match chosen.variable {
            Some(_) => None,
            None => Some(Chosen {
                variable: Some(word),
                value: chosen.value,
                objective: chosen.objective,
            }),
        },
        Word::Tries(word) => match chosen.value {
            Some(_) => None,
            None => Some(Chosen {
                variable: chosen.variable,
                value: Some(word),
                objective: chosen.objective,
            }),
        },
        Word::Seeks(objective) => match chosen.objective {
            Some(_) => None,
            None => Some(Chosen {
                variable: chosen.variable,
                value: chosen.value,
                objective: Some(objective),
            }),
        },
    }
}
