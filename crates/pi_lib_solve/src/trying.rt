//! The alternatives of a variable, one after the other.
ghost use Rattle.std.specs.Prelude.{◌≡◌, List, Some, option_map, slice_get};
ghost use Rattle.pi_constraints.specs.declared.domain.Span.{Span};
ghost use Rattle.pi_constraints.specs.State.{IsState, domain_of};
ghost use Rattle.pi_label.specs.Follows.{Follows};
ghost use Rattle.pi_label.specs.Words.{alternative_of, value_word};
ghost use Rattle.pi_settling.specs.Choices.{alternatives, is_value};

use crate::values::{ends, value_above, value_below};
use pi_constraints::StoredDomains;
use pi_label::{Choice, ValueWord, first_choice, lower_half, upper_half};

/// The alternative of a variable with a domain that follows `after`, and the first one where that is None; None exactly where
/// none follows. The domain is read where it stands: no more spans are looked at than their number has binary digits, and no
/// memory is taken. A User's Guide to Picat, 'Constraints'.
pub fn next_choice<S: StoredDomains>(
    s: &S,
    variable: u64,
    word: ValueWord,
    after: Option<Choice>,
) -> Option<Choice>
    ensures { (d : List Span) → IsState (S.seen s.now).now.state → domain_of (S.seen s.now).now.state variable ≡ Some d →
        Follows (alternatives (value_word word) d) (option_map alternative_of after) (option_map alternative_of result) }
{
    match after {
        None => first(s, variable, word),
        Some(choice) => next(s, variable, word, choice),
    }
}

/// The first alternative.
fn first<S: StoredDomains>(s: &S, variable: u64, word: ValueWord) -> Option<Choice>
    ensures { (d : List Span) → IsState (S.seen s.now).now.state → domain_of (S.seen s.now).now.state variable ≡ Some d →
        option_map alternative_of result ≡ slice_get (alternatives (value_word word) d) 0 }
{
    match ends(s, variable) {
        Some(ends) => Some(first_choice(word, ends)),
        None => None,
    }
}

/// The alternative after another one.
fn next<S: StoredDomains>(s: &S, variable: u64, word: ValueWord, choice: Choice) -> Option<Choice>
    ensures { (d : List Span) → IsState (S.seen s.now).now.state → domain_of (S.seen s.now).now.state variable ≡ Some d →
        Follows (alternatives (value_word word) d) (Some (alternative_of choice)) (option_map alternative_of result) }
{
    match choice {
        Choice::Is(n) => value_after(s, variable, word, n),
        Choice::AtMost(n) => upper_half(word, n),
        Choice::Above(n) => lower_half(word, n),
    }
}

/// The alternative after a value.
fn value_after<S: StoredDomains>(s: &S, variable: u64, word: ValueWord, n: i64) -> Option<Choice>
    ensures { (d : List Span) → IsState (S.seen s.now).now.state → domain_of (S.seen s.now).now.state variable ≡ Some d →
        Follows (alternatives (value_word word) d) (Some (is_value n)) (option_map alternative_of result) }
{
    match word {
        ValueWord::Up => value(value_above(s, variable, n)),
        ValueWord::Down => value(value_below(s, variable, n)),
        ValueWord::Split => None,
        ValueWord::ReverseSplit => None,
    }
}

fn value(found: Option<i64>) -> Option<Choice>
    ensures { option_map alternative_of result ≡ option_map is_value found }
{
    match found {
        Some(n) => Some(Choice::Is(n)),
        None => None,
    }
}
