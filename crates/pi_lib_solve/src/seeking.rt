//! What a search for the best answer does to a store: the postings of its rounds, the words by which a round labels, what its
//! expression comes to, and how many values are better.
ghost use Rattle.std.specs.Prelude.{◌≡◌, IfOk};
ghost use Rattle.pi_terms.specs.Tree.{Tree, int, comp, no_trees, tree};
ghost use Rattle.pi_constraints.specs.State.{IsState};
ghost use Rattle.pi_constraints.specs.Store.{IsTerm, Keeps, Stays};
ghost use Rattle.pi_label.specs.Reads.{AreOptions};
ghost use Rattle.pi_label.specs.Words.{variable_word, value_word};
ghost use Rattle.pi_lib_constraints.specs.Names.{comparison_name};
ghost use Rattle.pi_prop_spec.specs.Postings.{posting_in};
ghost use Rattle.pi_settling.specs.Options.{Options as Chosen};
ghost use Rattle.pi_settling.specs.Read.{operand_in};
ghost use Rattle.pi_settling.specs.Reading.{operand_value};
ghost use Rattle.pi_settling.specs.Rounds.{better_sign, count_better};
ghost use Rattle.pi_settling.specs.Words.{plain_words, variable_name, value_name};
ghost use Rattle.pi_lib_solve.specs.Sought.{ShowsBegun, ShowsBettered};

use pi_constraints::{Ref, StateStore, StoredDomains};
use pi_effects::Stop;
use pi_label::{Options, ValueWord, VariableWord};
use pi_lib_builtin::put_list;
use pi_lib_constraints::{number_of, post_operand, post_relation};
use pi_prop_read::Comparison;
use std::alloc::{AllocError, Global};

/// The posting of the first round: what the reading of the expression posts, or what is raised, and then nothing is changed. It
/// isn't settled yet. A User's Guide to Picat, 'Constraints'; rounds, limits and exceptions are own.
pub fn begin<S: StoredDomains>(alloc: Global, s: &mut S, expression: Ref) -> Result<(), Stop>
    ensures keeps { Keeps (S.seen s.old) (S.seen s.new) }
    ensures shows { (t : Tree) → IsState (S.seen s.old).now.state → IsTerm (S.seen s.old) expression t →
        ShowsBegun (S.seen s.old) (S.seen s.new) result (operand_in t (S.seen s.old).now.state) }
{
    post_operand(alloc, s, expression)
}

/// The integer that the expression comes to; None where it is none, or is refused. A User's Guide to Picat, 'Constraints'.
pub fn worth<S: StateStore>(
    alloc: Global,
    s: &S,
    expression: Ref,
) -> Result<Option<i128>, AllocError>
    ensures { IfOk result (λ found. (t : Tree) → IsState (S.seen s.now).now.state → IsTerm (S.seen s.now) expression t →
        found ≡ operand_value (operand_in t (S.seen s.now).now.state)) }
{
    number_of(alloc, s, expression)
}

/// The posting of a later round: that the expression has a better value than this one, or what is raised, and then nothing is
/// changed. It isn't settled yet. A User's Guide to Picat, 'Constraints'; rounds, limits and exceptions are own.
pub fn better<S: StoredDomains>(
    alloc: Global,
    s: &mut S,
    expression: Ref,
    greatest: bool,
    value: i128,
) -> Result<(), Stop>
    ensures keeps { Keeps (S.seen s.old) (S.seen s.new) }
    ensures shows { (t : Tree) → IsState (S.seen s.old).now.state → IsTerm (S.seen s.old) expression t →
        ShowsBettered (S.seen s.old) (S.seen s.new) result
        (posting_in (S.seen s.old).now.state (comp (better_sign greatest) (tree t (tree (int value) no_trees)))) }
{
    let bound = s.put_int(value)?;
    post_relation(alloc, s, better_comparison(greatest), expression, bound)
}

/// How a better value stands to another one.
fn better_comparison(greatest: bool) -> Comparison
    ensures { comparison_name result ≡ better_sign greatest }
{
    if greatest {
        Comparison::Greater
    } else {
        Comparison::Less
    }
}

/// How many integers of 128 bits are better than this one: that many rounds may follow an answer with it. (Own.)
pub fn count_better(greatest: bool, value: i128) -> u128
    ensures { result ≡ count_better greatest value }
{
    if greatest {
        i128::MAX.abs_diff(value)
    } else {
        value.abs_diff(i128::MIN)
    }
}

/// Puts the words of options, but for their objective, as a list: by these a round labels. It changes nothing else. A User's Guide
/// to Picat, 'Constraints'.
pub fn plain_words<S: StateStore>(s: &mut S, options: &Options) -> Result<Ref, AllocError>
    ensures stays { Stays (S.seen s.old) (S.seen s.new) }
    ensures ok { IfOk result (λ made. (o : Chosen) → AreOptions (S.seen s.old) options.now o →
        IsTerm (S.seen s.new) made (plain_words o)) }
{
    let variable = s.put_atom(variable_name(options.variable))?;
    let value = s.put_atom(value_name(options.value))?;
    let made = put_list(s, &[variable, value])?;
    Ok(made)
}

fn variable_name(word: VariableWord) -> &'static str
    ensures { result.now ≡ variable_name (variable_word word) }
{
    match word {
        VariableWord::Forward => "forward",
        VariableWord::Backward => "backward",
        VariableWord::Ff => "ff",
    }
}

fn value_name(word: ValueWord) -> &'static str
    ensures { result.now ≡ value_name (value_word word) }
{
    match word {
        ValueWord::Up => "up",
        ValueWord::Down => "down",
        ValueWord::Split => "split",
        ValueWord::ReverseSplit => "reverse_split",
    }
}
