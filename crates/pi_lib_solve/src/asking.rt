//! What a call asks for.
ghost use Rattle.std.specs.Prelude.{◌≡◌};
ghost use Rattle.pi_terms.specs.Tree.{Tree, no_trees, tree};
ghost use Rattle.pi_constraints.specs.State.{bindings};
ghost use Rattle.pi_constraints.specs.Store.{AreTerms, IsTerm};
ghost use Rattle.pi_unify.specs.Terms.{HoldsNoCycle};
ghost use Rattle.pi_settling.specs.Asked.{asked, asked_plainly, flat_items, with_items};
ghost use Rattle.pi_settling.specs.Options.{Options as Chosen};
ghost use Rattle.pi_label.specs.Reads.{AreOptions};
ghost use Rattle.pi_lib_solve.specs.Asks.{ShowsAsked, stop_of};

use pi_constraints::{Ref, StateStore};
use pi_effects::{Fault, Stop};
use pi_label::{OptFault, Options, ValueWord, VariableWord, read_options};
use pi_lib::{one, two};
use pi_lib_constraints::leaves;
use std::alloc::Global;

/// What a call asks for: its options, and the integers and variables that are labelled, from the left, by their Refs.
#[derive(Drop)]
pub struct Asked {
    pub options: Options,
    pub items: Vec<Ref>,
}

/// What a call with these arguments asks for: the variables, or the options and the variables. What is wrong is raised, and it is
/// judged in this order: the size of the options (`term_too_large`), their form and their words (`bad_option(T)`), the variables
/// (`type_error(integer,T)`). Nothing is said where there are fewer arguments or more. An `Err` of `Memory` stands for want of
/// memory. A User's Guide to Picat, 'Constraints'; that order, exceptions and the limit are own.
pub fn ask<S: StateStore>(alloc: Global, s: &S, args: &[Ref]) -> Result<Asked, Stop>
    ensures plainly { (vars : Tree) → HoldsNoCycle (S.seen s.now) → AreTerms (S.seen s.now) args.now (tree vars no_trees) →
        ShowsAsked (S.seen s.now) result (asked_plainly (S.seen s.now).now.state vars) }
    ensures by_options { (words vars : Tree) → HoldsNoCycle (S.seen s.now) →
        AreTerms (S.seen s.now) args.now (tree words (tree vars no_trees)) →
        ShowsAsked (S.seen s.now) result (asked (S.seen s.now).now.state words vars) }
{
    match two(args) {
        Some((words, vars)) => ask_by_options(alloc, s, words, vars),
        None => match one(args) {
            Some(vars) => ask_plainly(alloc, s, vars),
            None => Err(Stop::Memory),
        },
    }
}

/// `solve(Vars)`: no word is chosen.
fn ask_plainly<S: StateStore>(alloc: Global, s: &S, vars: Ref) -> Result<Asked, Stop>
    ensures { (t : Tree) → HoldsNoCycle (S.seen s.now) → IsTerm (S.seen s.now) vars t →
        ShowsAsked (S.seen s.now) result (asked_plainly (S.seen s.now).now.state t) }
{
    let options = Options {
        variable: VariableWord::Forward,
        value: ValueWord::Up,
        objective: None,
    };
    ask_for(alloc, s, options, vars)
}

/// `solve(Options,Vars)`.
fn ask_by_options<S: StateStore>(alloc: Global, s: &S, words: Ref, vars: Ref) -> Result<Asked, Stop>
    ensures { (t u : Tree) → HoldsNoCycle (S.seen s.now) → IsTerm (S.seen s.now) words t → IsTerm (S.seen s.now) vars u →
        ShowsAsked (S.seen s.now) result (asked (S.seen s.now).now.state t u) }
{
    match read_options(alloc, s, words) {
        Ok(options) => ask_for(alloc, s, options, vars),
        Err(fault) => Err(stop_of(fault)),
    }
}

/// What is raised where options aren't read.
fn stop_of(fault: OptFault) -> Stop
    ensures { result ≡ stop_of fault }
{
    match fault {
        OptFault::TooLarge => Stop::Raised(Fault::TermTooLarge),
        OptFault::BadOption(term) => Stop::Raised(Fault::BadOption(term)),
        OptFault::Memory => Stop::Memory,
    }
}

/// What is asked for by these options.
fn ask_for<S: StateStore>(alloc: Global, s: &S, options: Options, vars: Ref) -> Result<Asked, Stop>
    ensures { (o : Chosen) (t : Tree) → HoldsNoCycle (S.seen s.now) → IsTerm (S.seen s.now) vars t →
        AreOptions (S.seen s.now) options o → ShowsAsked (S.seen s.now) result
        (with_items (S.seen s.now).now.state o (flat_items (bindings (S.seen s.now).now.state) t)) }
{
    match leaves(alloc, s, vars) {
        Ok(items) => Ok(Asked { options, items }),
        Err(stop) => Err(stop),
    }
}
