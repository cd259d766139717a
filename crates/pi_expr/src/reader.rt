//! The reader: a loop over open phrases.
ghost use Rattle.std.specs.Prelude.{◌≡◌, ◌≤◌, List, length, IfOk, IfErr};
ghost use Rattle.pi_lex.specs.Kinds.{kinds};
ghost use Rattle.pi_syntax.specs.Crowding.{IsCrowded, IsRead};
ghost use Rattle.pi_syntax.specs.ExpTree.{ExpTree, exp_tree};
ghost use Rattle.pi_expr.specs.Faults.{stretch, IsFault};
ghost use Rattle.pi_expr_phrases.specs.Machine as machine;
ghost use Rattle.pi_expr_phrases.specs.Machine.{Runs};
ghost use Rattle.pi_expr_phrases.specs.Shown.{phrase_shown, terminals};
ghost use Rattle.pi_expr_phrases.specs.Trees.{Shows};
ghost use Rattle.pi_expr_phrases.specs.Turns.{ShowsTurn};
ghost use Rattle.pi_expr.specs.States.{ShowsStack, ShowsState, ShowsOutcome, ShowsResult, EndsAs};

use crate::crowding::is_crowded;
use crate::enter::enter;
use crate::fault::ExpFault;
use crate::go_on::go_on;
use crate::resume::resume;
use pi_expr_phrases::{Built, Frame, Phrase, Terminals, Turn, reach};
use pi_lex::Tokens;
use pi_syntax::Exp;
use std::alloc::{AllocError, Global};

/// The expression that the tokens from one place up to another are. The tree is the grammar's (A User's Guide to Picat,
/// 'Grammar' and 'Operators'); tokens that are crowded, and trees of more than 1,000 levels, are too deep (own).
pub fn read_exp(alloc: Global, tokens: &Tokens, from: usize, to: usize) -> Result<Exp, ExpFault>
    requires ordered { from ≤ to }
    requires within { to ≤ length tokens.now }
    ensures read { IfOk result (λ exp. IsRead (stretch (kinds tokens.now) from to) (exp_tree exp)) }
    ensures fault { IfErr result (λ fault. IsFault (stretch (kinds tokens.now) from to) fault) }
{
    if is_crowded(tokens, from, to) {
        return Err(ExpFault::TooDeep);
    }
    read_uncrowded(alloc, tokens, from, to)
}

/// The same of tokens that are known not to be crowded, which it doesn't count again.
pub fn read_uncrowded(
    alloc: Global,
    tokens: &Tokens,
    from: usize,
    to: usize,
) -> Result<Exp, ExpFault>
    requires ordered { from ≤ to }
    requires within { to ≤ length tokens.now }
    requires uncrowded { ¬ IsCrowded (stretch (kinds tokens.now) from to) }
    ensures read { IfOk result (λ exp. IsRead (stretch (kinds tokens.now) from to) (exp_tree exp)) }
    ensures fault { IfErr result (λ fault. IsFault (stretch (kinds tokens.now) from to) fault) }
{
    read(alloc, Terminals::new(tokens, from, to))
}

/// Where a reader stands, with the terminals that are left.
#[derive(Drop)]
enum State<'a> {
    /// Before an operand.
    Operand(Terminals<'a>),
    /// Behind a phrase, which may be indexed or not.
    Value(Phrase, bool, Built, Terminals<'a>),
}

/// What comes of a step.
#[derive(Drop)]
enum Outcome<'a> {
    Next(State<'a>),
    Done(Built),
    Fail,
}

/// The expression that the terminals are.
fn read<'a>(alloc: Global, ts: Terminals<'a>) -> Result<Exp, ExpFault>
    ensures { EndsAs result (machine.begin (terminals ts.entry)) }
{
    let mut stack = Vec::new(alloc);
    let mut state = State::Operand(ts);
    'steps: loop {
        let outcome = step(alloc, &mut stack, state)?;
        match outcome {
            Outcome::Next(next) => state = next,
            Outcome::Done(built) => return whole(built),
            Outcome::Fail => return Err(ExpFault::NoExpression),
        }
    }
}

/// The tree of the whole, where it isn't too deep.
fn whole(built: Built) -> Result<Exp, ExpFault>
    ensures { (s : machine.State) (e : ExpTree) → Runs s e → Shows built e → EndsAs result s }
{
    match built {
        Built::Tree(exp, _) => Ok(exp),
        Built::Deep => Err(ExpFault::TooDeep),
    }
}

/// One step over the open phrases, the newest of which is the last.
fn step<'a>(
    alloc: Global,
    stack: &mut Vec<Frame<'a>>,
    state: State<'a>,
) -> Result<Outcome<'a>, AllocError>
    ensures { (s : machine.State) → ShowsState stack.old.items state.entry s → ShowsResult stack.new.items result (machine.step s) }
{
    match state {
        State::Operand(ts) => before_operand(alloc, stack, ts),
        State::Value(phrase, indexable, built, ts) => {
            behind_phrase(alloc, stack, phrase, indexable, built, ts)
        }
    }
}

fn before_operand<'a>(
    alloc: Global,
    stack: &mut Vec<Frame<'a>>,
    ts: Terminals<'a>,
) -> Result<Outcome<'a>, AllocError>
    ensures { (fs : List machine.Frame) → ShowsStack stack.old.items fs →
        ShowsResult stack.new.items result (machine.enter fs (terminals ts.entry)) }
{
    let wanted = wanted(stack);
    let turn = enter(alloc, wanted, ts)?;
    take(stack, turn)
}

fn behind_phrase<'a>(
    alloc: Global,
    stack: &mut Vec<Frame<'a>>,
    phrase: Phrase,
    indexable: bool,
    built: Built,
    ts: Terminals<'a>,
) -> Result<Outcome<'a>, AllocError>
    ensures { (fs : List machine.Frame) (e : ExpTree) → ShowsStack stack.old.items fs → Shows built e →
        ShowsResult stack.new.items result (machine.step
        (machine.value fs (phrase_shown phrase) indexable e (terminals ts.entry))) }
{
    let wanted = wanted(stack);
    let reach = reach(ts);
    if reach < wanted {
        close_phrase(alloc, stack, built, ts)
    } else {
        extend_phrase(alloc, stack, phrase, indexable, built, ts)
    }
}

fn extend_phrase<'a>(
    alloc: Global,
    stack: &mut Vec<Frame<'a>>,
    phrase: Phrase,
    indexable: bool,
    built: Built,
    ts: Terminals<'a>,
) -> Result<Outcome<'a>, AllocError>
    ensures { (fs : List machine.Frame) (e : ExpTree) → ShowsStack stack.old.items fs → Shows built e →
        ShowsResult stack.new.items result (machine.continue fs (phrase_shown phrase) indexable e (terminals ts.entry)) }
{
    let turn = go_on(alloc, phrase, indexable, built, ts)?;
    take(stack, turn)
}

fn close_phrase<'a>(
    alloc: Global,
    stack: &mut Vec<Frame<'a>>,
    built: Built,
    ts: Terminals<'a>,
) -> Result<Outcome<'a>, AllocError>
    ensures { (fs : List machine.Frame) (e : ExpTree) → ShowsStack stack.old.items fs → Shows built e →
        ShowsResult stack.new.items result (machine.resume_last fs e (terminals ts.entry)) }
{
    match stack.pop() {
        Some(frame) => {
            let turn = resume(alloc, frame, built, ts)?;
            take(stack, turn)
        }
        None => Ok(finish(built, ts)),
    }
}

/// Where nothing is open, the whole is read if nothing is left.
fn finish<'a>(built: Built, ts: Terminals<'a>) -> Outcome<'a>
    ensures { (stack : List Frame) (e : ExpTree) → Shows built e → ShowsOutcome stack result (machine.finish e (terminals ts.entry)) }
{
    if ts.is_empty() {
        Outcome::Done(built)
    } else {
        drop(built);
        Outcome::Fail
    }
}

/// What a turn leads to.
fn take<'a>(stack: &mut Vec<Frame<'a>>, turn: Turn<'a>) -> Result<Outcome<'a>, AllocError>
    ensures { (fs : List machine.Frame) (o : machine.Outcome) → ShowsStack stack.old.items fs → ShowsTurn turn.entry fs o →
        ShowsResult stack.new.items result o }
{
    match turn {
        Turn::Open(frame, rest) => {
            stack.push(frame)?;
            Ok(Outcome::Next(State::Operand(rest)))
        }
        Turn::Found(phrase, indexable, built, rest) => {
            Ok(Outcome::Next(State::Value(phrase, indexable, built, rest)))
        }
        Turn::Fail => Ok(Outcome::Fail),
    }
}

/// The rank of the operand that the newest open phrase waits for.
fn wanted(stack: &[Frame<'_>]) -> u8
    ensures { (fs : List machine.Frame) → ShowsStack stack.now fs → result ≡ machine.wanted fs }
{
    if stack.is_empty() {
        return 1;
    }
    stack[stack.len() - 1].wants()
}
