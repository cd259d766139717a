//! Formats that are filled in: `printf`.
ghost use Rattle.std.specs.Prelude.{◌≡◌, ◌≢◌, ◌≤◌, ◌∷◌, List, false, option_copied, IfOk};
ghost use Rattle.std.specs.String.{string_bytes};
ghost use Rattle.pi_terms.specs.Tree.{Tree, Trees};
ghost use Rattle.pi_constraints.specs.Value.{value};
ghost use Rattle.pi_constraints.specs.State.{bindings};
ghost use Rattle.pi_constraints.specs.Store.{IsTerm, AreTerms};
ghost use Rattle.pi_unify.specs.Terms.{HoldsNoCycle};
ghost use Rattle.pi_effects.specs.Exception.{bad_format};
ghost use Rattle.pi_effects.specs.Items.{each_tree};
ghost use Rattle.pi_effects.specs.Format as spec;
ghost use Rattle.pi_effects.specs.Results.{ShowsSame};
ghost use Rattle.pi_lib.specs.Signs.{form_of, piece_of};
ghost use Rattle.pi_lib.specs.Filling.{IsNext, how_many, FillsPiece, gap};

use crate::characters::text_argument;
use crate::signs::{Form, Sign, sign_behind};
use crate::texts::text_at;
use pi_constraints::{Cell, Ref, StateStore};
use pi_effects::{Fault, Stop};
use pi_terms::Text;
use std::alloc::Global;

/// `printf(F,..)`: the text of a format in which `%w`, `%d` and `%s` stand for a term in plain form, for an integer and for a
/// text, `%n` for a line feed and `%%` for a `%`. The first fault from the left is told: a sign that is none, one without an
/// argument or with one of another kind, an argument behind the last sign raise `bad_format`, a term past 16,777,216 cells
/// `term_too_large`. A User's Guide to Picat, 'Input and Output'; which signs there are, and what is raised, is own.
pub fn printf<S: StateStore>(alloc: Global, s: &S, format: Ref, args: &[Ref]) -> Result<Text, Stop>
    ensures { (t : Tree) (ts : Trees) → HoldsNoCycle (S.seen s.now) → IsTerm (S.seen s.now) format t →
        AreTerms (S.seen s.now) args.now ts → ShowsSame (S.seen s.now) result
        (spec.formatted (S.seen s.now).now.state t (each_tree ts)) }
{
    let text = text_argument(alloc, s, format, format)?;
    fill(alloc, s, format, text.as_str(), args)
}

/// A format's text with its signs filled in, from the left.
fn fill<S: StateStore>(
    alloc: Global,
    s: &S,
    format: Ref,
    text: &str,
    args: &[Ref],
) -> Result<Text, Stop>
    ensures { (t : Tree) (ts : Trees) → HoldsNoCycle (S.seen s.now) → IsTerm (S.seen s.now) format t →
        AreTerms (S.seen s.now) args.now ts → ShowsSame (S.seen s.now) result
        (spec.filled_in (S.seen s.now).now.state (bad_format t (S.seen s.now).now.state) (spec.pieces text.now false)
        (each_tree ts)) }
{
    let mut out = String::new(alloc);
    let mut rest = text;
    let mut taken = 0;
    while let Some((plain, behind)) = rest.split_once('%') {
        out.push_str(plain)?;
        let mut letters = behind.chars();
        let sign = sign_behind(letters.next());
        taken += write_sign(alloc, s, format, sign, args.get(taken), &mut out)?;
        rest = letters.as_str();
    }
    if taken < args.len() {
        return Err(Stop::Raised(Fault::BadFormat(format)));
    }
    out.push_str(rest)?;
    let made = Text::from_string(alloc, out)?;
    Ok(made)
}

/// Writes what a sign stands for, and answers how many arguments it takes.
fn write_sign<S: StateStore>(
    alloc: Global,
    s: &S,
    format: Ref,
    sign: Sign,
    argument: Option<&Ref>,
    out: &mut String,
) -> Result<usize, Stop>
    ensures known { IfOk result (λ _. piece_of sign ≢ spec.no_sign) }
    ensures few { IfOk result (λ n. n ≤ how_many argument.entry) }
    ensures fills { (t : Tree) (us : List Tree) → HoldsNoCycle (S.seen s.now) → IsTerm (S.seen s.now) format t →
        IsNext (S.seen s.now) (option_copied argument.entry) us →
        FillsPiece (S.seen s.now) (gap (bad_format t (S.seen s.now).now.state) (piece_of sign) us) (string_bytes out.old)
        (string_bytes out.new) result }
{
    match sign {
        Sign::Argument(form) => {
            let Some(argument) = argument else {
                return Err(Stop::Raised(Fault::BadFormat(format)));
            };
            let text = argument_text(alloc, s, format, form, *argument)?;
            out.push_str(text.as_str())?;
            Ok(1)
        }
        Sign::LineFeed => {
            out.push('\n')?;
            Ok(0)
        }
        Sign::Percent => {
            out.push('%')?;
            Ok(0)
        }
        Sign::Unknown => Err(Stop::Raised(Fault::BadFormat(format))),
    }
}

/// The text of an argument.
fn argument_text<S: StateStore>(
    alloc: Global,
    s: &S,
    format: Ref,
    form: Form,
    argument: Ref,
) -> Result<Text, Stop>
    ensures { (t u : Tree) → HoldsNoCycle (S.seen s.now) → IsTerm (S.seen s.now) argument t →
        IsTerm (S.seen s.now) format u → ShowsSame (S.seen s.now) result
        (spec.argument_text (form_of form) (bad_format u (S.seen s.now).now.state) (value (bindings (S.seen s.now).now.state) t)) }
{
    match form {
        Form::Term => text_at(alloc, s, argument, false),
        Form::Integer => integer_text(alloc, s, argument, format),
        Form::Text => text_argument(alloc, s, argument, format),
    }
}

/// The decimal of an integer.
fn integer_text<S: StateStore>(
    alloc: Global,
    s: &S,
    argument: Ref,
    format: Ref,
) -> Result<Text, Stop>
    ensures { (t u : Tree) → HoldsNoCycle (S.seen s.now) → IsTerm (S.seen s.now) argument t →
        IsTerm (S.seen s.now) format u → ShowsSame (S.seen s.now) result
        (spec.argument_text spec.an_integer (bad_format u (S.seen s.now).now.state) (value (bindings (S.seen s.now).now.state) t)) }
{
    let Cell::Int(n) = s.look(argument) else {
        return Err(Stop::Raised(Fault::BadFormat(format)));
    };
    let mut text = String::new(alloc);
    write!(text, "{n}")?;
    let made = Text::from_string(alloc, text)?;
    Ok(made)
}
