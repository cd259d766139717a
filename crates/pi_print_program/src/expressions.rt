//! Expressions. At most 1,000 levels of them are read, so their writers call each other.
ghost use Rattle.std.specs.Prelude.{◌≡◌, ◌++◌, false, codes, IfOk, MatchOption, if◌then◌else◌};
ghost use Rattle.std.specs.String.{string_bytes};
ghost use Rattle.pi_syntax.specs.ExpTree.{exp_tree, call, quote, and};
ghost use Rattle.pi_syntax.specs.ExpLists.{exps_of};
ghost use Rattle.pi_print_program.specs.Branches.{branches_in};
ghost use Rattle.pi_print_program.specs.CanonicalExp.{exp_text, exp_texts, choice_texts, is_structure, is_conjunction, top_text};
ghost use Rattle.pi_print_program.specs.Texts.{between, parted, comma, spaced};

use crate::signs::{is_prefix_sign, is_prefix_word, is_two_place};
use crate::texts::{write_integer, write_name, write_string};
use pi_syntax::Exp;
use std::alloc::{AllocError, Global};

/// Writes an expression at the top of a clause's body or condition, where conjuncts stand as they are.
pub(crate) fn write_top(alloc: Global, exp: &Exp, out: &mut String) -> Result<(), AllocError>
    ensures { IfOk result (λ _. string_bytes out.new ≡ string_bytes out.old ++ top_text (exp_tree exp.now)) }
{
    match conjuncts_of(exp) {
        Some(conjuncts) => write_exps(alloc, ", ", conjuncts, out),
        None => write_exp(alloc, exp, out),
    }
}

/// The conjuncts of a conjunction.
#[tactic(auto, unfolding(pi_syntax::specs::ExpTree::exp_tree))]
fn conjuncts_of(exp: &Exp) -> Option<&[Exp]>
    ensures { MatchOption result (is_conjunction (exp_tree exp.now) ≡ false) (λ es. exp_tree exp.now ≡ and (exps_of es.now)) }
{
    match exp {
        Exp::And(conjuncts) => Some(conjuncts.as_slice()),
        _ => None,
    }
}

/// Writes an expression.
#[cycle(exp)]
pub(crate) fn write_exp(alloc: Global, exp: &Exp, out: &mut String) -> Result<(), AllocError>
    ensures { IfOk result (λ _. string_bytes out.new ≡ string_bytes out.old ++ exp_text (exp_tree exp.now)) }
{
    match exp {
        Exp::Var(name) => {
            out.push_str(name.as_str())?;
            Ok(())
        }
        Exp::Int(n) => write_integer(n.value(), out),
        Exp::Atom(name) => write_name(alloc, name.as_str(), out),
        Exp::Str(text) => write_string(alloc, text.as_str(), out),
        Exp::List(items, tail) => match tail {
            Some(tail) => {
                write_between(alloc, "[", ", ", items.as_slice(), " | ", out)?;
                write_around(alloc, "", tail, "]", out)
            }
            None => write_between(alloc, "[", ", ", items.as_slice(), "]", out),
        },
        Exp::Array(items) => write_between(alloc, "{", ", ", items.as_slice(), "}", out),
        Exp::Call(name, args) => write_call(alloc, name.as_str(), args.as_slice(), out),
        Exp::Quote(inner) => write_quote(alloc, inner, out),
        Exp::Index(of, places) => {
            write_exp(alloc, of, out)?;
            write_between(alloc, "[", ", ", places.as_slice(), "]", out)
        }
        Exp::Range(first, step, last) => match step {
            Some(step) => {
                write_around(alloc, "(", first, " .. ", out)?;
                write_around(alloc, "", step, " .. ", out)?;
                write_around(alloc, "", last, ")", out)
            }
            None => {
                write_around(alloc, "(", first, " .. ", out)?;
                write_around(alloc, "", last, ")", out)
            }
        },
        Exp::At(name, pattern) => {
            out.push_str(name.as_str())?;
            write_around(alloc, "@", pattern, "", out)
        }
        Exp::Collect(is_array, item, iterators) => {
            write_around(alloc, opening(*is_array), item, " : ", out)?;
            write_between(
                alloc,
                "",
                ", ",
                iterators.as_slice(),
                closing(*is_array),
                out,
            )
        }
        Exp::And(goals) => write_between(alloc, "(", ", ", goals.as_slice(), ")", out),
        Exp::Or(branches) => write_between(alloc, "(", " ; ", branches.as_slice(), ")", out),
        Exp::Arrow(test, body) => {
            write_around(alloc, "", test, " -> ", out)?;
            write_exp(alloc, body, out)
        }
        Exp::If(branches, last) => match last {
            Some(last) => {
                write_choices(alloc, branches.as_slice(), " else ", out)?;
                write_around(alloc, "", last, " end", out)
            }
            None => write_choices(alloc, branches.as_slice(), " end", out),
        },
        Exp::Foreach(iterators, body) => {
            write_between(alloc, "foreach(", ", ", iterators.as_slice(), ") ", out)?;
            write_around(alloc, "", body, " end", out)
        }
        Exp::While(test, body) => {
            write_around(alloc, "while (", test, ") ", out)?;
            write_around(alloc, "", body, " end", out)
        }
        Exp::DoWhile(body, test) => {
            write_around(alloc, "do ", body, " while (", out)?;
            write_around(alloc, "", test, ")", out)
        }
    }
}

/// The bracket that opens a comprehension.
fn opening(is_array: bool) -> &'static str
    ensures { result.now ≡ (if is_array then codes "{" else codes "[") }
{
    if is_array { "{" } else { "[" }
}

/// The bracket that closes it.
fn closing(is_array: bool) -> &'static str
    ensures { result.now ≡ (if is_array then codes "}" else codes "]") }
{
    if is_array { "}" } else { "]" }
}

/// Writes expressions, with a text between each two.
#[cycle(exp)]
pub(crate) fn write_exps(
    alloc: Global,
    parting: &str,
    exps: &[Exp],
    out: &mut String,
) -> Result<(), AllocError>
    ensures { IfOk result (λ _. string_bytes out.new ≡ string_bytes out.old ++ parted parting.now (exp_texts (exps_of exps.now))) }
{
    let mut before = "";
    for exp in exps {
        out.push_str(before)?;
        write_exp(alloc, exp, out)?;
        before = parting;
    }
    Ok(())
}

/// Writes conditions with their bodies, behind `if`, and what follows them.
#[cycle(exp)]
fn write_choices(
    alloc: Global,
    branches: &[(Exp, Exp)],
    right: &str,
    out: &mut String,
) -> Result<(), AllocError>
    ensures { IfOk result (λ _. string_bytes out.new ≡
        string_bytes out.old ++ between (codes "if ")
        (parted (codes " elseif ") (choice_texts (branches_in branches.now))) right.now) }
{
    out.push_str("if ")?;
    let mut before = "";
    for branch in branches {
        out.push_str(before)?;
        write_around(alloc, "", &branch.0, " then ", out)?;
        write_exp(alloc, &branch.1, out)?;
        before = " elseif ";
    }
    out.push_str(right)?;
    Ok(())
}

/// Writes expressions between two brackets.
#[cycle(exp)]
fn write_between(
    alloc: Global,
    left: &str,
    parting: &str,
    exps: &[Exp],
    right: &str,
    out: &mut String,
) -> Result<(), AllocError>
    ensures { IfOk result (λ _. string_bytes out.new ≡
        string_bytes out.old ++ between left.now (parted parting.now (exp_texts (exps_of exps.now))) right.now) }
{
    out.push_str(left)?;
    write_exps(alloc, parting, exps, out)?;
    out.push_str(right)?;
    Ok(())
}

/// Writes an expression between two texts.
#[cycle(exp)]
fn write_around(
    alloc: Global,
    left: &str,
    exp: &Exp,
    right: &str,
    out: &mut String,
) -> Result<(), AllocError>
    ensures { IfOk result (λ _. string_bytes out.new ≡ string_bytes out.old ++ between left.now (exp_text (exp_tree exp.now)) right.now) }
{
    out.push_str(left)?;
    write_exp(alloc, exp, out)?;
    out.push_str(right)?;
    Ok(())
}

/// Writes a call: a sign with its operands, or a name with its arguments.
#[cycle(exp)]
fn write_call(alloc: Global, name: &str, args: &[Exp], out: &mut String) -> Result<(), AllocError>
    ensures { IfOk result (λ _. string_bytes out.new ≡ string_bytes out.old ++ exp_text (call name.now (exps_of args.now))) }
{
    let count = args.len();
    if is_two_place(name, count) {
        let parting = spaced_sign(alloc, name)?;
        return write_between(alloc, "(", parting.as_str(), args, ")", out);
    }
    if is_prefix_word(name, count) {
        out.push_str("(")?;
        out.push_str(name)?;
        return write_between(alloc, " (", ", ", args, "))", out);
    }
    if is_prefix_sign(name, count) {
        out.push_str("(")?;
        out.push_str(name)?;
        return write_between(alloc, "(", ", ", args, "))", out);
    }
    write_name(alloc, name, out)?;
    write_between(alloc, "(", ", ", args, ")", out)
}

/// A sign with a blank at each side.
fn spaced_sign(alloc: Global, name: &str) -> Result<String, AllocError>
    ensures { IfOk result (λ text. string_bytes text ≡ spaced name.now) }
{
    format!(in alloc; " {name} ")
}

/// Writes what stands behind `$`.
#[cycle(exp)]
fn write_quote(alloc: Global, inner: &Exp, out: &mut String) -> Result<(), AllocError>
    ensures { IfOk result (λ _. string_bytes out.new ≡ string_bytes out.old ++ exp_text (quote (exp_tree inner.now))) }
{
    out.push_str("$")?;
    if is_structure_of(inner) {
        return write_exp(alloc, inner, out);
    }
    out.push_str("(")?;
    write_exp(alloc, inner, out)?;
    out.push_str(")")?;
    Ok(())
}

/// Whether an expression is a call of a name, and of no sign.
#[tactic(auto, unfolding(pi_syntax::specs::ExpTree::exp_tree))]
fn is_structure_of(exp: &Exp) -> bool
    ensures { result ≡ is_structure (exp_tree exp.now) }
{
    let Exp::Call(name, args) = exp else {
        return false;
    };
    let name = name.as_str();
    let count = args.len();
    !(is_two_place(name, count) | (is_prefix_word(name, count) | is_prefix_sign(name, count)))
}
