//! The lines of an answer.
ghost use Rattle.std.specs.Prelude.{◌≡◌, ◌++◌, ◌∷◌, [], map, true, IfOk, option_copied};
ghost use Rattle.std.specs.String.{string_bytes};
ghost use Rattle.pi_core.specs.AnswerVariables.{answer_variables};
ghost use Rattle.pi_print_terms.specs.PrintAnswer as spec;
ghost use Rattle.pi_print_terms.specs.Answers.{HasDomains};

use crate::Lines;
use crate::numbers::meet_term;
use crate::printer::Printer;
use pi_constraints::{Domain, Span, VarDomain};
use pi_core::{Answer, NamedTerm};
use pi_terms::{Numbers, Text};
use std::alloc::{AllocError, Global};
use std::collections::HashMap;

/// The lines of an answer: `Name = T` for each named variable, with T in quoted form; then `_k :: D` for each variable in
/// them that has a domain, where D lists its ranges; then `yes`.
#[tactic(auto, unfolding(crate::specs::PrintAnswer::answer_lines))]
pub fn answer_text(alloc: Global, a: &Answer) -> Result<Lines, AllocError>
    ensures ok { IfOk result (λ lines. lines ≡ spec.answer_lines a.now) }
{
    let values = a.values.as_slice();
    let printer = Printer {
        alloc,
        is_quoted: true,
        numbers: numbers_of(alloc, values)?,
    };
    let mut lines = Lines::new(alloc);
    write_values(&printer, values, &mut lines)?;
    write_domains(&printer, a.domains.as_slice(), &mut lines)?;
    lines.push(Text::new(alloc, "yes\n")?)?;
    Ok(lines)
}

/// The numbers of the variables in the values.
fn numbers_of(alloc: Global, values: &[NamedTerm]) -> Result<Numbers, AllocError>
    ensures ok { IfOk result (λ numbers. numbers ≡ answer_variables values.now) }
{
    let mut numbers = Numbers::new(alloc);
    for named in values {
        meet_term(&mut numbers, &named.value)?;
    }
    Ok(numbers)
}

fn write_values(
    printer: &Printer,
    values: &[NamedTerm],
    lines: &mut Lines,
) -> Result<(), AllocError>
    requires { printer.now.is_quoted ≡ true }
    ensures ok { IfOk result (λ _. lines.new ≡ lines.old ++ map (spec.value_line printer.now.numbers) values.now) }
{
    for named in values {
        lines.push(value_line(printer, named)?)?;
    }
    Ok(())
}

/// The line of a named variable.
fn value_line(printer: &Printer, named: &NamedTerm) -> Result<Text, AllocError>
    requires { printer.now.is_quoted ≡ true }
    ensures ok { IfOk result (λ line. line ≡ spec.value_line printer.now.numbers named.now) }
{
    let mut line = String::from_str(printer.alloc, named.name.as_str())?;
    line.push_str(" = ")?;
    printer.term(&named.value, &mut line)?;
    line.push('\n')?;
    Text::from_string(printer.alloc, line)
}

fn write_domains(
    printer: &Printer,
    domains: &[VarDomain],
    lines: &mut Lines,
) -> Result<(), AllocError>
    ensures ok { IfOk result (λ _. lines.new ≡ lines.old ++ spec.domain_lines printer.now.numbers domains.now) }
{
    let by_var = domains_by_var(printer.alloc, domains)?;
    for var in printer.numbers.as_slice() {
        write_domain(printer, *var, by_var.get(var).copied(), lines)?;
    }
    Ok(())
}

fn write_domain(
    printer: &Printer,
    var: u64,
    domain: Option<&Domain>,
    lines: &mut Lines,
) -> Result<(), AllocError>
    ensures ok { IfOk result (λ _. lines.new ≡ lines.old ++ spec.domain_line_if printer.now.numbers var (option_copied domain.entry)) }
{
    if let Some(domain) = domain {
        lines.push(domain_line(printer, var, domain)?)?;
    }
    Ok(())
}

/// The domains by their variables. Where two are of one variable, the first counts.
fn domains_by_var(alloc: Global, domains: &[VarDomain]) -> Result<HashMap<u64, &Domain>, AllocError>
    ensures ok { IfOk result (λ by_var. HasDomains domains.now by_var) }
{
    let mut by_var = HashMap::new(alloc);
    for at in (0..domains.len()).rev() {
        let VarDomain { var, domain } = &domains[at];
        by_var.insert(*var, domain)?;
    }
    Ok(by_var)
}

/// The line of a variable's domain.
fn domain_line(printer: &Printer, var: u64, domain: &Domain) -> Result<Text, AllocError>
    ensures ok { IfOk result (λ line. line ≡ spec.domain_line printer.now.numbers var domain.now) }
{
    let mut line = String::new(printer.alloc);
    printer.var(var, &mut line)?;
    line.push_str(" :: ")?;
    write_spans(domain.spans(), &mut line)?;
    line.push('\n')?;
    Text::from_string(printer.alloc, line)
}

fn write_spans(spans: &[Span], line: &mut String) -> Result<(), AllocError>
    ensures ok { IfOk result (λ _. string_bytes line.new ≡ string_bytes line.old ++ spec.spans_text spans.now) }
{
    let Some((first, rest)) = spans.split_first() else {
        return Ok(());
    };
    write_span(*first, line)?;
    for span in rest {
        line.push(',')?;
        write_span(*span, line)?;
    }
    Ok(())
}

fn write_span(span: Span, line: &mut String) -> Result<(), AllocError>
    ensures ok { IfOk result (λ _. string_bytes line.new ≡ string_bytes line.old ++ spec.span_text span) }
{
    let Span { lo, hi } = span;
    write!(line, "{lo}")?;
    if hi > lo {
        write!(line, "..{hi}")?;
    }
    Ok(())
}
