//! Programs and goals in the core language, without the prelude's predicates: `program HEAD => BODY ; HEAD ?=> BODY ..` and
//! `goal BODY`. A fact is `fact : HEAD`, the first of a predicate with its mode lists: `fact +- -+ : HEAD`.

use crate::expressions::expression_of;
use crate::goals::tell_goal;
use crate::programs::modes_of;
use pi_rewrite::{LowerFault, lower, lower_goal};
use pi_types::{
    Between, Clause, CoreClause, CorePred, CorePreds, CoreProgram, CoreQuery, Decl, Goal, Mode,
    ModeLists, Part, Parts, Program, RuleClause,
};
use tables_cases::{Case, Problem, tell_flat};

/// Tells what a program or a goal is in the core language.
pub fn answer(case: &Case) {
    match case.take_word() {
        "program" => tell_program(case),
        "goal" => tell_query(case),
        _ => case.lacks("a program or a goal"),
    }
}

fn tell_program(case: &Case) {
    let mut parts = Parts::new(case.alloc);
    for _ in 0..case.steps() {
        if let Some(part) = take_part(case) {
            let added = parts.push(part);
            case.done(added);
        }
        case.take_step_end();
    }
    let before = prelude_preds(case);
    match lower(case.alloc, &Program { parts }) {
        Ok(core) => tell_preds(core.preds.as_slice(), before, case),
        Err(fault) => tell_fault(fault, case),
    }
}

/// How many predicates the prelude has, which stand before those of a program.
fn prelude_preds(case: &Case) -> usize {
    let none = Program {
        parts: Parts::new(case.alloc),
    };
    match lower(case.alloc, &none) {
        Ok(core) => core.preds.len(),
        Err(fault) => {
            tell_fault(fault, case);
            0
        }
    }
}

/// Takes a part: a fact or a rule.
fn take_part(case: &Case) -> Option<Part> {
    if case.skip("fact") {
        take_fact(case)
    } else {
        take_rule(case)
    }
}

/// What words of mode lists declare.
fn decl_of(case: &Case, words: &[String]) -> Decl {
    if words.is_empty() {
        return Decl::Plain;
    }
    let Some(mut lists) = case.made(ModeLists::new(case.alloc)) else {
        return Decl::Plain;
    };
    for word in words {
        let added = lists.push(modes_of(case, word.as_str()));
        case.done(added);
    }
    Decl::Index(lists)
}

/// Takes the part that is a fact, behind its mode lists.
fn take_fact(case: &Case) -> Option<Part> {
    let modes = case.take_until(":");
    let head = expression_of(case, case.take_rest())?;
    let head = case.made(Box::new(case.alloc, head))?;
    Some(Part {
        clause: Some(Clause::Fact { head }),
        decl: decl_of(case, modes),
    })
}

/// Takes the part that is a rule, by its head and its body.
fn take_rule(case: &Case) -> Option<Part> {
    let back = case.finds("?=>");
    let head = case.take_until(if back { "?=>" } else { "=>" });
    let head = expression_of(case, head)?;
    let Some(body) = expression_of(case, case.take_rest()) else {
        drop(head);
        return None;
    };
    let rule = Box::new(
        case.alloc,
        RuleClause {
            head,
            between: Between::Nothing,
            back,
            body,
        },
    );
    Some(Part {
        clause: Some(Clause::Rule(case.made(rule)?)),
        decl: Decl::Plain,
    })
}

/// Tells predicates behind so many: their names, the numbers of their arguments, and their clauses.
fn tell_preds(preds: &[CorePred], before: usize, case: &Case) {
    for (i, pred) in preds.iter().enumerate() {
        if i < before {
            continue;
        }
        case.tell_between(i - before, " ; ");
        case.tell_called(pred.name.as_str(), pred.arity as usize);
        case.tell(":");
        tell_modes(&pred.decl, case);
        for clause in pred.clauses.as_slice() {
            tell_clause(clause, case);
        }
    }
}

/// Tells the mode lists of a predicate of facts.
fn tell_modes(decl: &Decl, case: &Case) {
    let Decl::Index(lists) = decl else {
        return;
    };
    for modes in lists.as_slice() {
        case.tell(" ");
        for mode in modes.as_slice() {
            case.tell(match mode {
                Mode::Plus => "+",
                Mode::Minus => "-",
            });
        }
    }
}

/// Tells a clause as it stands in the rules of runs.
fn tell_clause(clause: &CoreClause, case: &Case) {
    case.tell(if clause.back { " (choice " } else { " (rule " });
    case.tell_number(u64::from(clause.slots));
    case.tell(" :");
    for pattern in &clause.head {
        case.tell(" ");
        tell_flat(pattern, case);
    }
    case.tell(" : ");
    tell_goal(&clause.guard, case);
    case.tell(" : ");
    tell_goal(&clause.body, case);
    case.tell(")");
}

fn tell_query(case: &Case) {
    let Some(body) = expression_of(case, case.take_rest()) else {
        return;
    };
    let goal = Goal { body };
    let core = CoreProgram {
        preds: CorePreds::new(case.alloc),
    };
    let lowered = lower_goal(case.alloc, &goal, &core);
    drop(goal);
    match lowered {
        Ok(query) => tell_lowered(&query, case),
        Err(fault) => tell_fault(fault, case),
    }
}

/// Tells the slots of a query, those with names, and its goal.
fn tell_lowered(query: &CoreQuery, case: &Case) {
    case.tell_number(u64::from(query.slots));
    case.tell(" slots,");
    for named in query.names.as_slice() {
        case.tell(" ");
        case.tell(named.name.as_str());
        case.tell("=");
        case.tell_number(u64::from(named.slot));
    }
    case.tell(" : ");
    tell_goal(&query.goal, case);
}

/// Tells that a part isn't built.
fn tell_fault(fault: LowerFault, case: &Case) {
    match fault {
        LowerFault::NotBuilt { number } => {
            case.tell("NotBuilt ");
            case.tell_number(number);
        }
        LowerFault::Memory => case.fail(Problem::Memory),
    }
}
