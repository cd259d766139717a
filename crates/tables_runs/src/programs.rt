//! Programs of the core language: lines `& predicate p/1`, `& function f/1` or `& quiet p/1`, each followed by its rules
//! `& rule SLOTS : HEAD : GUARD : BODY`, with ` : VALUE` for a function. `choice` in place of `rule` leaves the later rules
//! as alternatives. A predicate of facts has its mode lists in lines `& index +-`, and then each fact: `& fact SLOTS : HEAD`.

use crate::goals::goal_of;
use pi_types::{
    CoreClause, CoreClauses, CoreGoal, CorePred, CorePreds, CoreProgram, Decl, Mode, ModeLists,
    Modes, SlotWatches, Term,
};
use std::mem;
use tables_cases::{Case, Given, Node, named, node_of, patterns_of, take_given, term_of};

/// What a line begins.
#[derive(Clone, Copy)]
enum Kind {
    Predicate,
    Function,
    Quiet,
    Index,
    Rule,
    Choice,
    Fact,
}

/// Each kind of line with its word.
const KINDS: [(&str, Kind); 7] = [
    ("predicate", Kind::Predicate),
    ("function", Kind::Function),
    ("quiet", Kind::Quiet),
    ("index", Kind::Index),
    ("rule", Kind::Rule),
    ("choice", Kind::Choice),
    ("fact", Kind::Fact),
];

/// The kind of line with a word.
fn kind_of(word: &str) -> Option<Kind> {
    named(&KINDS, word)
}

/// Predicates and functions, of which the newest one takes what follows.
#[derive(Drop)]
struct Preds {
    preds: Vec<CorePred>,
}

/// The program that a file gives for its cases.
pub fn program_of(case: &Case, text: &str) -> CoreProgram {
    let mut given = Preds {
        preds: Vec::new(case.alloc),
    };
    take_given(case, text, &mut given);
    CoreProgram {
        preds: CorePreds::from_vec(given.preds),
    }
}

impl Given for Preds {
    fn take_line(&mut self, line: &Case) {
        match kind_of(line.take_word()) {
            Some(Kind::Predicate) => self.add_pred(line, Kind::Predicate),
            Some(Kind::Function) => self.add_pred(line, Kind::Function),
            Some(Kind::Quiet) => self.add_pred(line, Kind::Quiet),
            Some(Kind::Index) => self.add_modes(line),
            Some(kind) => self.add_clause(line, kind),
            None => line.lacks("a kind of line"),
        }
    }
}

impl Preds {
    /// Adds a predicate or a function without rules yet.
    fn add_pred(&mut self, line: &Case, kind: Kind) {
        let Node::Comp(name, count) = node_of(line.take_word()) else {
            return line.lacks("the name of a predicate and the number of its arguments");
        };
        let pred = CorePred {
            name: line.name_of(name),
            arity: u32::try_from(count).unwrap_or(0),
            function: matches!(kind, Kind::Function),
            quiet: matches!(kind, Kind::Quiet),
            decl: Decl::Plain,
            clauses: CoreClauses::new(line.alloc),
        };
        line.keep(Some(pred), &mut self.preds);
    }

    /// Adds a rule or a fact to the newest predicate.
    fn add_clause(&mut self, line: &Case, kind: Kind) {
        let Some(pred) = self.preds.last_mut() else {
            return line.lacks("a predicate before its rules");
        };
        if let Some(clause) = take_clause(line, kind) {
            let added = pred.clauses.push(clause);
            line.done(added);
        }
    }

    /// Adds a mode list to the newest predicate.
    fn add_modes(&mut self, line: &Case) {
        let Some(pred) = self.preds.last_mut() else {
            return line.lacks("a predicate before its modes");
        };
        let modes = modes_of(line, line.take_word());
        let Some(mut lists) = lists_of(line, mem::replace(&mut pred.decl, Decl::Plain)) else {
            return;
        };
        let added = lists.push(modes);
        line.done(added);
        pred.decl = Decl::Index(lists);
    }
}

/// The mode list of a word of `+` and `-`.
pub(crate) fn modes_of(case: &Case, word: &str) -> Modes {
    let mut modes = Modes::new(case.alloc);
    for c in word.chars() {
        let mode = if c == '+' { Mode::Plus } else { Mode::Minus };
        let added = modes.push(mode);
        case.done(added);
    }
    modes
}

/// The mode lists of a predicate so far.
fn lists_of(line: &Case, decl: Decl) -> Option<ModeLists> {
    match decl {
        Decl::Index(lists) => Some(lists),
        _ => line.made(ModeLists::new(line.alloc)),
    }
}

/// Takes the words of a rule or a fact.
fn take_clause(line: &Case, kind: Kind) -> Option<CoreClause> {
    let slots = line.take_slot();
    line.expect(":");
    let head = take_head(line, kind);
    let guard = take_goal(line, kind)?;
    let body = take_goal(line, kind)?;
    Some(CoreClause {
        head: patterns_of(line, head),
        guard,
        back: matches!(kind, Kind::Choice),
        watches: SlotWatches::new(line.alloc),
        body,
        value: take_value(line),
        slots,
    })
}

/// Takes the words of a function's value, where there are any.
fn take_value(line: &Case) -> Option<Term> {
    match line.take_rest() {
        [] => None,
        words => term_of(line, words),
    }
}

/// Takes the words of a head, behind which a fact has nothing.
fn take_head(line: &Case, kind: Kind) -> &[String] {
    match kind {
        Kind::Fact => line.take_rest(),
        _ => line.take_until(":"),
    }
}

/// Takes the words of a goal; that of a fact is the true one.
fn take_goal(line: &Case, kind: Kind) -> Option<CoreGoal> {
    match kind {
        Kind::Fact => line.made(CoreGoal::truth(line.alloc)),
        _ => goal_of(line, line.take_until(":")),
    }
}
