//! The nodes of a clause's expressions with the places at which they stand, in the order of the text.
ghost use Rattle.std.specs.Prelude.{◌≡◌, ◌∷◌, ◌++◌, [], true, IfOk, OnOk, MatchOption, length, option_map, option_copied};
ghost use Rattle.pi_syntax.specs.ExpTree.{exp_tree};
ghost use Rattle.pi_syntax.specs.ProgramTree as tree;
ghost use Rattle.pi_syntax.specs.ProgramTree.{written_clause};
ghost use Rattle.pi_syntax.specs.ExpLists.{exps_of};
ghost use Rattle.pi_prog_clauses.specs.Places.{goal, pattern, placed, below, all_placed, arguments_placed, branches_placed, placed_if, clause_placed, head_placed};
ghost use Rattle.pi_prog_clauses.specs.Walk.{shown_place, shown_node, side_placed, nodes_ahead, held_exp, branches_of};

use crate::nodes::form::Form;
use crate::nodes::place::{Place, TEST};
use crate::nodes::row::{Row, Side};
use pi_syntax::{Clause, Exp, FunctionClause, RuleClause};
use std::alloc::{AllocError, Global};

/// A node, and where it stands.
#[derive(Clone, Copy)]
pub(crate) struct Node<'a> {
    pub(crate) place: Place,
    pub(crate) exp: &'a Exp,
}

/// A walk through nodes: a node comes before what stands in it. The last of the stack comes first.
#[derive(Drop)]
pub(crate) struct Walk<'a> {
    stack: Vec<Row<'a>>,
}

impl<'a> Walk<'a> {
    /// A walk through nothing.
    fn new(alloc: Global) -> Walk<'a>
        ensures { nodes_ahead result ≡ [] }
    {
        Walk {
            stack: Vec::new(alloc),
        }
    }

    /// A walk through what a clause evaluates.
    pub(crate) fn of_clause(alloc: Global, clause: &'a Clause) -> Result<Walk<'a>, AllocError>
        ensures { IfOk result (λ walk. nodes_ahead walk ≡ clause_placed (written_clause clause.now)) }
    {
        let mut walk = Walk::new(alloc);
        walk.push_clause(clause)?;
        Ok(walk)
    }

    /// A walk through a goal.
    pub(crate) fn of_goal(alloc: Global, query: &'a Exp) -> Result<Walk<'a>, AllocError>
        ensures { IfOk result (λ walk. nodes_ahead walk ≡ placed (goal true) (exp_tree query.now)) }
    {
        let mut walk = Walk::new(alloc);
        walk.push(Place::Goal { assigns: true }, query)?;
        Ok(walk)
    }

    /// A walk through the arguments of a head.
    pub(crate) fn of_head(alloc: Global, head: &'a Exp) -> Result<Walk<'a>, AllocError>
        ensures { IfOk result (λ walk. nodes_ahead walk ≡ head_placed (exp_tree head.now)) }
    {
        let mut walk = Walk::new(alloc);
        match Form::of(head) {
            Form::Call { args, .. } => {
                walk.push_all(Place::Pattern { quoted: false }, args)?;
                Ok(walk)
            }
            _ => Ok(walk),
        }
    }

    /// The first node ahead, of which the others stay ahead.
    pub(crate) fn next(&mut self) -> Result<Option<Node<'a>>, AllocError>
        ensures { IfOk result (λ next. MatchOption next (nodes_ahead self.old ≡ [])
            (λ node. nodes_ahead self.old ≡ shown_node node ∷ nodes_ahead self.new)) }
    {
        let Some(row) = self.stack.pop() else {
            return Ok(None);
        };
        let place = row.place();
        self.push_row(row.side, row.others)?;
        self.push_below(place, row.first)?;
        Ok(Some(Node {
            place,
            exp: row.first,
        }))
    }

    /// Puts what a clause evaluates before the nodes ahead. Where memory runs out the rest is tried all the same.
    fn push_clause(&mut self, clause: &'a Clause) -> Result<(), AllocError>
        ensures { OnOk result (nodes_ahead self.new ≡ clause_placed (written_clause clause.now) ++ nodes_ahead self.old) }
    {
        match clause {
            Clause::Rule(rule) => self.push_rule(rule),
            Clause::Function(function) => self.push_function(function),
            Clause::Fact { .. } => Ok(()),
        }
    }

    fn push_rule(&mut self, rule: &'a RuleClause) -> Result<(), AllocError>
        ensures { OnOk result (nodes_ahead self.new ≡ clause_placed (tree.rule (tree.rule_tree rule.now)) ++ nodes_ahead self.old) }
    {
        self.push(Place::Goal { assigns: true }, &rule.body)
            .and(self.push_optional(TEST, rule.cond()))
    }

    fn push_function(&mut self, function: &'a FunctionClause) -> Result<(), AllocError>
        ensures { OnOk result (nodes_ahead self.new ≡
            clause_placed (tree.function (tree.function_tree function.now)) ++ nodes_ahead self.old) }
    {
        self.push_optional(Place::Goal { assigns: true }, function.body())
            .and(self.push_optional(TEST, function.cond()))
            .and(self.push(Place::Expression, &function.value))
    }

    /// Puts an expression before the nodes ahead.
    fn push(&mut self, place: Place, exp: &'a Exp) -> Result<(), AllocError>
        ensures { OnOk result (nodes_ahead self.new ≡ placed (shown_place place) (exp_tree exp.now) ++ nodes_ahead self.old) }
    {
        self.stack.push(Row {
            side: Side::Alike(place),
            first: exp,
            others: &[],
        })?;
        Ok(())
    }

    /// Puts expressions that stand side by side before the nodes ahead.
    fn push_row(&mut self, side: Side<'a>, exps: &'a [Exp]) -> Result<(), AllocError>
        ensures { OnOk result (nodes_ahead self.new ≡ side_placed side.entry (exps_of exps.now) ++ nodes_ahead self.old) }
    {
        let Some((first, others)) = exps.split_first() else {
            return Ok(());
        };
        self.stack.push(Row {
            side,
            first,
            others,
        })?;
        Ok(())
    }

    fn push_optional(&mut self, place: Place, exp: Option<&'a Exp>) -> Result<(), AllocError>
        ensures { OnOk result (nodes_ahead self.new ≡
            placed_if (shown_place place) (option_map exp_tree (option_copied exp.entry)) ++ nodes_ahead self.old) }
    {
        match exp {
            Some(exp) => self.push(place, exp),
            None => Ok(()),
        }
    }

    fn push_held(&mut self, place: Place, exp: &'a Option<Box<Exp>>) -> Result<(), AllocError>
        ensures { OnOk result (nodes_ahead self.new ≡ placed_if (shown_place place) (held_exp exp.now) ++ nodes_ahead self.old) }
    {
        match exp {
            Some(exp) => self.push(place, exp),
            None => Ok(()),
        }
    }

    fn push_all(&mut self, place: Place, exps: &'a [Exp]) -> Result<(), AllocError>
        ensures { OnOk result (nodes_ahead self.new ≡ all_placed (shown_place place) (exps_of exps.now) ++ nodes_ahead self.old) }
    {
        self.push_row(Side::Alike(place), exps)
    }

    fn push_arguments(
        &mut self,
        place: Place,
        name: &'a str,
        args: &'a [Exp],
    ) -> Result<(), AllocError>
        ensures { OnOk result (nodes_ahead self.new ≡
            arguments_placed (shown_place place) name.now (length args.now) 0 (exps_of args.now) ++ nodes_ahead self.old) }
    {
        let arity = args.len();
        let side = Side::Arguments { place, name, arity };
        self.push_row(side, args)
    }

    fn push_branches(&mut self, place: Place, branches: &'a [(Exp, Exp)]) -> Result<(), AllocError>
        ensures { OnOk result (nodes_ahead self.new ≡
            branches_placed (shown_place place) (branches_of branches.now) ++ nodes_ahead self.old) }
    {
        for i in (0..branches.len()).rev() {
            let branch = &branches[i];
            self.push(place.body(), &branch.1)?;
            self.push(TEST, &branch.0)?;
        }
        Ok(())
    }

    /// Puts what stands in an expression before the nodes ahead. Where memory runs out the rest is tried all the same.
    fn push_below(&mut self, place: Place, exp: &'a Exp) -> Result<(), AllocError>
        ensures { OnOk result (nodes_ahead self.new ≡ below (shown_place place) (exp_tree exp.now) ++ nodes_ahead self.old) }
    {
        let inside = place.inside();
        let body = place.body();
        match exp {
            Exp::Var(_) => Ok(()),
            Exp::Int(_) => Ok(()),
            Exp::Atom(_) => Ok(()),
            Exp::Str(_) => Ok(()),
            Exp::List(items, tail) => self
                .push_held(inside, tail)
                .and(self.push_all(inside, items.as_slice())),
            Exp::Array(items) => self.push_all(inside, items.as_slice()),
            Exp::Call(name, args) => self.push_arguments(place, name.as_str(), args.as_slice()),
            Exp::Quote(term) => self.push(place.quoted(), term),
            Exp::Index(of, indexes) => self
                .push_all(inside, indexes.as_slice())
                .and(self.push(inside, of)),
            Exp::Range(first, step, last) => self
                .push(inside, last)
                .and(self.push_held(inside, step))
                .and(self.push(inside, first)),
            Exp::At(_, bound) => self.push(inside, bound),
            Exp::Collect(_, item, iterators) => self
                .push_all(Place::Iterator, iterators.as_slice())
                .and(self.push(inside, item)),
            Exp::And(goals) => self.push_all(body, goals.as_slice()),
            Exp::Or(goals) => self.push_all(body, goals.as_slice()),
            Exp::Arrow(test, then) => self.push(body, then).and(self.push(TEST, test)),
            Exp::If(branches, last) => self
                .push_held(body, last)
                .and(self.push_branches(place, branches.as_slice())),
            Exp::Foreach(iterators, goal) => self
                .push(body, goal)
                .and(self.push_all(Place::Iterator, iterators.as_slice())),
            Exp::While(test, goal) => self.push(body, goal).and(self.push(TEST, test)),
            Exp::DoWhile(goal, test) => self.push(TEST, test).and(self.push(body, goal)),
        }
    }
}
