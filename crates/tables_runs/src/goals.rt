//! Goals of the core language, in words in prefix order: `ALL/2 CALL:p/1 4 APPLY:3:f/1 4`.

ghost use Rattle.std.specs.Prelude.{◌≡◌};
ghost use Rattle.pi_core.specs.GoalTree.{child_goals};

use pi_types::{CoreGoal, GoalNode, Term};
use tables_cases::{Case, Node, named, node_of, push_term};

/// What a word of a goal begins with.
#[derive(Clone, Copy)]
enum Kind {
    True,
    Fail,
    Tick,
    Call,
    /// A call that has a word of its own, and what it calls.
    Calls(&'static str),
    Apply,
    If,
    Catch,
    Around(Around),
}

/// What stands around one goal.
#[derive(Clone, Copy)]
enum Around {
    Not,
    Once,
    /// The slot that is collected and the one that takes the list, `0:1`.
    Collect,
    /// The slot that takes the number, `0`.
    Count,
}

/// Each kind with its word.
const KINDS: [(&str, Kind); 13] = [
    ("TRUE", Kind::True),
    ("FAIL", Kind::Fail),
    ("TICK", Kind::Tick),
    ("CALL", Kind::Call),
    ("IS", Kind::Calls("=/2")),
    ("THROW", Kind::Calls("throw/1")),
    ("APPLY", Kind::Apply),
    ("IF", Kind::If),
    ("CATCH", Kind::Catch),
    ("NOT", Kind::Around(Around::Not)),
    ("ONCE", Kind::Around(Around::Once)),
    ("COLLECT", Kind::Around(Around::Collect)),
    ("COUNT", Kind::Around(Around::Count)),
];

/// The kind with a word.
fn kind_of(word: &str) -> Option<Kind> {
    named(&KINDS, word)
}

/// Tells what a goal shows: how many nodes it has, the nodes of its child goals, and what stands at each node; `copy`
/// asks it of another goal of the same tree.
pub fn answer(case: &Case) {
    let is_copied = case.skip("copy");
    if !is_copied {
        case.expect("show");
    }
    let words = case.take_rest();
    let Some(goal) = goal_of(case, words) else {
        return;
    };
    if is_copied {
        let copy = goal.copy(case.alloc);
        if let Some(copy) = case.made(copy) {
            tell_shown(&copy, case);
        }
    } else {
        tell_shown(&goal, case);
    }
}

fn tell_shown(goal: &CoreGoal, case: &Case) {
    case.tell_count(goal.nodes());
    case.tell(" nodes, children");
    if goal.nodes() > 0 {
        for k in 0..child_goals(goal.node(0)) {
            case.tell(" ");
            case.tell_count(goal.child(0, k));
        }
    }
    case.tell(": ");
    tell_goal(goal, case);
}

/// How many child goals stand below a node.
fn child_goals(node: GoalNode<'_>) -> usize
    ensures { result ≡ child_goals node.entry }
{
    match node {
        GoalNode::True => 0,
        GoalNode::Fail => 0,
        GoalNode::Tick => 0,
        GoalNode::Call(_, _) => 0,
        GoalNode::Apply(_, _, _) => 0,
        GoalNode::Seq(count) => count,
        GoalNode::Alt(count) => count,
        GoalNode::If => 3,
        GoalNode::Not => 1,
        GoalNode::Once => 1,
        GoalNode::Collect(_, _) => 1,
        GoalNode::Count(_) => 1,
        GoalNode::Catch(_) => 2,
    }
}

/// Goals and terms that wait for what stands before them.
#[derive(Drop)]
struct Built {
    goals: Vec<CoreGoal>,
    terms: Vec<Term>,
}

/// The goal that words are.
pub fn goal_of(case: &Case, words: &[String]) -> Option<CoreGoal> {
    let mut built = Built {
        goals: Vec::new(case.alloc),
        terms: Vec::new(case.alloc),
    };
    for word in words.iter().rev() {
        built.push(case, word.as_str());
    }
    let goal = case.one(&mut built.goals);
    if !built.goals.is_empty() || !built.terms.is_empty() {
        case.lacks("one goal alone");
    }
    goal
}

impl Built {
    /// Puts the goal or the term that begins with this word in the place of what belongs to it.
    fn push(&mut self, case: &Case, word: &str) {
        let (kind, more) = word.split_once(':').unwrap_or((word, ""));
        match kind_of(kind) {
            Some(kind) => {
                let made = self.goal(case, kind, more);
                case.keep(made, &mut self.goals);
            }
            None => self.push_several(case, word),
        }
    }

    /// Puts a sequence or alternatives, or else a term.
    fn push_several(&mut self, case: &Case, word: &str) {
        let made = match node_of(word) {
            Node::Comp("ALL", count) => {
                let goals = case.several(&mut self.goals, count);
                CoreGoal::seq(case.alloc, goals.as_slice())
            }
            Node::Comp("ANY", count) => {
                let goals = case.several(&mut self.goals, count);
                CoreGoal::alt(case.alloc, goals.as_slice())
            }
            _ => return push_term(case, word, &mut self.terms),
        };
        case.keep_made(made, &mut self.goals);
    }

    /// The goal of a kind, with what stands behind the colon of its word.
    fn goal(&mut self, case: &Case, kind: Kind, more: &str) -> Option<CoreGoal> {
        match kind {
            Kind::True => case.made(CoreGoal::truth(case.alloc)),
            Kind::Fail => case.made(CoreGoal::fail(case.alloc)),
            Kind::Tick => case.made(CoreGoal::tick(case.alloc)),
            Kind::Call => self.call(case, more, None),
            Kind::Calls(called) => self.call(case, called, None),
            Kind::Apply => self.apply(case, more),
            Kind::If => self.condition(case),
            Kind::Catch => self.catch(case),
            Kind::Around(around) => {
                let goal = case.one(&mut self.goals)?;
                around_goal(case, around, goal, more)
            }
        }
    }

    fn condition(&mut self, case: &Case) -> Option<CoreGoal> {
        let test = case.one(&mut self.goals)?;
        let then = case.one(&mut self.goals)?;
        let other = case.one(&mut self.goals)?;
        let made = CoreGoal::if_else(case.alloc, test, then, other);
        case.made(made)
    }

    fn catch(&mut self, case: &Case) -> Option<CoreGoal> {
        let ball = case.one(&mut self.terms)?;
        let goal = case.one(&mut self.goals)?;
        let handler = case.one(&mut self.goals)?;
        let made = CoreGoal::catch(case.alloc, goal, &ball, handler);
        case.made(made)
    }

    /// A call whose value goes into a slot, `3:f/1`.
    fn apply(&mut self, case: &Case, more: &str) -> Option<CoreGoal> {
        let (slot, called) = more.split_once(':').unwrap_or(("", more));
        self.call(case, called, Some(case.slot_of(slot)))
    }

    /// A call, `p/1`, whose value goes into a slot where one is given.
    fn call(&mut self, case: &Case, called: &str, slot: Option<u32>) -> Option<CoreGoal> {
        let (name, count) = name_and_count(case, called);
        let args = case.several(&mut self.terms, count);
        let name = case.name_of(name);
        let made = match slot {
            Some(slot) => CoreGoal::apply(case.alloc, name.as_str(), args.as_slice(), slot),
            None => CoreGoal::call(case.alloc, name.as_str(), args.as_slice()),
        };
        case.made(made)
    }
}

/// The goal that stands around another one, with what stands behind the colon of its word.
fn around_goal(case: &Case, around: Around, goal: CoreGoal, more: &str) -> Option<CoreGoal> {
    let made = match around {
        Around::Not => CoreGoal::not(case.alloc, goal),
        Around::Once => CoreGoal::once(case.alloc, goal),
        Around::Count => CoreGoal::count(case.alloc, goal, case.slot_of(more)),
        Around::Collect => {
            let (value, into) = more.split_once(':').unwrap_or((more, ""));
            CoreGoal::collect(case.alloc, goal, case.slot_of(value), case.slot_of(into))
        }
    };
    case.made(made)
}

/// The name and the number of the arguments of what is called.
fn name_and_count<'a>(case: &Case, called: &'a str) -> (&'a str, usize) {
    match node_of(called) {
        Node::Comp(name, count) => (name, count),
        _ => {
            case.lacks("the name and the number of the arguments of a call");
            ("", 0)
        }
    }
}

/// Tells a goal in words.
pub fn tell_goal(goal: &CoreGoal, case: &Case) {
    for i in 0..goal.nodes() {
        case.tell_between(i, " ");
        tell_node(goal.node(i), case);
    }
}

/// Tells the words of a node, with the terms that belong to it.
fn tell_node(node: GoalNode<'_>, case: &Case) {
    case.tell(word_of(node));
    match node {
        GoalNode::Call(name, args) => tell_call(name.as_str(), args.as_slice(), case),
        GoalNode::Apply(name, args, slot) => {
            case.tell_shown(slot);
            case.tell_character(':');
            tell_call(name.as_str(), args.as_slice(), case);
        }
        GoalNode::Seq(count) => case.tell_count(count),
        GoalNode::Alt(count) => case.tell_count(count),
        GoalNode::Collect(value, into) => {
            case.tell_shown(value);
            case.tell_character(':');
            case.tell_shown(into);
        }
        GoalNode::Count(into) => case.tell_shown(into),
        GoalNode::Catch(ball) => case.tell_term(ball),
        _ => {}
    }
}

/// How the word of a node begins.
fn word_of(node: GoalNode<'_>) -> &'static str {
    match node {
        GoalNode::True => "TRUE",
        GoalNode::Fail => "FAIL",
        GoalNode::Tick => "TICK",
        GoalNode::Call(_, _) => "CALL:",
        GoalNode::Apply(_, _, _) => "APPLY:",
        GoalNode::Seq(_) => "ALL/",
        GoalNode::Alt(_) => "ANY/",
        GoalNode::If => "IF",
        GoalNode::Not => "NOT",
        GoalNode::Once => "ONCE",
        GoalNode::Collect(_, _) => "COLLECT:",
        GoalNode::Count(_) => "COUNT:",
        GoalNode::Catch(_) => "CATCH ",
    }
}

/// Tells the name, the number of the arguments and the arguments of a call.
fn tell_call(name: &str, args: &[Term], case: &Case) {
    case.tell_called(name, args.len());
    for arg in args {
        case.tell(" ");
        case.tell_term(arg);
    }
}
