//! The nodes of goals of the core language.
ghost use Rattle.std.specs.Prelude.{◌≡◌, IfOk};
ghost use Rattle.pi_core.specs.GoalCells.{kind_shown};

use pi_terms::{Args, Term, Text};
use std::alloc::{AllocError, Global};

/// A cell of a goal: one node, in prefix order, and the number of nodes of the goal that begins with it.
pub struct GoalCell {
    pub kind: GoalKind,
    pub size: usize,
}

// By hand, so that letting one go is a call and not its parts at each way out.
impl Drop for GoalCell {
    fn drop(self) {
        let GoalCell { kind: _, size: _ } = self;
    }
}

/// What a node is, with its texts, terms and slots; of `Seq` and `Alt` the number of child goals. It owns its parts and
/// stays in here; a look lends them as a `GoalNode`, by `node` alone. One generic enum for both would give each lemma over
/// kinds three types more.
pub enum GoalKind {
    True,
    Fail,
    Tick,
    Call(Text, Args),
    Apply(Text, Args, u32),
    Seq(usize),
    Alt(usize),
    If,
    Not,
    Once,
    Collect(u32, u32),
    Count(u32),
    Catch(Term),
}

// By hand, so that letting one go is a call and not its parts at each way out.
impl Drop for GoalKind {
    fn drop(self) {
        match self {
            GoalKind::True => {}
            GoalKind::Fail => {}
            GoalKind::Tick => {}
            GoalKind::Call(_, _) => {}
            GoalKind::Apply(_, _, _) => {}
            GoalKind::Seq(_) => {}
            GoalKind::Alt(_) => {}
            GoalKind::If => {}
            GoalKind::Not => {}
            GoalKind::Once => {}
            GoalKind::Collect(_, _) => {}
            GoalKind::Count(_) => {}
            GoalKind::Catch(_) => {}
        }
    }
}

impl GoalCell {
    pub fn copy(&self, alloc: Global) -> Result<GoalCell, AllocError>
        ensures ok { IfOk result (λ made. made ≡ self.now) }
    {
        Ok(GoalCell {
            kind: self.kind.copy(alloc)?,
            size: self.size,
        })
    }
}

impl GoalKind {
    pub fn copy(&self, alloc: Global) -> Result<GoalKind, AllocError>
        ensures ok { IfOk result (λ made. made ≡ self.now) }
    {
        match self {
            GoalKind::True => Ok(GoalKind::True),
            GoalKind::Fail => Ok(GoalKind::Fail),
            GoalKind::Tick => Ok(GoalKind::Tick),
            GoalKind::Call(name, args) => Ok(GoalKind::Call(name.copy(alloc)?, args.copy(alloc)?)),
            GoalKind::Apply(name, args, slot) => Ok(GoalKind::Apply(
                name.copy(alloc)?,
                args.copy(alloc)?,
                *slot,
            )),
            GoalKind::Seq(count) => Ok(GoalKind::Seq(*count)),
            GoalKind::Alt(count) => Ok(GoalKind::Alt(*count)),
            GoalKind::If => Ok(GoalKind::If),
            GoalKind::Not => Ok(GoalKind::Not),
            GoalKind::Once => Ok(GoalKind::Once),
            GoalKind::Collect(value, into) => Ok(GoalKind::Collect(*value, *into)),
            GoalKind::Count(into) => Ok(GoalKind::Count(*into)),
            GoalKind::Catch(ball) => Ok(GoalKind::Catch(ball.copy(alloc)?)),
        }
    }

    pub fn node(&self) -> GoalNode<'_>
        ensures { kind_shown result ≡ self.now }
    {
        match self {
            GoalKind::True => GoalNode::True,
            GoalKind::Fail => GoalNode::Fail,
            GoalKind::Tick => GoalNode::Tick,
            GoalKind::Call(name, args) => GoalNode::Call(name, args),
            GoalKind::Apply(name, args, slot) => GoalNode::Apply(name, args, *slot),
            GoalKind::Seq(count) => GoalNode::Seq(*count),
            GoalKind::Alt(count) => GoalNode::Alt(*count),
            GoalKind::If => GoalNode::If,
            GoalKind::Not => GoalNode::Not,
            GoalKind::Once => GoalNode::Once,
            GoalKind::Collect(value, into) => GoalNode::Collect(*value, *into),
            GoalKind::Count(into) => GoalNode::Count(*into),
            GoalKind::Catch(ball) => GoalNode::Catch(ball),
        }
    }
}

/// A node of a goal as it is looked at. `Seq` and `Alt` hold the number of their child goals; `Apply` the slot that
/// takes the function's value; `Collect` the slot that is collected and the slot that takes the list; `Count` the slot
/// that takes the number.
#[derive(Clone, Copy)]
pub enum GoalNode<'a> {
    True,
    Fail,
    Tick,
    Call(&'a Text, &'a Args),
    Apply(&'a Text, &'a Args, u32),
    Seq(usize),
    Alt(usize),
    If,
    Not,
    Once,
    Collect(u32, u32),
    Count(u32),
    Catch(&'a Term),
}
