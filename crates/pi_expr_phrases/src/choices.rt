//! Conditions with their bodies.
use crate::built::{Built, Pair, both};
use pi_syntax::Branches;
use std::alloc::{AllocError, Global};

/// Conditions with their bodies and the most levels of one of these, or no more than that one is too deep.
#[derive(Drop)]
pub enum Choices {
    Kept(Branches, u32),
    Deep,
}

impl Choices {
    ghost use Rattle.std.specs.Prelude.{IfOk};
    ghost use Rattle.pi_syntax.specs.ExpTree.{ExpTree, ExpBranches, no_branches};
    ghost use Rattle.pi_expr_phrases.specs.Machine.{with_branch};
    ghost use Rattle.pi_expr_phrases.specs.Trees.{Shows, ShowsChoices};

    /// No conditions.
    pub fn new(alloc: Global) -> Choices
        ensures { ShowsChoices result no_branches }
    {
        Choices::Kept(Vec::new(alloc), 0)
    }

    /// These and one more at the end.
    pub fn with(self, condition: Built, body: Built) -> Result<Choices, AllocError>
        ensures { IfOk result (λ made. (bs : ExpBranches) (c e : ExpTree) → ShowsChoices self bs → Shows condition c → Shows body e →
            ShowsChoices made (with_branch bs c e)) }
    {
        match self {
            Choices::Kept(branches, levels) => Choices::kept(branches, levels, condition, body),
            Choices::Deep => {
                drop(condition);
                drop(body);
                Ok(Choices::Deep)
            }
        }
    }

    /// Conditions and one more at the end.
    fn kept(
        mut branches: Branches,
        levels: u32,
        condition: Built,
        body: Built,
    ) -> Result<Choices, AllocError>
        ensures { IfOk result (λ made. (bs : ExpBranches) (c e : ExpTree) → ShowsChoices (Choices.Kept branches levels) bs →
            Shows condition c → Shows body e → ShowsChoices made (with_branch bs c e)) }
    {
        match both(condition, body) {
            Pair::Kept(condition, body, more) => {
                branches.push((condition, body))?;
                Ok(Choices::Kept(branches, levels.max(more)))
            }
            Pair::Deep => {
                drop(branches);
                Ok(Choices::Deep)
            }
        }
    }
}
