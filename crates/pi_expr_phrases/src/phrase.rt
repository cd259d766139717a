//! The lines of the grammar, and how tightly each binds.
ghost use Rattle.std.specs.Prelude.{◌≡◌, ◌≤◌, suc};
ghost use Rattle.pi_syntax.specs.Grammar.{operand};
ghost use Rattle.pi_syntax.specs.Ranks as ranks;
ghost use Rattle.pi_expr_phrases.specs.Shown.{line_shown, phrase_shown};

/// A line whose signs stand between two operands and group to the left, the loosest first.
#[derive(Clone, Copy)]
pub enum Line {
    Equivalence,
    Implication,
    ConstraintOr,
    ConstraintXor,
    ConstraintAnd,
    BitOr,
    BitXor,
    BitAnd,
    Shift,
    Sum,
    Product,
}

impl Line {
    /// The rank of the line; its operands have the next one.
    pub fn rank(self) -> u8
        ensures rank { result ≡ ranks.line_rank (line_shown self) }
        ensures operands { ranks.rank (operand (line_shown self)) ≡ suc result }
        ensures within { result ≤ 18 }
    {
        match self {
            Line::Equivalence => 5,
            Line::Implication => 6,
            Line::ConstraintOr => 7,
            Line::ConstraintXor => 8,
            Line::ConstraintAnd => 9,
            Line::BitOr => 13,
            Line::BitXor => 14,
            Line::BitAnd => 15,
            Line::Shift => 16,
            Line::Sum => 17,
            Line::Product => 18,
        }
    }
}

/// A line of the grammar that gives one expression, the loosest first.
#[derive(Clone, Copy)]
pub enum Phrase {
    Exp,
    Branch,
    Conj,
    Unit,
    Line(Line),
    Negation,
    Relating,
    Range,
    Unary,
    Pow,
    Post,
    Prim,
}

impl Phrase {
    /// The rank of the phrase, from 1, the loosest, to 22.
    pub fn rank(self) -> u8
        ensures { result ≡ ranks.rank (phrase_shown self) }
    {
        match self {
            Phrase::Exp => 1,
            Phrase::Branch => 2,
            Phrase::Conj => 3,
            Phrase::Unit => 4,
            Phrase::Line(line) => line.rank(),
            Phrase::Negation => 10,
            Phrase::Relating => 11,
            Phrase::Range => 12,
            Phrase::Unary => 19,
            Phrase::Pow => 20,
            Phrase::Post => 21,
            Phrase::Prim => 22,
        }
    }
}
