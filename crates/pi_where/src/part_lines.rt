//! The lines of a part.
ghost use Rattle.std.specs.Prelude.{◌≡◌, IfOk, IfErr, MatchOption};
ghost use Rattle.pi_where.specs.Where.{HasLines, LacksPart, TextHasLines, TextLacksPart, HasNoTokens};
ghost use Rattle.pi_where.specs.declared.part_lines.NoLines.TheVariants.{NoPart, NoTokens, Memory};

use crate::places::{part_begin, part_end};
use pi_lex::{LexFault, Tokens, tokens};
use std::alloc::Global;

/// The lines from which and to which a part stands, counted from 1.
#[derive(Clone, Copy)]
pub struct PartLines {
    pub first: u64,
    pub last: u64,
}

/// Why no lines are told.
#[derive(Clone, Copy)]
pub enum NoLines {
    /// The text has no part of this number.
    NoPart,
    /// The text has no tokens, and so no parts.
    NoTokens,
    /// Memory ran out.
    Memory,
}

impl From<LexFault> for NoLines {
    ghost use Rattle.std.specs.Prelude.{◌≡◌};
    ghost use Rattle.pi_where.specs.Where.{no_lines_for};

    ghost from_gives = { λ fault e. e ≡ no_lines_for fault };

    fn from(fault: LexFault) -> NoLines {
        match fault {
            LexFault::Memory => NoLines::Memory,
            LexFault::TooLong => NoLines::NoTokens,
            LexFault::NotUtf8 { at: _ } => NoLines::NoTokens,
            LexFault::BadToken { line: _ } => NoLines::NoTokens,
            LexFault::WideInteger { line: _ } => NoLines::NoTokens,
        }
    }
}

/// The lines of a part of a program's text, counted from 1: from that of its first token to that of its last, which is its
/// end point where it has one. Parts are those that the reader of programs tells its faults by.
pub fn lines_of_part(alloc: Global, text: &[u8], number: u64) -> Result<PartLines, NoLines>
    ensures lines { IfOk result (TextHasLines text.now number) }
    ensures no_part { IfErr result (λ e. e ≡ NoPart → TextLacksPart text.now number) }
    ensures no_tokens { IfErr result (λ e. e ≡ NoTokens → HasNoTokens text.now) }
{
    let tokens = tokens(alloc, text)?;
    lines_in(&tokens, number).ok_or(NoLines::NoPart)
}

/// The same of its tokens.
fn lines_in(tokens: &Tokens, number: u64) -> Option<PartLines>
    ensures { MatchOption result (LacksPart tokens.now number) (HasLines tokens.now number) }
{
    let from = part_begin(tokens, number)?;
    let to = part_end(tokens, from);
    Some(PartLines {
        first: tokens.line(from),
        last: tokens.line(to - 1),
    })
}
