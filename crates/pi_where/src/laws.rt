//! Laws of the lines of parts.
ghost use Rattle.std.specs.Prelude.{◌≡◌, ℕ, List};
ghost use Rattle.pi_syntax.specs.Tokens.{Token};
ghost use Rattle.pi_prog_clauses.specs.Stretch.{stretches};
ghost use Rattle.pi_where.specs.Where.{all_tokens, TextHasLines, TextLacksPart, HasNoTokens};

use crate::part_lines::PartLines;
use pi_lex::one_reading;

/// Each text has at most one first and one last line for a part's number, and none where it lacks the part or has no tokens.
pub fn lines_are_one()
    ensures one { (text : List ℕ) (number : ℕ) (found other : PartLines)
        → TextHasLines text number found → TextHasLines text number other → found ≡ other }
    ensures not_lacking { (text : List ℕ) (number : ℕ) (found : PartLines)
        → TextHasLines text number found → ¬ TextLacksPart text number }
    ensures not_faulty { (text : List ℕ) (number : ℕ) (found : PartLines) → TextHasLines text number found → ¬ HasNoTokens text }
{
    one_reading();
}

/// No token is lost: the parts with their end points are all tokens, in order.
pub fn parts_are_all()
    ensures { (ts : List Token) → all_tokens (stretches ts) ≡ ts }
{}
