//! The places at which parts begin and end.
ghost use Rattle.std.specs.Prelude.{◌≡◌, ◌<◌, ◌≤◌, length, MatchOption};
ghost use Rattle.pi_lex.specs.Kinds.{kinds};
ghost use Rattle.pi_where.specs.Places.{BeginsAt, EndsAt};
ghost use Rattle.pi_where.specs.Where.{LacksPart};

use pi_lex::Tokens;
use pi_prog::is_end;

/// Where the part of a number begins, counted from 1.
pub(crate) fn part_begin(tokens: &Tokens, number: u64) -> Option<usize>
    ensures { MatchOption result (LacksPart tokens.now number) (λ at. (at < length tokens.now) × BeginsAt (kinds tokens.now) number at) }
{
    if number == 0 {
        return None;
    }
    let count = tokens.len();
    let mut at = 0;
    for part in 1..number {
        if at >= count {
            return None;
        }
        at = part_end(tokens, at);
    }
    if at >= count {
        return None;
    }
    Some(at)
}

/// The place after the part that begins at a place: after its end point, where it has one.
pub(crate) fn part_end(tokens: &Tokens, from: usize) -> usize
    requires { from < length tokens.now }
    ensures { EndsAt (kinds tokens.now) from result }
{
    let count = tokens.len();
    for at in from..count {
        if is_end(tokens.kind(at)) {
            return at + 1;
        }
    }
    count
}
