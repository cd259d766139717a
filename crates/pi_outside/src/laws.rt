//! Laws of the definitions of lines.
ghost use Rattle.pi_outside.specs.Order.{EndsWithItsLines, PassesWithFirstLines, FailsWithLinesSoFar};
ghost use Rattle.std.specs.Prelude.{◌≡◌, ℕ, List, take};
ghost use Rattle.pi_outside.specs.Requests.{request_of};
ghost use Rattle.pi_outside.specs.declared.request.TheConstants.{KEPT_LINE};

/// The lines that are found one after the other are those of what was read, whatever the pieces in which it came: all of them at
/// the input's end, where the input has more bytes than may be read those whose line feeds stand among these, and where a read
/// fails those whose line feeds were given before it.
pub fn lines_are_of_the_input()
    ensures ends { EndsWithItsLines }
    ensures passes { PassesWithFirstLines }
    ensures fails { FailsWithLinesSoFar }
{}

/// The first bytes of a line tell what it asks, so many as are kept of it.
pub fn first_bytes_tell()
    ensures { (line : List ℕ) → request_of (take KEPT_LINE line) ≡ request_of line }
{}
