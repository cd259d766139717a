//! A law of the definitions, on a function that does nothing.
ghost use Rattle.std.specs.Prelude.{◌≡◌, List};
ghost use Rattle.pi_syntax.specs.ProgramTree.{ProgramTree};
ghost use Rattle.pi_syntax.specs.Tokens.{Token};
ghost use Rattle.pi_prog_clauses.specs.GoalVerdict.{GoalVerdict, HasGoalVerdict};
ghost use Rattle.pi_prog_clauses.specs.Reading.{Reading, ReadAll};
ghost use Rattle.pi_prog_clauses.specs.Stretch.{Stretch};
ghost use Rattle.pi_prog_clauses.specs.Verdict.{Verdict, HasVerdict};

/// Parts have at most one reading each, and tokens at most one verdict as a program, and with a program at most one as a
/// goal.
pub fn one_verdict()
    ensures parts { (parts : List Stretch) (rs others : List Reading) → ReadAll parts rs → ReadAll parts others → rs ≡ others }
    ensures program { (tokens : List Token) (v w : Verdict) → HasVerdict tokens v → HasVerdict tokens w → v ≡ w }
    ensures goal { (tokens : List Token) (program : ProgramTree) (v w : GoalVerdict) → HasGoalVerdict tokens program v →
        HasGoalVerdict tokens program w → v ≡ w }
{}
