//! The calls that label, by their names.
ghost use Rattle.std.specs.Prelude.{◌≡◌};
ghost use Rattle.pi_settling.specs.SolveCalls.{is_solve};

/// Whether a call with this name and so many arguments labels: `solve` with its variables, and maybe options before them.
/// (A User's Guide to Picat, 'Constraints'.)
#[tactic(auto, using(crate::proofs::NamedLemmas::solve_named))]
pub fn is_solve(name: &str, count: u32) -> bool
    ensures { result ≡ is_solve name.now count }
{
    ((count == 1) | (count == 2)) & (name == "solve")
}
