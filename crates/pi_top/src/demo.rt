//! The text of the demo program.
ghost use Rattle.std.specs.Prelude.{◌≡◌, ◌<◌, ◌≤◌, ◌++◌, IfOk};
ghost use Rattle.std.specs.String.{string_bytes};
ghost use Rattle.pi_top.specs.Demo.{rules_text, place_lines, edge_lines, demo_program};

use pi_terms::Text;
use std::alloc::{AllocError, Global};

/// The demo program over so many places, 1 to 400: a shortest way from the first to the last of them, and the number of ways to
/// place six queens. (Own.)
pub fn demo_text(alloc: Global, places: u32) -> Result<Text, AllocError>
    requires some { 1 ≤ places }
    requires few { places ≤ 400 }
    ensures ok { IfOk result (λ text. text ≡ demo_program places) }
{
    let mut text = rules(alloc, places - 1)?;
    for place in 0..places {
        push_edges(&mut text, places, place)?;
    }
    let made = Text::from_string(alloc, text)?;
    Ok(made)
}

/// The rules, with the number of the last place.
fn rules(alloc: Global, last: u32) -> Result<String, AllocError>
    ensures ok { IfOk result (λ text. string_bytes text ≡ rules_text last) }
{
    format!(in alloc;
        "import cp, planner.\n\
         main => best_plan(0,_,D), println(D), println(count_all(queens(6,_))).\n\
         final({last}) => true.\n\
         action(X,Y,A,K) => edge(X,Z), Y = Z, A = Z, K = 1.\n\
         queens(K,Q) => Q = new_list(K), Q :: 1..K, foreach(I in 1..K-1, J in I+1..K) Q[I] #!= Q[J], abs(Q[I]-Q[J]) #!= J-I end, solve(Q).\n\
         index (+,-)\n"
    )
}

/// The two facts of a place.
fn push_edges(text: &mut String, places: u32, place: u32) -> Result<(), AllocError>
    requires among { place < places }
    requires few { places ≤ 400 }
    ensures ok { IfOk result (λ _. string_bytes text.new ≡ string_bytes text.old ++ place_lines places place) }
{
    let next = (place + 1) % places;
    let other = (5 * place + 1) % places;
    write!(text, "edge({place},{next}).\nedge({place},{other}).\n")
}
