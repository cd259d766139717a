//! The end of the way down, where each variable has one value.
ghost use Rattle.std.specs.Prelude.{◌≡◌, ◌↔◌, IsTrue, IfOk, All};
ghost use Rattle.pi_constraints.specs.Constraint.{IsWithinLimits};
ghost use Rattle.pi_sat_search.specs.Nodes.{MayGo, IsNode, NoneOpen, IsSure, IsRefuting, least_values};

use crate::filtered::refutes;
use crate::given::Given;
use crate::nodes::Node;
use crate::picks::least_of;
use crate::reasons::entry_of;
use crate::sure::Sure;
use pi_constraints::{Constraint, VarDomain};
use pi_sat_spec::{Assignment, SatEntry};
use std::alloc::{AllocError, Global};

/// What the values come to: a lemma of a constraint that they refute, or a solution.
pub(crate) fn leaf(given: &Given, entries: &[SatEntry], node: Node) -> Result<Sure, AllocError>
    requires may { MayGo given.now.domains given.now.constraints entries.now }
    requires node { IsNode given.now.domains entries.now node.present.items node.lemma.items }
    requires none { NoneOpen node.present.items }
    ensures { IfOk result (IsSure given.now.domains given.now.constraints entries.now) }
{
    let Node { present, lemma } = node;
    match refuting(
        given.alloc,
        given.constraints.as_slice(),
        present.as_slice(),
    )? {
        Some(number) => Ok(Sure::Entry(entry_of(lemma, number))),
        None => {
            let values = least_values(given.alloc, present.as_slice())?;
            Ok(Sure::Yes(values))
        }
    }
}

/// The number of the first constraint that the domains refute.
fn refuting(
    alloc: Global,
    constraints: &[Constraint],
    present: &[VarDomain],
) -> Result<Option<usize>, AllocError>
    requires { All IsWithinLimits constraints.now }
    ensures { IfOk result (IsRefuting constraints.now present.now) }
{
    for i in 0..constraints.len() {
        if refutes(alloc, &constraints[i], present)? {
            return Ok(Some(i));
        }
    }
    Ok(None)
}

/// The least value of each variable.
fn least_values(alloc: Global, present: &[VarDomain]) -> Result<Assignment, AllocError>
    ensures { IfOk result (λ made. made ≡ least_values present.now) }
{
    let mut all = Vec::new(alloc);
    for i in 0..present.len() {
        let one = &present[i];
        all.push((one.var, least_of(&one.domain)))?;
    }
    Ok(Assignment::from_vec(all))
}
