//! A step that always comes to something: a way down from the given domains, from which each kept lemma turns it aside.
ghost use Rattle.std.specs.Prelude.{IfOk};
ghost use Rattle.pi_sat_spec.specs.Domains.{AreDomains};
ghost use Rattle.pi_sat_search.specs.Nodes.{MayGo, IsNode, NoneOpen, IsNext, IsSure, IsWay};

use crate::cuts::has_empty;
use crate::given::{Given, copied_domains};
use crate::learning::learned;
use crate::leaves::leaf;
use crate::nodes::{Node, go_down, refuted_by};
use crate::picks::first_open;
use pi_constraints::VarDomain;
use pi_sat_spec::{Assignment, SatEntry};
use std::alloc::AllocError;

/// What is found on the way down.
pub(crate) enum Sure {
    /// An entry that may be kept: it is right, and its lemma is new.
    Entry(SatEntry),
    /// These values are a solution.
    Yes(Assignment),
}

/// Goes down to an entry that may be kept, or to a solution.
pub(crate) fn find(given: &Given, entries: &[SatEntry]) -> Result<Sure, AllocError>
    requires { MayGo given.now.domains given.now.constraints entries.now }
    ensures { IfOk result (IsSure given.now.domains given.now.constraints entries.now) }
{
    let alloc = given.alloc;
    let present = copied_domains(alloc, given.domains.as_slice())?;
    look_at_all(present.as_slice());
    if has_empty(present.as_slice()) {
        return Ok(Sure::Entry(learned(Vec::new(alloc), Vec::new(alloc))));
    }
    if let Some(number) = refuted_by(entries, present.as_slice()) {
        let hints = Vec::from_slice(alloc, &[number as u64])?;
        return Ok(Sure::Entry(learned(Vec::new(alloc), hints)));
    }
    let mut node = Node {
        present,
        lemma: Vec::new(alloc),
    };
    match walk(given, entries, &mut node)? {
        Some(entry) => Ok(Sure::Entry(entry)),
        None => leaf(given, entries, node),
    }
}

/// Goes down as far as there is a variable with two values, or to an entry that may be kept.
fn walk(
    given: &Given,
    entries: &[SatEntry],
    node: &mut Node,
) -> Result<Option<SatEntry>, AllocError>
    requires may { MayGo given.now.domains given.now.constraints entries.now }
    requires node { IsNode given.now.domains entries.now node.old.present.items node.old.lemma.items }
    ensures { IfOk result (IsWay given.now.domains given.now.constraints entries.now node.new.present.items node.new.lemma.items) }
{
    while let Some(pick) = first_open(node.present.as_slice()) {
        let entry = go_down(given, entries, node, pick)?;
        if entry.is_some() {
            return Ok(entry);
        }
    }
    Ok(None)
}

/// That the domains are domains.
fn look_at_all(domains: &[VarDomain])
    ensures { AreDomains domains.now }
{
    for one in domains {
        let _spans = one.domain.spans();
    }
}
