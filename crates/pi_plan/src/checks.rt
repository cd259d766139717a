//! What a planner refuses: states and actions that hold a variable, and costs that are no integers from 0.
ghost use Rattle.std.specs.Prelude.{◌≡◌, ◌↔◌, Some, None, pos, IsTrue, OnOk, IfErr, IfSome, IsNone};
ghost use Rattle.pi_terms.specs.Tree.{int};
ghost use Rattle.pi_terms.specs.Variables.{IsGround};
ghost use Rattle.pi_plan.specs.Roots.{is_variable_head};
ghost use Rattle.pi_plan.specs.declared.checks.PlanFault.{PlanFault};
ghost use Rattle.pi_plan.specs.Faults.{start_fault, ground_fault, cost_fault, successor_fault, first_fault, Refuses};

use crate::given::Successor;
use pi_terms::{Term, TermHead};
use std::alloc::{AllocError, Global};

/// Why a planner refuses what it is handed.
#[derive(Drop)]
pub enum PlanFault {
    /// A state or an action that holds a variable.
    NotGround(Term),
    /// A cost or a limit that is no integer from 0.
    BadCost(Term),
    /// No memory is left.
    Memory,
}

impl From<AllocError> for PlanFault {
    fn from(_error: AllocError) -> PlanFault {
        PlanFault::Memory
    }
}

/// Whether a term holds no variable.
fn is_ground(term: &Term) -> bool
    ensures { IsTrue result ↔ IsGround term.now }
{
    for i in 0..term.cells() {
        if is_variable(term.head_at(i)) {
            return false;
        }
    }
    true
}

fn is_variable(head: TermHead<'_>) -> bool
    ensures { result ≡ is_variable_head head.entry }
{
    match head {
        TermHead::Var(_) => true,
        TermHead::Int(_) => false,
        TermHead::Atom(_) => false,
        TermHead::Comp(_, _) => false,
    }
}

/// The first fault of answers of `action`.
pub(crate) fn check(alloc: Global, successors: &[Successor]) -> Result<(), PlanFault>
    ensures ok { OnOk result (first_fault successors.now ≡ None) }
    ensures err { IfErr result (Refuses (first_fault successors.now)) }
{
    for successor in successors {
        match check_one(alloc, successor) {
            Ok(()) => {}
            Err(fault) => return Err(fault),
        }
    }
    Ok(())
}

/// The fault of a planner call: its start is judged before its limit.
pub(crate) fn check_start(alloc: Global, start: &Term, limit: i128) -> Result<(), PlanFault>
    ensures ok { OnOk result (start_fault start.now limit ≡ None) }
    ensures err { IfErr result (Refuses (start_fault start.now limit)) }
{
    match check_ground(alloc, start) {
        Ok(()) => {}
        Err(fault) => return Err(fault),
    }
    check_limit(alloc, limit)
}

/// Whether a limit is an integer from 0.
fn check_limit(alloc: Global, limit: i128) -> Result<(), PlanFault>
    ensures ok { OnOk result (cost_fault (int limit) ≡ None) }
    ensures err { IfErr result (Refuses (cost_fault (int limit))) }
{
    match Term::int(alloc, limit) {
        Ok(limit) => check_cost(alloc, &limit),
        Err(AllocError) => Err(PlanFault::Memory),
    }
}

/// The first fault of an answer of `action`.
fn check_one(alloc: Global, successor: &Successor) -> Result<(), PlanFault>
    ensures ok { OnOk result (successor_fault successor.now ≡ None) }
    ensures err { IfErr result (Refuses (successor_fault successor.now)) }
{
    match check_ground(alloc, &successor.state) {
        Ok(()) => {}
        Err(fault) => return Err(fault),
    }
    match check_ground(alloc, &successor.action) {
        Ok(()) => {}
        Err(fault) => return Err(fault),
    }
    check_cost(alloc, &successor.cost)
}

/// Whether a term is ground.
fn check_ground(alloc: Global, term: &Term) -> Result<(), PlanFault>
    ensures ok { OnOk result (ground_fault term.now ≡ None) }
    ensures err { IfErr result (Refuses (ground_fault term.now)) }
{
    if is_ground(term) {
        return Ok(());
    }
    match term.copy(alloc) {
        Ok(term) => Err(PlanFault::NotGround(term)),
        Err(AllocError) => Err(PlanFault::Memory),
    }
}

/// Whether a term is an integer from 0.
fn check_cost(alloc: Global, term: &Term) -> Result<(), PlanFault>
    ensures ok { OnOk result (cost_fault term.now ≡ None) }
    ensures err { IfErr result (Refuses (cost_fault term.now)) }
{
    if cost_of(term).is_some() {
        return Ok(());
    }
    match term.copy(alloc) {
        Ok(term) => Err(PlanFault::BadCost(term)),
        Err(AllocError) => Err(PlanFault::Memory),
    }
}

/// The integer from 0 that a term is, where it is one.
pub(crate) fn cost_of(term: &Term) -> Option<u128>
    ensures some { IfSome result (λ n. term.now ≡ int (pos n)) }
    ensures none { IsNone result → cost_fault term.now ≡ Some (PlanFault.BadCost term.now) }
{
    match term.head() {
        TermHead::Int(n) => {
            if n < 0 {
                return None;
            }
            Some(n.unsigned_abs())
        }
        TermHead::Var(_) => None,
        TermHead::Atom(_) => None,
        TermHead::Comp(_, _) => None,
    }
}
