//! What a constraint says beside its items and its terms, as six numbers.
ghost use Rattle.std.specs.Prelude.{◌≡◌, ◌<◌, ◌^◌, map, IfOk, OnErr};
ghost use Rattle.pi_region.specs.Entry.{data_of};
ghost use Rattle.pi_region.specs.Image.{appended};
ghost use Rattle.pi_store_blocks.specs.Heap.{Appends};
ghost use Rattle.pi_store_blocks.specs.Head.{rel_number, rel_of, sum_head, item_head, head_of, head_numbers, IsSmallHead};

use crate::constraints::items::item_number;
use crate::wide::{low, mid, top};
use pi_constraints::{Constraint, Rel};
use pi_region::{Trailed, data};
use std::alloc::AllocError;

/// The kind of a constraint, and up to five numbers by the kind, the others 0.
#[derive(Clone, Copy)]
pub struct Head {
    pub kind: u64,
    pub first: u64,
    pub second: u64,
    pub third: u64,
    pub fourth: u64,
    pub fifth: u64,
}

/// How a sum stands to 0, as a number.
fn rel_number(rel: Rel) -> u64
    ensures { result ≡ rel_number rel }
{
    match rel {
        Rel::Equal => 0,
        Rel::Unequal => 1,
        Rel::AtMost => 2,
    }
}

/// How a sum stands to 0.
pub fn rel_of(number: u64) -> Rel
    ensures { result ≡ rel_of number }
{
    match number {
        0 => Rel::Equal,
        1 => Rel::Unequal,
        _ => Rel::AtMost,
    }
}

impl Head {
    /// The head of a sum.
    fn of_sum(kind: u64, rel: Rel, constant: i128, truth: u64) -> Head
        requires kind { kind < 8 }
        requires truth { truth < 2 ^ 59 }
        ensures is { result ≡ sum_head kind rel constant truth }
        ensures small { IsSmallHead result }
    {
        Head {
            kind,
            first: rel_number(rel),
            second: top(constant),
            third: mid(constant),
            fourth: low(constant),
            fifth: truth,
        }
    }

    /// The head of a constraint of items.
    fn of_items(kind: u64, first: u64, second: u64, third: u64) -> Head
        requires kind { kind < 8 }
        requires first { first < 2 ^ 59 }
        requires second { second < 2 ^ 59 }
        requires third { third < 2 ^ 59 }
        ensures is { result ≡ item_head kind first second third }
        ensures small { IsSmallHead result }
    {
        Head {
            kind,
            first,
            second,
            third,
            fourth: 0,
            fifth: 0,
        }
    }

    /// The head of a constraint.
    fn of(constraint: &Constraint) -> Head
        ensures is { result ≡ head_of constraint.now }
        ensures small { IsSmallHead result }
    {
        match constraint {
            Constraint::Linear { rel, constant, .. } => Head::of_sum(0, *rel, *constant, 0),
            Constraint::Product { z, x, y } => {
                Head::of_items(1, item_number(*z), item_number(*x), item_number(*y))
            }
            Constraint::Absolute { z, x } => {
                Head::of_items(2, item_number(*z), item_number(*x), 0)
            }
            Constraint::Different(_) => Head::of_items(3, 0, 0, 0),
            Constraint::Element { index, value, .. } => {
                Head::of_items(4, item_number(*index), item_number(*value), 0)
            }
            Constraint::Reified {
                truth,
                rel,
                constant,
                ..
            } => Head::of_sum(5, *rel, *constant, item_number(*truth)),
            Constraint::Distinct(_) => Head::of_items(6, 0, 0, 0),
        }
    }
}

/// The head of a constraint at the end of the region.
pub fn append_head(words: &mut Trailed, constraint: &Constraint) -> Result<(), AllocError>
    ensures ok { IfOk result (λ _. words.new ≡ appended words.old (map data_of (head_numbers (head_of constraint.now)))) }
    ensures appends { Appends words.old words.new }
{
    let head = Head::of(constraint);
    words.append_three(data(head.kind), data(head.first), data(head.second))?;
    words.append_three(data(head.third), data(head.fourth), data(head.fifth))?;
    Ok(())
}
