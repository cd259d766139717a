//! The kept lemmas as they are propagated: each is watched by two of its literals.
use crate::trail::{Bound, Reason, Trail};
use pi_constraints::VarDomain;
use std::alloc::{AllocError, Global};
use std::mem;

/// The literals of a lemma; the first two are watched.
#[derive(Drop)]
pub(crate) struct Clause {
    pub(crate) literals: Vec<Bound>,
}

/// The lemmas that watch a literal of a place, by its direction.
#[derive(Drop)]
struct Watchers {
    above: Vec<usize>,
    at_most: Vec<usize>,
}

/// All lemmas, and which watch each place.
#[derive(Drop)]
pub(crate) struct Clauses {
    pub(crate) all: Vec<Clause>,
    watchers: Vec<Watchers>,
    /// How many of the trail's literals were propagated.
    done: usize,
}

/// What a lemma comes to.
enum Came {
    /// It has no literal left.
    Conflict,
    /// It watches another literal now.
    Moved,
    /// It goes on watching this one.
    Stays,
}

impl Clauses {
    /// No lemmas, of so many variables.
    pub(crate) fn new(alloc: Global, count: usize) -> Result<Clauses, AllocError> {
        let mut watchers = Vec::new(alloc);
        for _ in 0..count {
            watchers.push(Watchers {
                above: Vec::new(alloc),
                at_most: Vec::new(alloc),
            })?;
        }
        Ok(Clauses {
            all: Vec::new(alloc),
            watchers,
            done: 0,
        })
    }

    /// Adds a lemma, and takes its literal where it has just one left. Whether it has none.
    pub(crate) fn add(
        &mut self,
        domains: &[VarDomain],
        trail: &mut Trail,
        mut literals: Vec<Bound>,
    ) -> Result<bool, AllocError> {
        let number = self.all.len();
        bring_forward(trail, &mut literals, 0);
        bring_forward(trail, &mut literals, 1);
        let (first, second) = first_two(literals.as_slice());
        self.all.push(Clause { literals })?;
        if let Some(literal) = first {
            self.watch(literal, number)?;
        }
        if let Some(literal) = second {
            self.watch(literal, number)?;
        }
        unit_or_none(domains, trail, first, second, number)
    }

    /// Looks again at a lemma that had no literal left: takes its literal where it has one. Whether it has none.
    pub(crate) fn is_refuted_again(
        &self,
        domains: &[VarDomain],
        trail: &mut Trail,
        number: usize,
    ) -> Result<bool, AllocError> {
        let Some(clause) = self.all.as_slice().get(number) else {
            return Ok(false);
        };
        let mut first = None;
        let mut second = None;
        for literal in clause.literals.as_slice() {
            if !trail.is_false(*literal) {
                second = first;
                first = Some(*literal);
            }
        }
        unit_or_none(domains, trail, first, second, number)
    }

    /// That the trail was taken back.
    pub(crate) fn went_back(&mut self, trail: &Trail) {
        self.done = self.done.min(trail.taken.len());
    }

    /// Lets a lemma watch a literal.
    fn watch(&mut self, literal: Bound, number: usize) -> Result<(), AllocError> {
        if literal.place < self.watchers.len() {
            let watchers = &mut self.watchers[literal.place];
            if literal.above {
                watchers.above.push(number)?;
            } else {
                watchers.at_most.push(number)?;
            }
        }
        Ok(())
    }

    /// Takes all literals that lemmas leave alone. The number of a lemma that has none left; None where each has one.
    pub(crate) fn propagate(
        &mut self,
        alloc: Global,
        domains: &[VarDomain],
        trail: &mut Trail,
    ) -> Result<Option<usize>, AllocError> {
        for _ in 0..u64::MAX {
            let Some(literal) = taken_at(trail, self.done) else {
                return Ok(None);
            };
            let conflict = self.visit(alloc, domains, trail, literal)?;
            if conflict.is_some() {
                return Ok(conflict);
            }
            self.done = self.done.saturating_add(1);
        }
        Ok(None)
    }

    /// Looks at the lemmas that watch what a taken literal may have refuted.
    fn visit(
        &mut self,
        alloc: Global,
        domains: &[VarDomain],
        trail: &mut Trail,
        literal: Bound,
    ) -> Result<Option<usize>, AllocError> {
        let watching = self.take_watchers(alloc, literal);
        let mut conflict = None;
        for number in watching.as_slice() {
            let stays = if conflict.is_some() {
                true
            } else {
                match self.look_at(domains, trail, literal, *number)? {
                    Came::Moved => false,
                    Came::Stays => true,
                    Came::Conflict => {
                        conflict = Some(*number);
                        true
                    }
                }
            };
            if stays {
                self.watch(opposite(literal), *number)?;
            }
        }
        Ok(conflict)
    }

    /// Takes out the lemmas that watch a place from the side that a literal cuts.
    fn take_watchers(&mut self, alloc: Global, literal: Bound) -> Vec<usize> {
        let none = Vec::new(alloc);
        if literal.place < self.watchers.len() {
            let watchers = &mut self.watchers[literal.place];
            if literal.above {
                return mem::replace(&mut watchers.at_most, none);
            }
            return mem::replace(&mut watchers.above, none);
        }
        none
    }

    /// Looks at a lemma one of whose watched literals may be refuted by a taken one.
    fn look_at(
        &mut self,
        domains: &[VarDomain],
        trail: &mut Trail,
        literal: Bound,
        number: usize,
    ) -> Result<Came, AllocError> {
        if number >= self.all.len() {
            return Ok(Came::Stays);
        }
        let literals = &mut self.all[number].literals;
        put_watched_second(literals, literal);
        let (first, second) = first_two(literals.as_slice());
        let Some(watched) = second else {
            return came_alone(trail, first);
        };
        if !trail.is_false(watched) {
            return Ok(Came::Stays);
        }
        if let Some(other) = first {
            if trail.is_true(other) {
                return Ok(Came::Stays);
            }
        }
        if let Some(next) = bring_open(trail, literals) {
            self.watch(next, number)?;
            return Ok(Came::Moved);
        }
        if unit_or_none(domains, trail, first, second, number)? {
            return Ok(Came::Conflict);
        }
        Ok(Came::Stays)
    }
}

/// What a lemma of one literal comes to.
fn came_alone(trail: &Trail, first: Option<Bound>) -> Result<Came, AllocError> {
    match first {
        Some(only) if !trail.is_false(only) => Ok(Came::Stays),
        _ => Ok(Came::Conflict),
    }
}

/// The literal at a place of the trail.
fn taken_at(trail: &Trail, i: usize) -> Option<Bound> {
    match trail.taken.as_slice().get(i) {
        None => None,
        Some(taken) => Some(taken.literal),
    }
}

/// A literal of the other direction at the same place.
fn opposite(literal: Bound) -> Bound {
    Bound {
        place: literal.place,
        bound: literal.bound,
        above: !literal.above,
    }
}

/// The first two literals.
fn first_two(literals: &[Bound]) -> (Option<Bound>, Option<Bound>) {
    (at(literals, 0), at(literals, 1))
}

fn at(literals: &[Bound], i: usize) -> Option<Bound> {
    match literals.get(i) {
        None => None,
        Some(literal) => Some(*literal),
    }
}

/// Takes the first literal where it is the only one left; whether none is.
fn unit_or_none(
    domains: &[VarDomain],
    trail: &mut Trail,
    first: Option<Bound>,
    second: Option<Bound>,
    number: usize,
) -> Result<bool, AllocError> {
    let Some(first) = first else {
        return Ok(true);
    };
    if trail.is_false(first) {
        return Ok(true);
    }
    let alone = match second {
        None => true,
        Some(second) => trail.is_false(second),
    };
    if alone {
        trail.take(domains, first, Reason::Entry(number))?;
    }
    Ok(false)
}

/// Brings a literal to a place near the front: one that isn't refuted, or the one that was refuted last.
fn bring_forward(trail: &Trail, literals: &mut Vec<Bound>, to: usize) {
    let mut best = to;
    let mut latest = 0usize;
    for i in to..literals.len() {
        let age = age_of(trail, literals[i]);
        if i == to || latest < age {
            best = i;
            latest = age;
        }
    }
    exchange(literals, to, best);
}

/// How late a literal was refuted: the greatest number where it isn't.
fn age_of(trail: &Trail, literal: Bound) -> usize {
    if !trail.is_false(literal) {
        return usize::MAX;
    }
    match trail.first_against(literal) {
        None => 0,
        Some(i) => i.saturating_add(1),
    }
}

/// Exchanges two literals.
fn exchange(literals: &mut Vec<Bound>, i: usize, j: usize) {
    if i < literals.len() && j < literals.len() {
        let first = literals[i];
        literals[i] = literals[j];
        literals[j] = first;
    }
}

/// Puts the watched literal that a taken one is about in the second place.
fn put_watched_second(literals: &mut Vec<Bound>, taken: Bound) {
    if let Some(first) = at(literals.as_slice(), 0) {
        if first.place == taken.place && first.above != taken.above {
            exchange(literals, 0, 1);
        }
    }
}

/// Brings a literal that isn't refuted to the second place; None where there is none behind it.
fn bring_open(trail: &Trail, literals: &mut Vec<Bound>) -> Option<Bound> {
    for i in 2..literals.len() {
        let literal = literals[i];
        if !trail.is_false(literal) {
            exchange(literals, 1, i);
            return Some(literal);
        }
    }
    None
}
