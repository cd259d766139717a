//! Which literal is decided next, and the values that domains are fixed to.
use crate::trail::{Bound, Ends, Trail, value_at_most};
use pi_constraints::VarDomain;
use pi_sat_spec::Assignment;
use std::alloc::{AllocError, Global};

/// How far the ends lie apart at most of a variable that is tried at its least value; one with more values is halved.
const FEW: i128 = 64;

/// From which weight on all weights are made smaller, and by how much.
const MOST: u64 = 1_125_899_906_842_624;

const LESS: u64 = 1_073_741_824;

/// How often each variable took part in conflicts; later ones weigh more.
#[derive(Drop)]
pub(crate) struct Activity {
    weights: Vec<u64>,
    step: u64,
}

impl Activity {
    /// No conflicts, of so many variables.
    pub(crate) fn new(alloc: Global, count: usize) -> Result<Activity, AllocError> {
        let mut weights = Vec::new(alloc);
        for _ in 0..count {
            weights.push(0)?;
        }
        Ok(Activity { weights, step: 1 })
    }

    /// That variables took part in a conflict.
    pub(crate) fn add(&mut self, places: &[usize]) {
        for place in places {
            self.add_one(*place);
        }
        self.step = self.step.saturating_add(self.step / 16).saturating_add(1);
        if self.step > MOST {
            self.lessen();
        }
    }

    fn add_one(&mut self, place: usize) {
        if place < self.weights.len() {
            self.weights[place] = self.weights[place].saturating_add(self.step);
        }
    }

    /// Makes all weights smaller.
    fn lessen(&mut self) {
        for i in 0..self.weights.len() {
            self.weights[i] /= LESS;
        }
        self.step = (self.step / LESS).max(1);
    }

    fn of(&self, place: usize) -> u64 {
        match self.weights.as_slice().get(place) {
            None => 0,
            Some(weight) => *weight,
        }
    }
}

/// The literal to decide next: the least values of the variable that took part in most conflicts, and of those with the nearest
/// ends. None where all are fixed.
pub(crate) fn decision(domains: &[VarDomain], trail: &Trail, activity: &Activity) -> Option<Bound> {
    let place = most_active(trail.ends.as_slice(), activity)?;
    let ends = trail.ends.as_slice().get(place)?;
    let one = domains.get(place)?;
    Some(Bound {
        place,
        bound: lower_part(one, *ends),
        above: false,
    })
}

/// The place that took part in most conflicts, of those with more than one value.
fn most_active(ends: &[Ends], activity: &Activity) -> Option<usize> {
    let mut best = None;
    let mut most = 0;
    let mut nearest = 0;
    for i in 0..ends.len() {
        let apart = apart(ends[i]);
        let weight = activity.of(i);
        let first = best.is_none();
        if 0 < apart && (first || most < weight || (most == weight && apart < nearest)) {
            best = Some(i);
            most = weight;
            nearest = apart;
        }
    }
    best
}

/// How far ends lie apart.
fn apart(ends: Ends) -> i128 {
    i128::from(ends.high) - i128::from(ends.low)
}

/// The greatest value of the part of a domain that is tried first.
fn lower_part(one: &VarDomain, ends: Ends) -> i64 {
    if apart(ends) <= FEW {
        return ends.low;
    }
    let middle = (i128::from(ends.low) + i128::from(ends.high)) / 2;
    match i64::try_from(middle) {
        Err(_) => ends.low,
        Ok(middle) => value_at_most(&one.domain, middle).unwrap_or(ends.low),
    }
}

/// The least value of each variable.
pub(crate) fn values_of(
    alloc: Global,
    domains: &[VarDomain],
    trail: &Trail,
) -> Result<Assignment, AllocError> {
    let mut all = Vec::new(alloc);
    for i in 0..domains.len() {
        if let Some(ends) = trail.ends.as_slice().get(i) {
            all.push((domains[i].var, ends.low))?;
        }
    }
    Ok(Assignment::from_vec(all))
}
