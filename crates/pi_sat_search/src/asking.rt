//! Which constraints are to be asked: those of whose variables an end was cut since their filters cut nothing.
use crate::lookup::place_of;
use crate::trail::Trail;
use pi_constraints::{Constraint, Item, VarDomain};
use pi_prop_filters::places;
use std::alloc::{AllocError, Global};

/// The constraints to be asked.
#[derive(Drop)]
pub(crate) struct Asking {
    /// The constraints of each variable, by its place.
    uses: Vec<Vec<usize>>,
    waiting: Vec<usize>,
    is_waiting: Vec<bool>,
    /// How many of the trail's literals were seen.
    seen: usize,
}

impl Asking {
    /// All constraints.
    pub(crate) fn new(
        alloc: Global,
        domains: &[VarDomain],
        constraints: &[Constraint],
    ) -> Result<Asking, AllocError> {
        let mut uses = Vec::new(alloc);
        for _ in 0..domains.len() {
            uses.push(Vec::new(alloc))?;
        }
        let mut asking = Asking {
            uses,
            waiting: Vec::new(alloc),
            is_waiting: Vec::new(alloc),
            seen: 0,
        };
        for number in 0..constraints.len() {
            asking.is_waiting.push(false)?;
            let items = places(alloc, &constraints[number])?;
            asking.note_all(domains, items.as_slice(), number)?;
            asking.wait(number)?;
        }
        Ok(asking)
    }

    /// Notes that a constraint has these items.
    fn note_all(
        &mut self,
        domains: &[VarDomain],
        items: &[Item],
        number: usize,
    ) -> Result<(), AllocError> {
        for item in items {
            if let Item::Var(var) = item {
                self.note(domains, *var, number)?;
            }
        }
        Ok(())
    }

    /// Notes that a constraint has a variable.
    fn note(&mut self, domains: &[VarDomain], var: u64, number: usize) -> Result<(), AllocError> {
        if let Some(place) = place_of(domains, var) {
            if place < self.uses.len() {
                let uses = &mut self.uses[place];
                uses.push(number)?;
            }
        }
        Ok(())
    }

    /// Lets a constraint wait.
    fn wait(&mut self, number: usize) -> Result<(), AllocError> {
        if number < self.is_waiting.len() && !self.is_waiting[number] {
            self.is_waiting[number] = true;
            self.waiting.push(number)?;
        }
        Ok(())
    }

    /// Lets the constraints wait that a literal of the trail is about which wasn't seen yet.
    pub(crate) fn see(&mut self, trail: &Trail) -> Result<(), AllocError> {
        for i in self.seen..trail.taken.len() {
            self.see_place(trail.taken[i].literal.place)?;
        }
        self.seen = trail.taken.len();
        Ok(())
    }

    fn see_place(&mut self, place: usize) -> Result<(), AllocError> {
        for i in 0..self.count_at(place) {
            if let Some(number) = self.use_at(place, i) {
                self.wait(number)?;
            }
        }
        Ok(())
    }

    fn count_at(&self, place: usize) -> usize {
        match self.uses.as_slice().get(place) {
            None => 0,
            Some(uses) => uses.len(),
        }
    }

    fn use_at(&self, place: usize, i: usize) -> Option<usize> {
        let uses = self.uses.as_slice().get(place)?;
        match uses.as_slice().get(i) {
            None => None,
            Some(number) => Some(*number),
        }
    }

    /// That the trail was taken back.
    pub(crate) fn went_back(&mut self, trail: &Trail) {
        self.seen = self.seen.min(trail.taken.len());
    }

    /// The constraint that waits last.
    pub(crate) fn next(&self) -> Option<usize> {
        match self.waiting.as_slice().last() {
            None => None,
            Some(number) => Some(*number),
        }
    }

    /// That the constraint that waits last cut nothing.
    pub(crate) fn done(&mut self) {
        if let Some(number) = self.waiting.pop() {
            if number < self.is_waiting.len() {
                self.is_waiting[number] = false;
            }
        }
    }
}
