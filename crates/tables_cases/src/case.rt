//! A case: its words, of which some were taken, and its answer so far.

use crate::fault::Problem;
use std::alloc::Global;
use std::cell::Cell;

/// A case that is answered. Its first fault stays; what is taken behind it is 0 or nothing, and counts for nothing. What
/// changes of it stands in cells, so that it is lent to whatever takes of it and tells. Its words are its own, so it has no
/// lifetime that each call would carry.
pub struct Case {
    pub alloc: Global,
    pub(crate) words: Vec<String>,
    /// How many words were taken.
    at: Cell<usize>,
    answer: Cell<String>,
    problem: Cell<Option<Problem>>,
}

// By hand, so that letting one go is a call and not its parts at each way out.
impl Drop for Case {
    fn drop(self) {
        let Case {
            alloc: _,
            words: _,
            at: _,
            answer: _,
            problem: _,
        } = self;
    }
}

impl Case {
    /// A case of these words.
    pub fn new(alloc: Global, words: Vec<String>) -> Case {
        Case {
            alloc,
            words,
            at: Cell::new(0),
            answer: Cell::new(String::new(alloc)),
            problem: Cell::new(None),
        }
    }

    /// A case without words.
    pub fn wordless(alloc: Global) -> Case {
        Case::new(alloc, Vec::new(alloc))
    }

    /// Another case, of the words that are left of this one, which notes it where there is no memory for them.
    pub fn again(&self) -> Case {
        let mut words = Vec::new(self.alloc);
        for word in self.ahead() {
            let word = String::from_str(self.alloc, word.as_str());
            self.keep_made(word, &mut words);
        }
        Case::new(self.alloc, words)
    }

    /// How many words were taken.
    pub(crate) fn taken(&self) -> usize {
        self.at.get()
    }

    /// Passes over so many words.
    pub(crate) fn pass(&self, count: usize) {
        self.at.set(self.taken().saturating_add(count));
    }

    /// Takes out what is told so far; nothing is told then.
    pub(crate) fn take_answer(&self) -> String {
        self.answer.replace(String::new(self.alloc))
    }

    /// Puts back what is told so far, of which nothing was told in the meantime.
    pub(crate) fn put_answer(&self, answer: String) {
        self.answer.set(answer);
    }

    /// The first fault so far.
    pub fn problem(&self) -> Option<Problem> {
        self.problem.get()
    }

    /// Notes a fault.
    pub fn fail(&self, problem: Problem) {
        if self.problem().is_none() {
            self.problem.set(Some(problem));
        }
    }

    /// Notes the fault of another case, where it has one.
    pub fn fail_as(&self, other: &Case) {
        if let Some(problem) = other.problem() {
            self.fail(problem);
        }
    }

    /// Notes what the case lacks.
    pub fn lacks(&self, what: &'static str) {
        self.fail(Problem::Lacks(what));
    }

    /// Notes that memory was wanted, where something failed that fails for that alone.
    pub fn done<T: Drop, E: Drop>(&self, done: Result<T, E>) {
        if done.is_err() {
            self.fail(Problem::Memory);
        }
    }

    /// What was made by something that fails for want of memory alone.
    pub fn made<T: Drop, E: Drop>(&self, made: Result<T, E>) -> Option<T> {
        match made {
            Ok(made) => Some(made),
            Err(_) => {
                self.fail(Problem::Memory);
                None
            }
        }
    }

    /// Puts what was made, if anything, behind the others.
    pub fn keep<T: Drop>(&self, made: Option<T>, kept: &mut Vec<T>) {
        if let Some(made) = made {
            let kept = kept.push(made);
            self.done(kept);
        }
    }

    /// Puts what was made behind the others, by something that fails for want of memory alone.
    pub fn keep_made<T: Drop, E: Drop>(&self, made: Result<T, E>, kept: &mut Vec<T>) {
        let made = self.made(made);
        self.keep(made, kept);
    }

    /// Takes the newest thing off a stack.
    pub fn one<T: Drop>(&self, stack: &mut Vec<T>) -> Option<T> {
        let found = stack.pop();
        if found.is_none() {
            self.lacks("one more argument");
        }
        found
    }

    /// Takes so many things off a stack, the newest first.
    pub fn several<T: Drop>(&self, stack: &mut Vec<T>, count: usize) -> Vec<T> {
        let mut found = Vec::new(self.alloc);
        if count > stack.len() {
            self.lacks("more arguments");
            return found;
        }
        for _ in 0..count {
            let item = stack.pop();
            self.keep(item, &mut found);
        }
        found
    }
}
