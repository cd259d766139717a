//! A run: its store, its arenas, and what comes next.
ghost use Rattle.std.specs.Prelude.{◌≡◌, Some, Box, IfSome};
ghost use Rattle.std.specs.Global.{Global};
ghost use Rattle.pi_terms.specs.Tree.{Tree};
ghost use Rattle.pi_engine_arenas.specs.declared.run.Now.{Now};
ghost use Rattle.pi_engine_arenas.specs.declared.run.Now.TheVariants.{Raising};
ghost use Rattle.pi_engine_arenas.specs.declared.run.Settling.{Settling};
ghost use Rattle.pi_engine_arenas.specs.declared.run.Telling.{Telling};
ghost use Rattle.pi_engine_arenas.specs.Arenas.{view_of};
ghost use Rattle.pi_engine_arenas.specs.Arenas.{no_arenas};

use crate::arenas::Arenas;
use crate::frames::Point;
use pi_constraints::{Places, Ref, StateStore};
use pi_terms::{Term, Text};
use pi_unify::Slots;
use std::alloc::Global;

/// How a run ended.
#[derive(Drop)]
pub enum End {
    Done,
    Raised(Term),
    StepsSpent,
    WorkSpent,
    Memory,
}

/// A text that is written before goals go on.
#[derive(Drop)]
pub struct Telling {
    pub text: Text,
    pub point: Point,
}

/// The constraints that are due before goals go on.
#[derive(Drop)]
pub struct Settling {
    pub due: Places,
    pub point: Point,
}

/// What a run is about to do.
pub enum Now {
    Going(Point),
    /// A state is settled next. It is boxed, so that no other step moves the room for it.
    Settling(Box<Settling>),
    /// A text is told next. It is boxed too.
    Telling(Box<Telling>),
    /// The newest entry is next.
    Failing,
    /// The newest open `catch` is next, with this ball.
    Raising(Term),
    Ended(End),
}

// By hand, so that letting one go is a call and not its parts at each way out.
impl Drop for Now {
    #[inline(always)]
    fn drop(self) {
        match self {
            Now::Going(_) => {}
            Now::Settling(_) => {}
            Now::Telling(_) => {}
            Now::Failing => {}
            Now::Raising(_) => {}
            Now::Ended(_) => {}
        }
    }
}

impl Now {
    /// The ball that is raised, where one is.
    pub fn into_ball(self) -> Option<Term>
        ensures raised { (ball : Tree) → self ≡ Raising ball → result ≡ Some ball }
        ensures is { IfSome result (λ ball. self ≡ Raising ball) }
    {
        match self {
            Now::Raising(ball) => Some(ball),
            Now::Going(_) => None,
            Now::Settling(_) => None,
            Now::Telling(_) => None,
            Now::Failing => None,
            Now::Ended(_) => None,
        }
    }

    /// The text that is told, where one is.
    pub fn into_telling(self) -> Option<Box<Telling>>
        ensures told { (told : Box Telling Global) → self ≡ Now.Telling told → result ≡ Some told }
        ensures is { IfSome result (λ told. self ≡ Now.Telling told) }
    {
        match self {
            Now::Telling(told) => Some(told),
            Now::Going(_) => None,
            Now::Settling(_) => None,
            Now::Failing => None,
            Now::Raising(_) => None,
            Now::Ended(_) => None,
        }
    }

    /// What is settled, where something is.
    pub fn into_settling(self) -> Option<Box<Settling>>
        ensures settles { (it : Box Settling Global) → self ≡ Now.Settling it → result ≡ Some it }
        ensures is { IfSome result (λ it. self ≡ Now.Settling it) }
    {
        match self {
            Now::Settling(it) => Some(it),
            Now::Going(_) => None,
            Now::Telling(_) => None,
            Now::Failing => None,
            Now::Raising(_) => None,
            Now::Ended(_) => None,
        }
    }
}

/// What a run is: its store, its arenas and what comes next, and room that steps work in and that says nothing between
/// them.
pub struct Run<S: StateStore> {
    pub alloc: Global,
    pub store: S,
    pub arenas: Arenas<S::Mark>,
    pub now: Now,
    /// The arguments of the call that is being made, or the items of a list.
    pub terms: Vec<Ref>,
    /// What is made of the compound that is being put together, and the arguments of its present cell.
    pub made: Vec<Ref>,
    pub parts: Vec<Ref>,
    /// The slots of the rule that is being matched.
    pub slots: Slots,
}

// By hand, so that letting one go is a call and not its parts at each way out.
impl<S: StateStore> Drop for Run<S> {
    fn drop(self) {
        let Run {
            alloc: _,
            store: _,
            arenas: _,
            now: _,
            terms: _,
            made: _,
            parts: _,
            slots: _,
        } = self;
    }
}

impl<S: StateStore> Run<S> {
    /// A run of nothing, which has no answer.
    pub fn new(alloc: Global, store: S) -> Run<S>
        ensures store { result.store ≡ store }
        ensures arenas { view_of result.arenas ≡ no_arenas }
    {
        Run {
            alloc,
            store,
            arenas: Arenas::new(alloc),
            now: Now::Failing,
            terms: Vec::new(alloc),
            made: Vec::new(alloc),
            parts: Vec::new(alloc),
            slots: Vec::new(alloc),
        }
    }

    /// Gives the store back.
    pub fn into_store(self) -> S
        ensures { result ≡ self.store }
    {
        let Run {
            alloc: _,
            store,
            arenas: _,
            now: _,
            terms: _,
            made: _,
            parts: _,
            slots: _,
        } = self;
        store
    }
}
