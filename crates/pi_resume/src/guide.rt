//! A guide through the choices of a run.
ghost use Rattle.std.specs.Prelude.{◌≡◌, ◌≤◌, ◌∷◌, [], ◌++◌, true, length, take, drop, slice_get, is_some, IfOk, OnErr};
ghost use Rattle.pi_resume.specs.Following.{path_of};

use crate::Path;
use std::alloc::{AllocError, Global};
use std::marker::Model;

/// What a run is told of its choices, and what it made: the path that it follows, where it follows one, how many of its choices were
/// followed, and all choices so far.
#[derive(Drop)]
pub struct Guide {
    follow: Option<Path>,
    passed: usize,
    made: Path,
}

// Clauses see whether there is a path to follow, what is left of it, and the choices that were made.
impl Model for Guide {
    ghost use Rattle.pi_resume.specs.Following.{Following};

    ghost Value = { Following };

    ghost use Rattle.pi_resume.specs.Guided.{following_of};

    ghost view = { following_of };
}

impl Guide {
    /// A guide with the choices to follow, and none made. Without a path there is nothing to follow, and the run is the whole one; an empty
    /// path is that of an answer without choices. It takes no memory. (Own.)
    pub fn new(alloc: Global, follow: Option<Path>) -> Guide
        ensures resumes { result.resumes ≡ is_some follow }
        ensures ahead { result.ahead ≡ path_of follow }
        ensures made { result.made ≡ [] }
    {
        Guide {
            follow,
            passed: 0,
            made: Path::new(alloc),
        }
    }

    /// Whether a path was given. It takes no memory. (Own.)
    pub fn resumes(&self) -> bool
        ensures { result ≡ self.now.resumes }
    {
        self.follow.is_some()
    }

    /// The number that the next choice is to take; None exactly where none is left to follow. It takes no memory. (Own.)
    pub fn wanted(&self) -> Option<u64>
        ensures { result ≡ slice_get self.now.ahead 0 }
    {
        match &self.follow {
            Some(path) => path.as_slice().get(self.passed).copied(),
            None => None,
        }
    }

    /// A choice was made, with this number; where one is left to follow it is passed. After a refusal all is as it was. (Own.)
    pub fn took(&mut self, number: u64) -> Result<(), AllocError>
        ensures ok { IfOk result (λ _. self.new.made ≡ self.old.made ++ number ∷ []) }
        ensures ahead { IfOk result (λ _. self.new.ahead ≡ drop 1 self.old.ahead) }
        ensures resumes { self.new.resumes ≡ self.old.resumes }
        ensures err { OnErr result (self.new ≡ self.old) }
    {
        self.made.push(number)?;
        if let Some(path) = &self.follow {
            if self.passed < path.len() {
                self.passed += 1;
            }
        }
        Ok(())
    }

    /// The choices that were made. It takes no memory. (Own.)
    pub fn made(&self) -> &Path
        ensures { result.now ≡ self.now.made }
    {
        &self.made
    }

    /// Goes back to the first `count` choices, after the following has ended. It takes no memory. (Own.)
    pub fn back(&mut self, count: usize)
        requires within { count ≤ length self.old.made }
        requires ended { self.old.ahead ≡ [] }
        ensures made { self.new.made ≡ take count self.old.made }
        ensures ahead { self.new.ahead ≡ [] }
        ensures resumes { self.new.resumes ≡ self.old.resumes }
    {
        self.made.truncate(count);
    }
}
