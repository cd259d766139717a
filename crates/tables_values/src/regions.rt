//! Regions of words and pools of them, call by call.
ghost use Rattle.std.specs.Prelude.{◌<◌, ◌≤◌, OnOk};
ghost use Rattle.pi_region.specs.Pool.{made_by};

use pi_region::{Pool, Words as Region};
use std::alloc::{AllocError, Global};
use tables_cases::{Case, named};

/// A pool, and the most of its regions that were ever out at one time: it made no more.
#[derive(Drop)]
struct Watched {
    pool: Pool,
    most_out: u64,
    ghost no_more_made: { made_by pool ≤ most_out },
}

impl Watched {
    fn new(alloc: Global) -> Watched {
        Watched {
            pool: Pool::new(alloc),
            most_out: 0,
        }
    }

    fn take(&mut self) -> Result<Region, AllocError>
        ensures { OnOk result (0 < self.new.pool.outstanding) }
    {
        let region = self.pool.take()?;
        self.most_out = self.most_out.max(self.pool.outstanding());
        Ok(region)
    }

    fn give(&mut self, region: Region)
        requires { 0 < self.old.pool.outstanding }
    {
        self.pool.give(region);
    }
}

/// A call to a pool.
#[derive(Clone, Copy)]
enum PoolCall {
    Take,
    Give,
    Made,
    Most,
    Outstanding,
}

/// Each call to a pool with its word.
const POOL_CALLS: [(&str, PoolCall); 5] = [
    ("take", PoolCall::Take),
    ("give", PoolCall::Give),
    ("made", PoolCall::Made),
    ("most", PoolCall::Most),
    ("outstanding", PoolCall::Outstanding),
];

/// A call to a region that takes no memory.
#[derive(Clone, Copy)]
enum RegionCall {
    Len,
    Get,
    Right,
    Set,
    Truncate,
}

/// Each of these calls with its word.
const CALLS: [(&str, RegionCall); 5] = [
    ("len", RegionCall::Len),
    ("get", RegionCall::Get),
    ("right", RegionCall::Right),
    ("set", RegionCall::Set),
    ("truncate", RegionCall::Truncate),
];

/// A call to a region that may take memory.
#[derive(Clone, Copy)]
enum Growth {
    Reserve,
    Append,
    Pair,
    Fill,
}

/// Each of these calls with its word.
const GROWTHS: [(&str, Growth); 4] = [
    ("reserve", Growth::Reserve),
    ("append", Growth::Append),
    ("pair", Growth::Pair),
    ("fill", Growth::Fill),
];

/// The call to a pool with a word.
fn pool_call_of(word: &str) -> Option<PoolCall> {
    named(&POOL_CALLS, word)
}

/// The call with a word that takes no memory.
fn call_of(word: &str) -> Option<RegionCall> {
    named(&CALLS, word)
}

/// The call with a word that may take memory.
fn growth_of(word: &str) -> Option<Growth> {
    named(&GROWTHS, word)
}

/// Tells what each call of a case gives, a step each. They go to one region, or to the pool that `pool` in front of them makes
/// and to the region that was taken of it last.
pub fn answer(case: &Case) {
    if case.skip("pool") {
        case.take_step_end();
        call_pool(case);
    } else {
        call_region(case);
    }
}

fn call_region(case: &Case) {
    let mut region = Region::new(case.alloc);
    for _ in 0..case.steps() {
        case.begin("; ");
        let verb = case.take_word();
        call(case, &mut region, verb);
        case.take_step_end();
    }
}

fn call_pool(case: &Case) {
    let mut pool = Watched::new(case.alloc);
    let mut taken = Vec::new(case.alloc);
    for _ in 0..case.steps() {
        case.begin("; ");
        let verb = case.take_word();
        match pool_call_of(verb) {
            Some(called) => call_to_pool(case, &mut pool, &mut taken, called),
            None => call_newest(case, &mut taken, verb),
        }
        case.take_step_end();
    }
}

/// Makes a call to a pool.
fn call_to_pool(case: &Case, pool: &mut Watched, taken: &mut Vec<Region>, called: PoolCall) {
    match called {
        PoolCall::Take => take(case, pool, taken),
        PoolCall::Give => give(case, pool, taken),
        PoolCall::Made => case.tell_number(pool.pool.made()),
        PoolCall::Most => case.tell_number(pool.most_out),
        PoolCall::Outstanding => case.tell_number(pool.pool.outstanding()),
    }
}

/// Takes a region of a pool.
fn take(case: &Case, pool: &mut Watched, taken: &mut Vec<Region>) {
    match pool.take() {
        Ok(region) => {
            case.keep(Some(region), taken);
            case.tell("taken");
        }
        Err(AllocError) => case.tell("refused"),
    }
}

/// Gives the region that was taken last back to its pool.
fn give(case: &Case, pool: &mut Watched, taken: &mut Vec<Region>) {
    match taken.pop() {
        Some(region) if pool.pool.outstanding() > 0 => {
            pool.give(region);
            case.tell("given");
        }
        _ => case.lacks("a region that was taken"),
    }
}

/// Makes a call to the region that was taken last.
fn call_newest(case: &Case, taken: &mut Vec<Region>, verb: &str) {
    match taken.last_mut() {
        Some(region) => call(case, region, verb),
        None => case.lacks("a region that was taken"),
    }
}

/// Makes a call to a region.
fn call(case: &Case, region: &mut Region, verb: &str) {
    match call_of(verb) {
        Some(RegionCall::Len) => case.tell_count(region.len()),
        Some(RegionCall::Get) => tell_word(case, region),
        Some(RegionCall::Right) => tell_right(case, region),
        Some(RegionCall::Set) => set(case, region),
        Some(RegionCall::Truncate) => truncate(case, region),
        None => {
            let done = grow(case, region, verb);
            tell_done(case, done);
        }
    }
}

/// Tells whether a call was given the memory that it asked for.
fn tell_done(case: &Case, done: Result<(), AllocError>) {
    case.tell(match done {
        Ok(()) => "done",
        Err(AllocError) => "refused",
    });
}

/// Makes a call that may take memory.
fn grow(case: &Case, region: &mut Region, verb: &str) -> Result<(), AllocError> {
    let number = case.take_number();
    match growth_of(verb) {
        Some(Growth::Reserve) => region.reserve(number as usize),
        Some(Growth::Append) => append(region, number),
        Some(Growth::Pair) => append_pair(region, number, case.take_number()),
        Some(Growth::Fill) => fill(region, number, case.take_number()),
        None => {
            case.lacks("a known call");
            Ok(())
        }
    }
}

/// Appends a word.
fn append(region: &mut Region, word: u64) -> Result<(), AllocError> {
    region.reserve(1)?;
    region.push(word);
    Ok(())
}

/// Appends two words for which room is made at one time.
fn append_pair(region: &mut Region, first: u64, second: u64) -> Result<(), AllocError> {
    region.reserve(2)?;
    region.push(first);
    region.push(second);
    Ok(())
}

/// Appends so many multiples of a number, from 0 on. A word that is refused once is asked for again.
fn fill(region: &mut Region, count: u64, step: u64) -> Result<(), AllocError> {
    for i in 0..count {
        let word = i.wrapping_mul(step);
        if append(region, word).is_err() {
            append(region, word)?;
        }
    }
    Ok(())
}

/// Tells a word as it is read.
fn tell_word(case: &Case, region: &Region) {
    let index = case.take_count();
    if index < region.len() {
        case.tell_number(region.get(index));
    } else {
        case.tell("no such word");
    }
}

/// Tells how many of the first words are the multiples of a number, from 0 on.
fn tell_right(case: &Case, region: &Region) {
    let count = case.take_count().min(region.len());
    let step = case.take_number();
    let mut right = 0u64;
    for i in 0..count {
        if region.get(i) == (i as u64).wrapping_mul(step) {
            right = right.saturating_add(1);
        }
    }
    case.tell_number(right);
}

fn set(case: &Case, region: &mut Region) {
    let index = case.take_count();
    let word = case.take_number();
    if index < region.len() {
        region.set(index, word);
        case.tell("done");
    } else {
        case.tell("no such word");
    }
}

fn truncate(case: &Case, region: &mut Region) {
    let count = case.take_count();
    if count <= region.len() {
        region.truncate(count);
        case.tell("done");
    } else {
        case.tell("too few words");
    }
}
