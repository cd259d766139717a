//! Which place is labelled next.
ghost use Rattle.std.specs.Prelude.{◌≡◌, ◌↔◌, IsTrue};
ghost use Rattle.pi_settling.specs.Options.{forward, backward, ff};
ghost use Rattle.pi_label.specs.Words.{variable_word};
ghost use Rattle.pi_label.specs.Picks.{IsOpen, picked_place, smaller_of};

use crate::options::{Options, VariableWord};
use pi_constraints::{Domain, Domains, size};

/// A place that was found, and how many values its domain has.
#[derive(Clone, Copy)]
struct Smallest {
    place: usize,
    size: u64,
}

/// The place of the domain that is labelled next, by the options' word; None exactly where none has more than one value.
/// It looks once at each place, and takes no memory.
pub fn pick(options: &Options, domains: &Domains) -> Option<usize>
    ensures { result ≡ picked_place (variable_word options.now.variable) domains.now }
{
    let domains = domains.as_slice();
    match options.variable {
        VariableWord::Forward => first_open(domains),
        VariableWord::Backward => last_open(domains),
        VariableWord::Ff => smallest_open(domains),
    }
}

/// The first place whose domain has more than one value.
fn first_open(domains: &[Domain]) -> Option<usize>
    ensures { result ≡ picked_place forward domains.now }
{
    for i in 0..domains.len() {
        if is_open(&domains[i]) {
            return Some(i);
        }
    }
    None
}

/// The last one.
fn last_open(domains: &[Domain]) -> Option<usize>
    ensures { result ≡ picked_place backward domains.now }
{
    let mut last = None;
    for i in 0..domains.len() {
        if is_open(&domains[i]) {
            last = Some(i);
        }
    }
    last
}

/// The leftmost one of those with the fewest values.
fn smallest_open(domains: &[Domain]) -> Option<usize>
    ensures { result ≡ picked_place ff domains.now }
{
    let mut smallest: Option<Smallest> = None;
    for i in 0..domains.len() {
        if is_open(&domains[i]) {
            let place = Smallest {
                place: i,
                size: size(&domains[i]),
            };
            smallest = Some(smaller(smallest, place));
        }
    }
    match smallest {
        Some(found) => Some(found.place),
        None => None,
    }
}

/// The one of two places that has fewer values, and the first where they have as many.
fn smaller(so_far: Option<Smallest>, place: Smallest) -> Smallest
    ensures { result ≡ smaller_of so_far place }
{
    match so_far {
        Some(found) => {
            if place.size < found.size {
                place
            } else {
                found
            }
        }
        None => place,
    }
}

/// Whether a domain has more than one value.
fn is_open(d: &Domain) -> bool
    ensures { IsTrue result ↔ IsOpen d.now }
{
    let spans = d.spans();
    match spans.first() {
        Some(span) => spans.len() > 1 || span.lo < span.hi,
        None => false,
    }
}
