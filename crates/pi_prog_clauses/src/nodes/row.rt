//! Nodes that stand side by side.
ghost use Rattle.std.specs.Prelude.{◌≡◌, length};
ghost use Rattle.pi_prog_clauses.specs.Walk.{shown_place, side_place};

use crate::nodes::place::Place;
use pi_syntax::Exp;

/// Where nodes stand that stand side by side.
#[derive(Clone, Copy)]
pub(crate) enum Side<'a> {
    /// All at this place.
    Alike(Place),
    /// As the last arguments of a call, which stands at this place, with so many arguments in all.
    Arguments {
        place: Place,
        name: &'a str,
        arity: usize,
    },
}

/// Nodes that stand side by side, one or more: a long list is one entry of a stack, and not one for each of its items.
#[derive(Clone, Copy)]
pub(crate) struct Row<'a> {
    pub(crate) side: Side<'a>,
    pub(crate) first: &'a Exp,
    pub(crate) others: &'a [Exp],
}

impl Row<'_> {
    /// Where the first stands.
    pub(crate) fn place(&self) -> Place
        ensures { shown_place result ≡ side_place self.now.side (length self.now.others.now) }
    {
        match self.side {
            Side::Alike(place) => place,
            Side::Arguments { place, name, arity } => {
                let behind = self.others.len();
                place.argument(name, arity, arity.saturating_sub(behind + 1))
            }
        }
    }
}
