//! Where the turns of a loop stand.
ghost use Rattle.std.specs.Prelude.{◌≡◌, length, IfOk};
ghost use Rattle.pi_rewrite_spec.specs.Sites.{inside};
ghost use Rattle.pi_rewrite_sites.specs.SiteOf.{site_of};
ghost use Rattle.pi_rewrite_loops.specs.Helpers.{loop_of};

use pi_rewrite_loops::Loop;
use pi_rewrite_sites::Site;
use pi_rewrite_slots::Slots;
use std::alloc::{AllocError, Global};

/// Where the turns of a loop stand: in the clause of its helper, whose head has these slots.
pub fn turns_of<'a>(
    alloc: Global,
    site: &Site<'a>,
    l: &Loop<'a>,
    slots: &Slots<'a>,
) -> Result<Site<'a>, AllocError>
    ensures { IfOk result (λ made. site_of made ≡ inside (site_of site.now) (length slots.now) (loop_of l.now).shared) }
{
    let filled = slots.count()?;
    let turns = site.inside(alloc, filled, l.shared.as_slice())?;
    Ok(turns)
}
