//! Goals that are asked, as queries.
ghost use Rattle.std.specs.Prelude.{◌≡◌, map, IfOk};
ghost use Rattle.pi_syntax.specs.ExpTree.{exp_tree};
ghost use Rattle.pi_core.specs.CoreTree.{pred_tree, query_tree};
ghost use Rattle.pi_rewrite_spec.specs.Slots.{named_slots, slots_behind};
ghost use Rattle.pi_rewrite_spec.specs.Programs.{core_query};
ghost use Rattle.pi_rewrite_slots.specs.Indexed.{names_in};
ghost use Rattle.pi_rewrite_sites.specs.OwnNames.{own_name};
ghost use Rattle.pi_rewrite.specs.Built.{query_prefix};

use crate::goals::lower_body;
use crate::naming::query_naming;
use crate::telling::told_names;
use pi_core::{CorePred, CorePreds, CoreQuery, NameSlot, NameSlots};
use pi_rewrite_sites::Site;
use pi_rewrite_slots::Slots;
use pi_syntax::Exp;
use pi_terms::Text;
use std::alloc::{AllocError, Global};

/// The goal as a query asked of these predicates, with the helpers of its loops and the slots of the names that an answer
/// tells.
pub(crate) fn lower_query(
    alloc: Global,
    goal: &Exp,
    preds: &[CorePred],
) -> Result<CoreQuery, AllocError>
    ensures { IfOk result (λ query. query_tree query ≡ core_query (own_name (query_prefix (map pred_tree preds.now))) (exp_tree goal.now)) }
{
    let naming = query_naming(alloc, preds)?;
    let site = Site {
        filled: 0,
        before: Vec::new(alloc),
        helpers: 0,
        naming: &naming,
    };
    let mut slots = Slots::new(alloc);
    let mut helpers = Vec::new(alloc);
    let body = lower_body(alloc, &site, goal, &mut slots, &mut helpers)?;
    let told = told_names(alloc, goal)?;
    let names = name_slots(alloc, told.as_slice(), &mut slots)?;
    let count = slots.count()?;
    Ok(CoreQuery {
        goal: body,
        helpers: CorePreds::from_vec(helpers),
        names,
        slots: count,
    })
}

/// Names with their slots; one that has none gets one.
fn name_slots<'a>(
    alloc: Global,
    names: &[&'a str],
    slots: &mut Slots<'a>,
) -> Result<NameSlots, AllocError>
    ensures are { IfOk result (λ made. made ≡ named_slots (names_in names.now) slots.old) }
    ensures slots { IfOk result (λ _. slots.new ≡ slots_behind (names_in names.now) slots.old) }
{
    let mut made = NameSlots::new(alloc);
    for name in names {
        let slot = slots.slot_for(name)?;
        let name = Text::new(alloc, name)?;
        made.push(NameSlot { name, slot })?;
    }
    Ok(made)
}
