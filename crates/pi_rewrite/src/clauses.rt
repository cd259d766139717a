//! Rules and facts as clauses, of predicates and of functions.
ghost use Rattle.std.specs.Prelude.{◌≡◌, ◌++◌, [], length, map, option_map, option_copied, IfOk};
ghost use Rattle.pi_syntax.specs.ExpTree.{exp_tree};
ghost use Rattle.pi_syntax.specs.ProgramTree.{rule_tree, function_tree};
ghost use Rattle.pi_core.specs.CoreTree.{clause_tree, pattern_trees, pred_tree};
ghost use Rattle.pi_meaning.specs.OverNames.WrittenRules.{head_arguments};
ghost use Rattle.pi_meaning.specs.OverNames.Texts.{behind, places};
ghost use Rattle.pi_rewrite_spec.specs.Clauses.{guard_of, lowered_fact};
ghost use Rattle.pi_rewrite_spec.specs.Programs.{behind_option, option_goals, option_helpers, written_rule, rule_helpers, written_function, function_helpers};
ghost use Rattle.pi_rewrite_spec.specs.Values.{slot_patterns};
ghost use Rattle.pi_rewrite_sites.specs.OwnNames.{own_name};
ghost use Rattle.pi_rewrite_sites.specs.SiteOf.{site_of};

use crate::goals::{lower_body, lower_goal_or_none, lower_guard, lower_head};
use crate::places::{clause_site, pass_option};
use pi_core::{CoreClause, CoreGoal, CorePred, Patterns, SlotWatches};
use pi_rewrite_goals::{in_turn, lower_value};
use pi_rewrite_sites::{Naming, Site};
use pi_rewrite_slots::Slots;
use pi_syntax::{Exp, FunctionClause, RuleClause};
use std::alloc::{AllocError, Global};

/// Names for helpers, and how many of them there are so far.
#[derive(Clone, Copy)]
pub(crate) struct Numbered<'a> {
    pub(crate) naming: &'a Naming,
    pub(crate) count: u64,
}

/// What the head of a clause comes to: its patterns, and the place behind it.
#[derive(Drop)]
struct Begun<'a> {
    patterns: Patterns,
    site: Site<'a>,
}

/// A predicate's rule as a clause, with the helpers of its loops behind others. Its events count for nothing here.
pub(crate) fn lower_rule<'a>(
    alloc: Global,
    from: Numbered<'a>,
    rule: &'a RuleClause,
    helpers: &mut Vec<CorePred>,
) -> Result<CoreClause, AllocError>
    ensures is { IfOk result (λ clause. clause_tree clause ≡
        written_rule (own_name from.entry.naming.now.prefix) from.entry.count (rule_tree rule.now)) }
    ensures helpers { IfOk result (λ _. map pred_tree helpers.new.items ≡
        map pred_tree helpers.old.items ++ rule_helpers (own_name from.entry.naming.now.prefix) from.entry.count
        (rule_tree rule.now)) }
{
    let mut slots = Slots::new(alloc);
    let mut begun = begin(alloc, from, &rule.head, &mut slots)?;
    let guard = guarded(alloc, &mut begun.site, rule.cond(), &mut slots, helpers)?;
    let body = lower_body(alloc, &begun.site, &rule.body, &mut slots, helpers)?;
    let count = slots.count()?;
    Ok(CoreClause {
        head: begun.patterns,
        guard,
        back: rule.back,
        watches: SlotWatches::new(alloc),
        body,
        value: None,
        slots: count,
    })
}

/// The head of a clause, whose slots come behind others.
fn begin<'a>(
    alloc: Global,
    from: Numbered<'a>,
    head: &'a Exp,
    slots: &mut Slots<'a>,
) -> Result<Begun<'a>, AllocError>
    ensures patterns { IfOk result (λ begun. pattern_trees begun.patterns.items ≡
        (slot_patterns (head_arguments (exp_tree head.now)) slots.old).forms) }
    ensures slots { IfOk result (λ _. slots.new ≡ (slot_patterns (head_arguments (exp_tree head.now)) slots.old).names) }
    ensures site { IfOk result (λ begun. site_of begun.site ≡
        record {
          filled = length slots.new;
          before = behind [] (places (exp_tree head.now));
          helpers = from.entry.count;
          called = own_name from.entry.naming.now.prefix;
        }) }
{
    let patterns = lower_head(alloc, head, slots)?;
    let filled = slots.count()?;
    let site = clause_site(alloc, from.naming, from.count, filled, head)?;
    Ok(Begun { patterns, site })
}

/// The condition of a clause, with the helpers of its loops behind others. The place goes on behind it.
fn guarded<'a>(
    alloc: Global,
    site: &mut Site<'a>,
    cond: Option<&'a Exp>,
    slots: &mut Slots<'a>,
    helpers: &mut Vec<CorePred>,
) -> Result<CoreGoal, AllocError>
    ensures is { IfOk result (λ made. made ≡ guard_of (option_map exp_tree (option_copied cond.entry))
        (option_goals (site_of site.old) (option_map exp_tree (option_copied cond.entry)) slots.old)) }
    ensures slots { IfOk result (λ _. slots.new ≡
        (option_goals (site_of site.old) (option_map exp_tree (option_copied cond.entry)) slots.old).names) }
    ensures helpers { IfOk result (λ _. map pred_tree helpers.new.items ≡
        map pred_tree helpers.old.items ++ option_helpers (site_of site.old) (option_map exp_tree (option_copied cond.entry))) }
    ensures site { IfOk result (λ _. site_of site.new ≡ behind_option (site_of site.old) (option_map exp_tree (option_copied cond.entry))) }
{
    let guard = lower_guard(alloc, site, cond, slots, helpers)?;
    pass_option(alloc, site, cond)?;
    Ok(guard)
}

/// A fact as a clause, which has just a head.
pub(crate) fn lower_fact(alloc: Global, head: &Exp) -> Result<CoreClause, AllocError>
    ensures { IfOk result (λ clause. clause_tree clause ≡ lowered_fact (exp_tree head.now)) }
{
    let mut slots = Slots::new(alloc);
    let head = lower_head(alloc, head, &mut slots)?;
    let guard = CoreGoal::truth(alloc)?;
    let body = CoreGoal::truth(alloc)?;
    let count = slots.count()?;
    Ok(CoreClause {
        head,
        guard,
        back: false,
        watches: SlotWatches::new(alloc),
        body,
        value: None,
        slots: count,
    })
}

/// A function's rule as a clause, whose value is evaluated behind the body, with the helpers of its loops behind others.
pub(crate) fn lower_function<'a>(
    alloc: Global,
    from: Numbered<'a>,
    function: &'a FunctionClause,
    helpers: &mut Vec<CorePred>,
) -> Result<CoreClause, AllocError>
    ensures is { IfOk result (λ clause. clause_tree clause ≡
        written_function (own_name from.entry.naming.now.prefix) from.entry.count (function_tree function.now)) }
    ensures helpers { IfOk result (λ _. map pred_tree helpers.new.items ≡
        map pred_tree helpers.old.items ++ function_helpers (own_name from.entry.naming.now.prefix) from.entry.count
        (function_tree function.now)) }
{
    let mut slots = Slots::new(alloc);
    let mut begun = begin(alloc, from, &function.head, &mut slots)?;
    let mut site = begun.site.behind_names(alloc, &function.value)?;
    let guard = guarded(alloc, &mut site, function.cond(), &mut slots, helpers)?;
    let mut goals = Vec::new(alloc);
    lower_goal_or_none(
        alloc,
        &site,
        function.body(),
        &mut slots,
        &mut goals,
        helpers,
    )?;
    drop(site);
    pass_option(alloc, &mut begun.site, function.cond())?;
    pass_option(alloc, &mut begun.site, function.body())?;
    let value = lower_value(
        alloc,
        &begun.site,
        &function.value,
        &mut slots,
        &mut goals,
        helpers,
    )?;
    let body = in_turn(alloc, goals)?;
    let count = slots.count()?;
    Ok(CoreClause {
        head: begun.patterns,
        guard,
        back: false,
        watches: SlotWatches::new(alloc),
        body,
        value: Some(value),
        slots: count,
    })
}
