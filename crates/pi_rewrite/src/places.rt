//! Where the parts of a clause stand, and how many helpers they have.
ghost use Rattle.std.specs.Prelude.{◌≡◌, ◌+◌, [], option_map, option_copied, IfOk};
ghost use Rattle.pi_syntax.specs.ExpTree.{exp_tree};
ghost use Rattle.pi_syntax.specs.ProgramTree.{part_tree, rule_tree, function_tree};
ghost use Rattle.pi_meaning.specs.OverNames.Texts.{places, behind};
ghost use Rattle.pi_rewrite_spec.specs.Programs.{behind_option, option_count, rule_count, function_count, clause_count};
ghost use Rattle.pi_rewrite_sites.specs.OwnNames.{own_name};
ghost use Rattle.pi_rewrite_sites.specs.SiteOf.{site_of};

use pi_rewrite_sites::{Naming, Site, helpers_in, push_names, together};
use pi_syntax::{Clause, Exp, FunctionClause, Part, RuleClause};
use std::alloc::{AllocError, Global};

/// Behind the head of a clause, which fills so many slots, where there are so many helpers before. Errors: no memory.
pub(crate) fn clause_site<'a>(
    alloc: Global,
    naming: &'a Naming,
    helpers: u64,
    filled: u32,
    head: &'a Exp,
) -> Result<Site<'a>, AllocError>
    ensures { IfOk result (λ made. site_of made ≡
        record {
          filled = filled;
          before = behind [] (places (exp_tree head.now));
          helpers = helpers;
          called = own_name naming.now.prefix;
        }) }
{
    let mut names = Vec::new(alloc);
    push_names(false, head, &mut names)?;
    let mut site = Site {
        filled,
        before: Vec::new(alloc),
        helpers,
        naming,
    };
    site.step(names.as_slice(), 0)?;
    Ok(site)
}

/// Goes on behind what may be left out. Errors: no memory.
pub(crate) fn pass_option<'a>(
    alloc: Global,
    site: &mut Site<'a>,
    exp: Option<&'a Exp>,
) -> Result<(), AllocError>
    ensures { IfOk result (λ _. site_of site.new ≡ behind_option (site_of site.old) (option_map exp_tree (option_copied exp.entry))) }
{
    match exp {
        None => Ok(()),
        Some(exp) => {
            site.pass(alloc, exp)?;
            Ok(())
        }
    }
}

/// How many helpers there are behind a part, where there are so many before it. For more than 64 bits hold memory is wanted.
pub(crate) fn behind_part(before: u64, part: &Part) -> Result<u64, AllocError>
    ensures { IfOk result (λ all. all ≡ before + clause_count (part_tree part.now).clause) }
{
    match &part.clause {
        Some(Clause::Rule(rule)) => {
            let all = helpers_in_rule(rule)?;
            together(before, all)
        }
        Some(Clause::Function(function)) => {
            let all = helpers_in_function(function)?;
            together(before, all)
        }
        Some(Clause::Fact { .. }) => Ok(before),
        None => Ok(before),
    }
}

fn helpers_in_rule(rule: &RuleClause) -> Result<u64, AllocError>
    ensures { IfOk result (λ count. count ≡ rule_count (rule_tree rule.now)) }
{
    let some = helpers_in_option(rule.cond())?;
    let more = helpers_in(&rule.body)?;
    together(some, more)
}

fn helpers_in_function(function: &FunctionClause) -> Result<u64, AllocError>
    ensures { IfOk result (λ count. count ≡ function_count (function_tree function.now)) }
{
    let some = helpers_in_option(function.cond())?;
    let more = helpers_in_option(function.body())?;
    let last = helpers_in(&function.value)?;
    let rest = together(more, last)?;
    together(some, rest)
}

fn helpers_in_option(exp: Option<&Exp>) -> Result<u64, AllocError>
    ensures { IfOk result (λ count. count ≡ option_count (option_map exp_tree (option_copied exp.entry))) }
{
    match exp {
        None => Ok(0),
        Some(exp) => helpers_in(exp),
    }
}
