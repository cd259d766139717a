//! Parts, and the predicates and functions that their clauses make.
ghost use Rattle.std.specs.Prelude.{◌≡◌, ◌∷◌, ◌++◌, [], map, List, Some, None, IfOk, option_copied};
ghost use Rattle.std.specs.List.{cons_option};
ghost use Rattle.pi_syntax.specs.ExpTree.{exp_tree};
ghost use Rattle.pi_syntax.specs.ProgramTree as tree;
ghost use Rattle.pi_syntax.specs.ProgramTree.{ProgramTree, part_tree, source_tree};
ghost use Rattle.pi_syntax.specs.Signature.{signature as signature_of};
ghost use Rattle.pi_core.specs.CoreTree.{clause_tree, pred_tree, index_of};
ghost use Rattle.pi_rewrite_spec.specs.Clauses.{Lowering, named_by, with_first, with_next, is_clause_of};
ghost use Rattle.pi_rewrite_spec.specs.Programs.{written_clause, rule_helpers, function_helpers, clause_helpers, clauses_of, helpers_of, core_program};
ghost use Rattle.pi_rewrite_sites.specs.OwnNames.{own_name};
ghost use Rattle.pi_rewrite.specs.Built.{lowered_behind, is_clause_named, program_prefix};

use crate::clauses::{Numbered, lower_fact, lower_function, lower_rule};
use crate::naming::program_naming;
use crate::places::behind_part;
use pi_core::{CoreClause, CoreClauses, CorePred, CorePreds};
use pi_prog::read_prelude;
use pi_rewrite_sites::Naming;
use pi_syntax::{Clause, Decl, Exp, FunctionClause, ModeLists, Modes, Part, Program, RuleClause};
use pi_terms::Text;
use std::alloc::{AllocError, Global};

/// What a clause is of: a predicate or a function, with its number of arguments.
#[derive(Clone, Copy)]
struct Named<'a> {
    name: &'a str,
    arity: u32,
    function: bool,
}

/// The predicates and functions of a program, behind those of the prelude, and behind all of them the helpers of loops.
pub(crate) fn lower_program(alloc: Global, program: &Program) -> Result<CorePreds, AllocError>
    ensures { IfOk result (λ preds. map pred_tree preds ≡
        core_program (own_name (program_prefix (source_tree program.now))) (source_tree program.now)) }
{
    let prelude = read_prelude(alloc)?;
    let naming = program_naming(alloc, prelude.parts.as_slice(), program.parts.as_slice())?;
    let mut preds = Vec::new(alloc);
    let mut helpers = Vec::new(alloc);
    let count = lower_parts(
        alloc,
        &naming,
        0,
        prelude.parts.as_slice(),
        &mut preds,
        &mut helpers,
    )?;
    lower_parts(
        alloc,
        &naming,
        count,
        program.parts.as_slice(),
        &mut preds,
        &mut helpers,
    )?;
    preds.append(&mut helpers)?;
    Ok(CorePreds::from_vec(preds))
}

/// Adds the clauses of these parts and the helpers of their loops, in order, where there are so many helpers before: how
/// many there are then. A part without a clause, as `import` is, adds none.
fn lower_parts(
    alloc: Global,
    naming: &Naming,
    before: u64,
    parts: &[Part],
    preds: &mut Vec<CorePred>,
    helpers: &mut Vec<CorePred>,
) -> Result<u64, AllocError>
    ensures preds { IfOk result (λ count. (rest : ProgramTree) →
        lowered_behind (map pred_tree preds.old.items)
        (clauses_of (own_name naming.now.prefix) before (map part_tree parts.now ++ rest)) ≡
        lowered_behind (map pred_tree preds.new.items) (clauses_of (own_name naming.now.prefix) count rest)) }
    ensures helpers { IfOk result (λ count. (rest : ProgramTree) →
        map pred_tree helpers.old.items ++ helpers_of (own_name naming.now.prefix) before (map part_tree parts.now ++ rest) ≡
        map pred_tree helpers.new.items ++ helpers_of (own_name naming.now.prefix) count rest) }
{
    let mut count = before;
    for part in parts {
        let from = Numbered { naming, count };
        lower_part(alloc, from, part, preds, helpers)?;
        count = behind_part(count, part)?;
    }
    Ok(count)
}

/// Adds the clause of a part and the helpers of its loops, where it has one.
fn lower_part(
    alloc: Global,
    from: Numbered<'_>,
    part: &Part,
    preds: &mut Vec<CorePred>,
    helpers: &mut Vec<CorePred>,
) -> Result<(), AllocError>
    ensures preds { IfOk result (λ _. (rest : List Lowering) →
        lowered_behind (map pred_tree preds.old.items)
        (cons_option (written_clause (own_name from.entry.naming.now.prefix) from.entry.count (index_of part.now.decl)
        (part_tree part.now).clause) rest) ≡ lowered_behind (map pred_tree preds.new.items) rest) }
    ensures helpers { IfOk result (λ _. map pred_tree helpers.new.items ≡
        map pred_tree helpers.old.items ++ clause_helpers (own_name from.entry.naming.now.prefix) from.entry.count
        (part_tree part.now).clause) }
{
    match &part.clause {
        Some(Clause::Rule(rule)) => add_rule(alloc, from, rule, preds, helpers),
        Some(Clause::Function(function)) => add_function(alloc, from, function, preds, helpers),
        Some(Clause::Fact { head }) => {
            let named = signature(head, false)?;
            let clause = lower_fact(alloc, head)?;
            let modes = mode_lists(&part.decl);
            add_clause(alloc, preds, named, modes, clause)?;
            Ok(())
        }
        None => Ok(()),
    }
}

/// Adds a predicate's rule and the helpers of its loops.
fn add_rule(
    alloc: Global,
    from: Numbered<'_>,
    rule: &RuleClause,
    preds: &mut Vec<CorePred>,
    helpers: &mut Vec<CorePred>,
) -> Result<(), AllocError>
    ensures preds { IfOk result (λ _. (rest : List Lowering) →
        lowered_behind (map pred_tree preds.old.items)
        (cons_option (written_clause (own_name from.entry.naming.now.prefix) from.entry.count None
        (Some (tree.rule (tree.rule_tree rule.now)))) rest) ≡ lowered_behind (map pred_tree preds.new.items) rest) }
    ensures helpers { IfOk result (λ _. map pred_tree helpers.new.items ≡
        map pred_tree helpers.old.items ++ rule_helpers (own_name from.entry.naming.now.prefix) from.entry.count
        (tree.rule_tree rule.now)) }
{
    let named = signature(&rule.head, false)?;
    let clause = lower_rule(alloc, from, rule, helpers)?;
    add_clause(alloc, preds, named, None, clause)?;
    Ok(())
}

/// Adds a function's rule and the helpers of its loops.
fn add_function(
    alloc: Global,
    from: Numbered<'_>,
    function: &FunctionClause,
    preds: &mut Vec<CorePred>,
    helpers: &mut Vec<CorePred>,
) -> Result<(), AllocError>
    ensures preds { IfOk result (λ _. (rest : List Lowering) →
        lowered_behind (map pred_tree preds.old.items)
        (cons_option (written_clause (own_name from.entry.naming.now.prefix) from.entry.count None
        (Some (tree.function (tree.function_tree function.now)))) rest) ≡ lowered_behind (map pred_tree preds.new.items) rest) }
    ensures helpers { IfOk result (λ _. map pred_tree helpers.new.items ≡
        map pred_tree helpers.old.items ++ function_helpers (own_name from.entry.naming.now.prefix) from.entry.count
        (tree.function_tree function.now)) }
{
    let named = signature(&function.head, true)?;
    let clause = lower_function(alloc, from, function, helpers)?;
    add_clause(alloc, preds, named, None, clause)?;
    Ok(())
}

/// The mode lists that a part declares.
fn mode_lists(decl: &Decl) -> Option<&ModeLists>
    ensures { option_copied result ≡ index_of decl.now }
{
    match decl {
        Decl::Plain => None,
        Decl::Import(_) => None,
        Decl::Index(lists) => Some(lists),
    }
}

/// Adds a clause to the last predicate or function where it is one of that, else to a new one, which has these mode lists.
fn add_clause(
    alloc: Global,
    preds: &mut Vec<CorePred>,
    named: Named<'_>,
    modes: Option<&ModeLists>,
    clause: CoreClause,
) -> Result<(), AllocError>
    ensures { IfOk result (λ _. (rest : List Lowering) →
        lowered_behind (map pred_tree preds.old.items)
        (record {
          is_function = named.entry.function;
          head = record { name = named.entry.name.now; arity = named.entry.arity };
          modes = option_copied modes.entry;
          clause = clause_tree clause;
        } ∷ rest) ≡
        lowered_behind (map pred_tree preds.new.items) rest) }
{
    let Some(last) = preds.pop() else {
        return begin(alloc, preds, named, modes, clause);
    };
    if is_of(&last, named) {
        return go_on(preds, last, clause);
    }
    preds.push(last)?;
    begin(alloc, preds, named, modes, clause)
}

/// Whether the predicate or function is what a head names.
fn is_of(pred: &CorePred, named: Named<'_>) -> bool
    ensures { result ≡ is_clause_named (pred_tree pred.now) named.entry.function
        (record { name = named.entry.name.now; arity = named.entry.arity }) }
{
    named.function == pred.function && named.name == pred.name.as_str() && named.arity == pred.arity
}

/// Adds a predicate or function with this clause, behind these mode lists.
fn begin(
    alloc: Global,
    preds: &mut Vec<CorePred>,
    named: Named<'_>,
    modes: Option<&ModeLists>,
    clause: CoreClause,
) -> Result<(), AllocError>
    ensures { IfOk result (λ _. map pred_tree preds.new.items ≡
        map pred_tree preds.old.items ++ with_first (record {
          is_function = named.entry.function;
          head = record { name = named.entry.name.now; arity = named.entry.arity };
          modes = option_copied modes.entry;
          clause = clause_tree clause;
        }) ∷ []) }
{
    let made = new_pred(alloc, named, modes, clause)?;
    preds.push(made)?;
    Ok(())
}

/// Adds a predicate or function with one more clause.
fn go_on(preds: &mut Vec<CorePred>, pred: CorePred, clause: CoreClause) -> Result<(), AllocError>
    ensures { IfOk result (λ _. map pred_tree preds.new.items ≡
        map pred_tree preds.old.items ++ with_next (pred_tree pred) (clause_tree clause) ∷ []) }
{
    let more = one_more(pred, clause)?;
    preds.push(more)?;
    Ok(())
}

/// A predicate or function with this clause, behind these mode lists.
fn new_pred(
    alloc: Global,
    named: Named<'_>,
    modes: Option<&ModeLists>,
    clause: CoreClause,
) -> Result<CorePred, AllocError>
    ensures { IfOk result (λ made. pred_tree made ≡
        with_first (record {
          is_function = named.entry.function;
          head = record { name = named.entry.name.now; arity = named.entry.arity };
          modes = option_copied modes.entry;
          clause = clause_tree clause;
        })) }
{
    let decl = declared(alloc, modes)?;
    let mut clauses = CoreClauses::new(alloc);
    clauses.push(clause)?;
    Ok(CorePred {
        name: Text::new(alloc, named.name)?,
        arity: named.arity,
        function: named.function,
        quiet: false,
        decl,
        clauses,
    })
}

/// An `index` with these mode lists, where there are some.
fn declared(alloc: Global, modes: Option<&ModeLists>) -> Result<Decl, AllocError>
    ensures { IfOk result (λ made. index_of made ≡ option_copied modes.entry) }
{
    match modes {
        Some(lists) => {
            let made = copied(alloc, lists.as_slice())?;
            Ok(Decl::Index(made))
        }
        None => Ok(Decl::Plain),
    }
}

/// Mode lists like these.
fn copied(alloc: Global, lists: &[Modes]) -> Result<ModeLists, AllocError>
    ensures { IfOk result (λ made. made ≡ lists.now) }
{
    let mut made = ModeLists::new(alloc)?;
    for modes in lists {
        let copy = modes.copy(alloc)?;
        made.push(copy)?;
    }
    Ok(made)
}

/// The predicate or function with one more clause.
fn one_more(pred: CorePred, clause: CoreClause) -> Result<CorePred, AllocError>
    ensures { IfOk result (λ made. pred_tree made ≡ with_next (pred_tree pred) (clause_tree clause)) }
{
    let mut pred = pred;
    pred.clauses.push(clause)?;
    Ok(pred)
}

/// The name that a head gives, and its number of arguments.
#[tactic(auto, unfolding(pi_syntax::specs::ExpTree::exp_tree))]
fn signature(head: &Exp, function: bool) -> Result<Named<'_>, AllocError>
    ensures named { IfOk result (λ named. named_by (signature_of (exp_tree head.now)) ≡
        record { name = named.name.now; arity = named.arity }) }
    ensures function { IfOk result (λ named. named.function ≡ function) }
{
    match head {
        Exp::Atom(name) => Ok(Named {
            name: name.as_str(),
            arity: 0,
            function,
        }),
        Exp::Call(name, args) => {
            let arity = short(args.len())?;
            Ok(Named {
                name: name.as_str(),
                arity,
                function,
            })
        }
        _ => Ok(Named {
            name: "",
            arity: 0,
            function,
        }),
    }
}

/// A number of arguments, which has 32 bits: for more of them memory is wanted.
fn short(count: usize) -> Result<u32, AllocError>
    ensures { IfOk result (λ made. made ≡ count) }
{
    u32::try_from(count).map_err(|_| AllocError)
}
