ghost use Rattle.std.specs.Prelude.{◌<◌, List, length, map, IfOk, IfSome};
ghost use Rattle.std.specs.List.{AllByRecursion};
ghost use Rattle.core_rules.specs.Term.{Term};
ghost use Rattle.core_rules.specs.Heads.{Solutions};
ghost use Rattle.unify_rules.specs.Unifier.{Applies};
ghost use Rattle.term_pool.specs.Pool.{Pool, tree};
ghost use Rattle.index_unify.specs.State.{IsSettled, RuleBelow, RuleSettled, rule_in};
ghost use Rattle.index_unify.specs.Rules.{IsByConstructors, IsChosen, IsCycle, IsSide, IsSolvable};

use crate::constructors::{argument_equations, con_form};
use crate::cycle::is_under_con;
use crate::dependence::{Target, depends_on};
use crate::equation::{Equation, Solution};
use crate::unified::Reason;
use core_terms::{NoMemory, Node, TermId, TermPool};
use std::alloc::Global;

/// How unification ends before all equations are solved.
#[derive(Clone, Copy)]
pub(crate) enum Ending {
    Refuted(Reason),
    Stuck { left: TermId, right: TermId },
    OutOfFuel,
    OutOfDepth,
}

/// What is to be done with the first equation.
#[derive(Drop)]
pub(crate) enum Rule {
    /// It is dropped.
    Delete,
    /// The variable gets its value everywhere.
    Solve(Solution),
    /// These equations take its place. The first one is last.
    Inject(Vec<Equation>),
    Ends(Ending),
}

/// The rule for two head forms that are not found convertible.
pub(crate) fn rule_of(
    alloc: Global,
    pool: &TermPool,
    types: &[TermId],
    left: TermId,
    right: TermId,
) -> Result<Rule, NoMemory>
    requires types { AllByRecursion (λ i. i < length pool.now.trees) types.now }
    requires left { left < length pool.now.trees }
    requires right { right < length pool.now.trees }
    ensures is { IfOk result (λ r. Applies (map (tree pool.now) types.now) (tree pool.now left) (tree pool.now right)
        (rule_in pool.now r)) }
    ensures below { IfOk result (RuleBelow (length pool.now.trees)) }
    ensures settled { IfOk result (λ r. (s : Solutions) → IsSettled s (tree pool.now left) → IsSettled s (tree pool.now right)
        → RuleSettled s pool.now r) }
{
    if let Some(solution) = chosen(alloc, pool, types, left, right)? {
        return Ok(Rule::Solve(solution));
    }
    if let Some(rule) = by_constructors(alloc, pool, left, right)? {
        return Ok(rule);
    }
    if let Some(var) = cycle(alloc, pool, left, right)? {
        return Ok(Rule::Ends(Ending::Refuted(Reason::Cycle { var })));
    }
    Ok(Rule::Ends(Ending::Stuck { left, right }))
}

/// The variable that is solved, with its value: of two variables the one later in the context, where
/// each could be.
fn chosen(
    alloc: Global,
    pool: &TermPool,
    types: &[TermId],
    left: TermId,
    right: TermId,
) -> Result<Option<Solution>, NoMemory>
    requires types { AllByRecursion (λ i. i < length pool.now.trees) types.now }
    requires left { left < length pool.now.trees }
    requires right { right < length pool.now.trees }
    ensures is { IfOk result (IsChosen (map (tree pool.now) types.now) (tree pool.now left) (tree pool.now right) pool.now) }
    ensures side { IfOk result (IsSide left right) }
{
    let first = solvable(alloc, pool, types, left, right)?;
    let second = solvable(alloc, pool, types, right, left)?;
    Ok(later(first, second, left, right))
}

/// Of two variables that could be solved, if any, the one with the smaller index.
fn later(first: Option<u32>, second: Option<u32>, left: TermId, right: TermId) -> Option<Solution>
    ensures is { (ts : List Term) (p : Pool) → IsSolvable ts (tree p left) (tree p right) first
        → IsSolvable ts (tree p right) (tree p left) second → IsChosen ts (tree p left) (tree p right) p result }
    ensures side { IsSide left right result }
{
    match (first, second) {
        (None, None) => None,
        (Some(var), None) => Some(Solution { var, value: right }),
        (None, Some(var)) => Some(Solution { var, value: left }),
        (Some(var), Some(other)) => {
            if var < other {
                Some(Solution { var, value: right })
            } else {
                Some(Solution {
                    var: other,
                    value: left,
                })
            }
        }
    }
}

/// The variable that `t` is, where `by` can be its value: it does not depend on it.
fn solvable(
    alloc: Global,
    pool: &TermPool,
    types: &[TermId],
    t: TermId,
    by: TermId,
) -> Result<Option<u32>, NoMemory>
    requires types { AllByRecursion (λ i. i < length pool.now.trees) types.now }
    requires t { t < length pool.now.trees }
    requires by { by < length pool.now.trees }
    ensures { IfOk result (IsSolvable (map (tree pool.now) types.now) (tree pool.now t) (tree pool.now by)) }
{
    let Node::Var(var) = pool.node(t) else {
        return Ok(None);
    };
    if depends_on(alloc, pool, types, by, Target::One(var))? {
        return Ok(None);
    }
    Ok(Some(var))
}

/// The rule for two constructors: the equations of their arguments, or that they differ.
fn by_constructors(
    alloc: Global,
    pool: &TermPool,
    left: TermId,
    right: TermId,
) -> Result<Option<Rule>, NoMemory>
    requires left { left < length pool.now.trees }
    requires right { right < length pool.now.trees }
    ensures is { IfOk result (IsByConstructors (tree pool.now left) (tree pool.now right) pool.now) }
    ensures below { IfOk result (λ o. IfSome o (RuleBelow (length pool.now.trees))) }
    ensures settled { IfOk result (λ o. IfSome o (λ r. (s : Solutions) → IsSettled s (tree pool.now left)
        → IsSettled s (tree pool.now right) → RuleSettled s pool.now r)) }
{
    let Some(form) = con_form(alloc, pool, left)? else {
        return Ok(None);
    };
    let Some(other) = con_form(alloc, pool, right)? else {
        return Ok(None);
    };
    if form.con != other.con {
        return Ok(Some(Rule::Ends(Ending::Refuted(Reason::Conflict {
            left: form.con,
            right: other.con,
        }))));
    }
    match argument_equations(alloc, form.args.as_slice(), other.args.as_slice())? {
        Some(equations) => Ok(Some(Rule::Inject(equations))),
        None => Ok(None),
    }
}

/// The variable that one side is and that stands in the other strictly under constructors.
fn cycle(
    alloc: Global,
    pool: &TermPool,
    left: TermId,
    right: TermId,
) -> Result<Option<u32>, NoMemory>
    requires left { left < length pool.now.trees }
    requires right { right < length pool.now.trees }
    ensures { IfOk result (IsCycle (tree pool.now left) (tree pool.now right)) }
{
    if let Node::Var(var) = pool.node(left) {
        if is_under_con(alloc, pool, var, right)? {
            return Ok(Some(var));
        }
    }
    if let Node::Var(var) = pool.node(right) {
        if is_under_con(alloc, pool, var, left)? {
            return Ok(Some(var));
        }
    }
    Ok(None)
}
