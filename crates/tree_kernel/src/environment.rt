//! Environments that a split puts terms under, and a constructor on new variables.

ghost use Rattle.std.specs.Prelude.{◌<◌, ◌+◌, List, ◌∷◌, ◌++◌, length, map, IfOk, OnOk};
ghost use Rattle.std.specs.List.{AllByRecursion};
ghost use Rattle.core_rules.specs.Term.{Term};
ghost use Rattle.core_rules.specs.Substitution.{shift as shifted};
ghost use Rattle.core_rules.specs.Mapped.{telescope_map};
ghost use Rattle.core_rules.specs.Elimination.{elims, args, vars_from};
ghost use Rattle.core_rules.specs.TypedTree.{new_con as con_on, vars};
ghost use Rattle.term_pool.specs.Pool.{Extends, StandsFor, tree};
ghost use Rattle.tree_kernel.specs.Stand.{Stand};

use core_terms::{ConId, Entry, NoMemory, Node, TermId, TermPool, shift};
use std::alloc::Global;

/// So many variables from this one on.
pub(crate) fn variables(
    alloc: Global,
    pool: &mut TermPool,
    from: u32,
    count: u32,
) -> Result<Vec<TermId>, NoMemory>
    ensures extends { Extends pool.old pool.new }
    ensures is { IfOk result (λ v. Stand pool.new v.items (vars from count)) }
{
    let mut all = Vec::new(alloc);
    for i in 0..count {
        let Some(index) = from.checked_add(i) else {
            return Err(NoMemory);
        };
        let var = pool.add(Node::Var(index))?;
        all.push(var)?;
    }
    Ok(all)
}

/// The terms with their variables raised by `by`, after the terms that the list has.
fn put_raised(
    alloc: Global,
    pool: &mut TermPool,
    list: &mut Vec<TermId>,
    terms: &[TermId],
    by: u32,
) -> Result<(), NoMemory>
    requires terms { AllByRecursion (λ i. i < length pool.old.trees) terms.now }
    ensures extends { Extends pool.old pool.new }
    ensures is { OnOk result ((ts : List Term) → Stand pool.old list.old.items ts
        → Stand pool.new list.new.items (ts ++ map (λ t. shifted t 0 by) (map (tree pool.old) terms.now))) }
{
    let mut left = terms;
    while let [term, more @ ..] = left {
        let raised = shift(alloc, pool, *term, 0, by)?;
        list.push(raised)?;
        left = more;
    }
    Ok(())
}

/// The head at the variables of the entries, each given as its entry is.
fn at_variables(pool: &mut TermPool, head: TermId, entries: &[Entry]) -> Result<TermId, NoMemory>
    requires head { head < length pool.old.trees }
    ensures extends { Extends pool.old pool.new }
    ensures is { IfOk result (λ t. StandsFor pool.new t (elims (tree pool.old head)
        (args (telescope_map (tree pool.old) entries.now) (vars_from 0 (length entries.now))))) }
{
    let mut made = head;
    let mut left = entries;
    while let [entry, more @ ..] = left {
        let Ok(index) = u32::try_from(more.len()) else {
            return Err(NoMemory);
        };
        let arg = pool.add(Node::Var(index))?;
        let next = pool.add(Node::App {
            flag: entry.flag,
            fun: made,
            arg,
        })?;
        made = next;
        left = more;
    }
    Ok(made)
}

/// A constructor at parameters, with as many new variables as entries as its arguments; the parameters stand outside these.
pub(crate) fn new_con(
    alloc: Global,
    pool: &mut TermPool,
    con: ConId,
    params: &[TermId],
    entries: &[Entry],
) -> Result<TermId, NoMemory>
    requires params { AllByRecursion (λ i. i < length pool.old.trees) params.now }
    ensures extends { Extends pool.old pool.new }
    ensures is { IfOk result (λ t. StandsFor pool.new t (con_on con (map (tree pool.old) params.now)
        (telescope_map (tree pool.old) entries.now))) }
{
    let Ok(count) = u32::try_from(entries.len()) else {
        return Err(NoMemory);
    };
    let mut raised = Vec::new(alloc);
    put_raised(alloc, pool, &mut raised, params, count)?;
    let params = pool.add_args(raised.as_slice())?;
    let head = pool.add(Node::Con { con, params })?;
    at_variables(pool, head, entries)
}

/// An environment for terms that stand under parameters, the first one last, and inside these under `count` variables, which stay.
pub(crate) fn under_variables(
    alloc: Global,
    pool: &mut TermPool,
    params: &[TermId],
    count: u32,
) -> Result<Vec<TermId>, NoMemory>
    requires params { AllByRecursion (λ i. i < length pool.old.trees) params.now }
    ensures extends { Extends pool.old pool.new }
    ensures is { IfOk result (λ v. Stand pool.new v.items
        (vars 0 count ++ map (λ t. shifted t 0 count) (map (tree pool.old) params.now))) }
{
    let mut env = variables(alloc, pool, 0, count)?;
    put_raised(alloc, pool, &mut env, params, count)?;
    Ok(env)
}

/// An environment for terms of a context in which `u`, on `count` new variables, is put for the variable `at`, outside which there are
/// `outside` entries.
pub(crate) fn with_new(
    alloc: Global,
    pool: &mut TermPool,
    at: u32,
    outside: u32,
    count: u32,
    u: TermId,
) -> Result<Vec<TermId>, NoMemory>
    requires u { u < length pool.old.trees }
    ensures extends { Extends pool.old pool.new }
    ensures is { IfOk result (λ v. Stand pool.new v.items
        (vars 0 at ++ shifted (tree pool.old u) 0 at ∷ vars (at + count) outside)) }
{
    let mut env = variables(alloc, pool, 0, at)?;
    let raised = shift(alloc, pool, u, 0, at)?;
    let Some(from) = at.checked_add(count) else {
        return Err(NoMemory);
    };
    let after = variables(alloc, pool, from, outside)?;
    env.push(raised)?;
    env.extend_from_slice(after.as_slice())?;
    Ok(env)
}
