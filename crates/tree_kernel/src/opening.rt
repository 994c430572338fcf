//! What a split makes of its context for a constructor.

ghost use Rattle.std.specs.Prelude.{◌≡◌, ◌<◌, length, map, reverse, IfOk};
ghost use Rattle.std.specs.List.{AllByRecursion};
ghost use Rattle.core_rules.specs.Mapped.{AllEntries, AllCon, con_map, telescope_map};
ghost use Rattle.core_rules.specs.TypedTree.{con_context, entries_under, index_equations as equations_of, into, new_con as con_on, opened as opened_by};
ghost use Rattle.term_pool.specs.Pool.{Extends, tree};
ghost use Rattle.index_unify.specs.Unified.{EquationStands, equations_in};
ghost use Rattle.tree_kernel.specs.Stand.{Stand, StandEntries};
ghost use Rattle.tree_kernel.specs.Jobs.{SplitBelow, context_by, split_in};

use crate::environment::{new_con, under_variables, with_new};
use crate::job::Split;
use core_terms::{ConDecl, ConId, Entry, NoMemory, Row, Telescope, TermId, TermPool, shift, under};
use index_unify::Equation;
use std::alloc::Global;

/// Entries under parameters, of which the first one is last here, with these put in.
fn new_entries(
    alloc: Global,
    pool: &mut TermPool,
    params: &[TermId],
    entries: &[Entry],
) -> Result<Vec<Entry>, NoMemory>
    requires params { AllByRecursion (λ i. i < length pool.old.trees) params.now }
    requires entries { AllEntries (λ i. i < length pool.old.trees) entries.now }
    ensures extends { Extends pool.old pool.new }
    ensures is { IfOk result (λ v. StandEntries pool.new v.items
        (entries_under (map (tree pool.old) params.now) 0 (telescope_map (tree pool.old) entries.now))) }
{
    let mut made = Vec::new(alloc);
    let mut count: u32 = 0;
    let mut left = entries;
    while let [entry, more @ ..] = left {
        let env = under_variables(alloc, pool, params, count)?;
        let ty = under(alloc, pool, entry.ty, env.as_slice())?;
        made.push(Entry { ty, ..*entry })?;
        let Some(next) = count.checked_add(1) else {
            return Err(NoMemory);
        };
        count = next;
        left = more;
    }
    Ok(made)
}

/// The context with entries in the place of the variable `var`, for which `u`, on these, is put.
fn opened(
    alloc: Global,
    pool: &mut TermPool,
    context: &[Entry],
    var: u32,
    u: TermId,
    entries: &[Entry],
) -> Result<Telescope, NoMemory>
    requires context { AllEntries (λ i. i < length pool.old.trees) context.now }
    requires var { var < length context.now }
    requires u { u < length pool.old.trees }
    requires entries { AllEntries (λ i. i < length pool.old.trees) entries.now }
    ensures extends { Extends pool.old pool.new }
    ensures below { IfOk result (AllEntries (λ i. i < length pool.new.trees)) }
    ensures is { IfOk result (λ t. context_by (tree pool.new) t ≡ opened_by var (tree pool.old u)
        (telescope_map (tree pool.old) entries.now) (context_by (tree pool.old) context.now)) }
{
    let before = context.len() - 1 - var as usize;
    let (Ok(outside), Ok(count)) = (u32::try_from(before), u32::try_from(entries.len())) else {
        return Err(NoMemory);
    };
    let mut made = Vec::from_slice(alloc, &context[..before])?;
    made.extend_from_slice(entries)?;
    for at in 0..var {
        let entry = context[before + 1 + at as usize];
        let env = with_new(alloc, pool, at, outside, count, u)?;
        let ty = under(alloc, pool, entry.ty, env.as_slice())?;
        made.push(Entry { ty, ..entry })?;
    }
    Ok(Telescope {
        entries: Row::from_vec(made),
    })
}

/// The context of a constructor at a split, and an environment that brings terms of the split there.
#[derive(Drop)]
pub(crate) struct ConSplit {
    pub context: Telescope,
    pub env: Vec<TermId>,
}

/// The split with the constructor on new variables for its variable. `entries` are the arguments of the constructor under the parameters.
pub(crate) fn open_con(
    alloc: Global,
    pool: &mut TermPool,
    split: &Split,
    con: ConId,
    entries: &[Entry],
) -> Result<ConSplit, NoMemory>
    requires split { SplitBelow (length pool.old.trees) split.now }
    requires var { split.now.var < length split.now.context }
    requires entries { AllEntries (λ i. i < length pool.old.trees) entries.now }
    ensures extends { Extends pool.old pool.new }
    ensures below { IfOk result (λ o. AllEntries (λ i. i < length pool.new.trees) o.context) }
    ensures context { IfOk result (λ o. context_by (tree pool.new) o.context
        ≡ con_context (split_in (tree pool.old) split.now) con (telescope_map (tree pool.old) entries.now)) }
    ensures env { IfOk result (λ o. Stand pool.new o.env.items (into split.now.var (length split.now.context)
        (length entries.now) (con_on con (map (tree pool.old) split.now.params.items) (telescope_map (tree pool.old) entries.now)))) }
{
    let params = split.params.as_slice();
    let context = entries_of(&split.context);
    let inner = last_first(alloc, params)?;
    let new = new_entries(alloc, pool, inner.as_slice(), entries)?;
    let u = new_con(alloc, pool, con, params, entries)?;
    let before = context.len() - 1 - split.var as usize;
    let (Ok(outside), Ok(count)) = (u32::try_from(before), u32::try_from(entries.len())) else {
        return Err(NoMemory);
    };
    let env = with_new(alloc, pool, split.var, outside, count, u)?;
    let context = opened(alloc, pool, context, split.var, u, new.as_slice())?;
    Ok(ConSplit { context, env })
}

/// The entries of a context.
pub(crate) fn entries_of(context: &Telescope) -> &[Entry]
    ensures { result.now ≡ context.now }
{
    context.entries.as_slice()
}

/// The terms, the last one first.
pub(crate) fn last_first(alloc: Global, terms: &[TermId]) -> Result<Vec<TermId>, NoMemory>
    ensures { IfOk result (λ v. v.items ≡ reverse terms.now) }
{
    let mut turned = Vec::from_slice(alloc, terms)?;
    turned.as_mut_slice().reverse();
    Ok(turned)
}

/// The equations of the indices of a constructor with those of the variable's type.
pub(crate) fn index_equations(
    alloc: Global,
    pool: &mut TermPool,
    split: &Split,
    con: &ConDecl,
) -> Result<Vec<Equation>, NoMemory>
    requires split { SplitBelow (length pool.old.trees) split.now }
    requires con { AllCon (λ i. i < length pool.old.trees) con.now }
    ensures extends { Extends pool.old pool.new }
    ensures below { IfOk result (λ v. AllByRecursion (EquationStands (length pool.new.trees)) v.items) }
    ensures is { IfOk result (λ v. equations_in pool.new v.items
        ≡ equations_of (split_in (tree pool.old) split.now) (con_map (tree pool.old) con.now)) }
{
    let Ok(count) = u32::try_from(con.args.entries.len()) else {
        return Err(NoMemory);
    };
    let Some(by) = split.var.checked_add(count) else {
        return Err(NoMemory);
    };
    let inner = last_first(alloc, split.params.as_slice())?;
    let env = under_variables(alloc, pool, inner.as_slice(), count)?;
    let mut made = Vec::new(alloc);
    let mut lefts = con.indices.as_slice();
    let mut rights = split.indices.as_slice();
    while let [t, others @ ..] = lefts {
        let [u, more @ ..] = rights else {
            return Ok(made);
        };
        let left = under(alloc, pool, *t, env.as_slice())?;
        let left = shift(alloc, pool, left, 0, split.var)?;
        let right = shift(alloc, pool, *u, 0, by)?;
        made.push(Equation { left, right })?;
        lefts = others;
        rights = more;
    }
    Ok(made)
}
