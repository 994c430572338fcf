//! What becomes of the spots of a left side in the branch of a constructor.

ghost use Rattle.std.specs.Prelude.{◌≡◌, ◌<◌, ◌≤◌, ◌+◌, ◌++◌, length, map, IfOk};
ghost use Rattle.std.specs.List.{AllByRecursion};
ghost use Rattle.core_rules.specs.Mapped.{AllEntries, branch_map};
ghost use Rattle.term_pool.specs.Pool.{Extends, tree};
ghost use Rattle.index_unify.specs.Unified.{context_in};
ghost use Rattle.lhs_rules.specs.Spots.{branch_spot as spot_there, branch_spots};
ghost use Rattle.lhs_elab.specs.Lefts.{SpotBelow, spot_in};
ghost use Rattle.lhs_elab.specs.Branches.{IsBranch};

use crate::left::{Placed, Spot};
use crate::moving::place;
use core_terms::{Branch, Entry, NoMemory, Telescope, TermId, TermPool, shift, under};
use std::alloc::Global;

/// The entries of a context.
pub(crate) fn entries_of(context: &Telescope) -> &[Entry]
    ensures { result.now ≡ context.now }
{
    context.entries.as_slice()
}

/// The entries of the context of a branch.
pub(crate) fn context_of(branch: &Branch) -> &[Entry]
    ensures { result.now ≡ branch.now.context }
{
    entries_of(&branch.context)
}

/// How many variables a branch keeps.
pub(crate) fn size_of(branch: &Branch) -> usize
    ensures { result ≡ length branch.now.context }
{
    entries_of(&branch.context).len()
}

/// The variables that a branch keeps, the innermost first.
fn keep_of(branch: &Branch) -> &[u32]
    ensures { result.now ≡ branch.now.keep }
{
    branch.keep.as_slice()
}

/// The values of all variables in a branch, the innermost first.
pub(crate) fn values_of(branch: &Branch) -> &[TermId]
    ensures { result.now ≡ branch.now.values }
{
    branch.subst.as_slice()
}

/// What becomes of the variable of the constructor's context outside which there are so many entries.
pub(crate) fn branch_spot(
    alloc: Global,
    pool: &mut TermPool,
    context: &[Entry],
    branch: &Branch,
    level: u32,
) -> Result<Spot, NoMemory>
    requires context { AllEntries (λ i. i < length pool.old.trees) context.now }
    requires branch { IsBranch (length pool.old.trees) (length context.now) branch.now }
    requires level { level < length context.now }
    ensures extends { Extends pool.old pool.new }
    ensures below { IfOk result (SpotBelow (length pool.new.trees) (length branch.now.context)) }
    ensures is { IfOk result (λ s. spot_in (tree pool.new) s
        ≡ spot_there (context_in pool.old context.now) (branch_map (tree pool.old) branch.now) level) }
{
    let Ok(count) = u32::try_from(context.len()) else {
        return Err(NoMemory);
    };
    let inner = count - level;
    let index = inner - 1;
    let kept = size_of(branch);
    if let Some(at) = place(keep_of(branch), index) {
        let Ok(outside) = u32::try_from(kept - 1 - at) else {
            return Err(NoMemory);
        };
        return Ok(Spot::Var(outside));
    }
    let Ok(outer) = u32::try_from(kept) else {
        return Err(NoMemory);
    };
    let values = values_of(branch);
    let value = values[index as usize];
    let entry = context[level as usize];
    let whole = shift(alloc, pool, entry.ty, 0, inner)?;
    let ty = under(alloc, pool, whole, values)?;
    Ok(Spot::Value(Placed { value, ty, outer }))
}

/// The spots, and after them what becomes of so many variables of the constructor's context, outside the first of which there are `from`
/// entries.
pub(crate) fn with_branch_spots(
    alloc: Global,
    pool: &mut TermPool,
    context: &[Entry],
    branch: &Branch,
    spots: Vec<Spot>,
    from: u32,
    count: u32,
) -> Result<Vec<Spot>, NoMemory>
    requires context { AllEntries (λ i. i < length pool.old.trees) context.now }
    requires branch { IsBranch (length pool.old.trees) (length context.now) branch.now }
    requires spots { AllByRecursion (SpotBelow (length pool.old.trees) (length branch.now.context)) spots.items }
    requires within { from + count ≤ length context.now }
    ensures extends { Extends pool.old pool.new }
    ensures below { IfOk result (λ v. AllByRecursion (SpotBelow (length pool.new.trees) (length branch.now.context)) v.items) }
    ensures is { IfOk result (λ v. map (spot_in (tree pool.new)) v.items ≡ map (spot_in (tree pool.old)) spots.items
        ++ branch_spots (context_in pool.old context.now) (branch_map (tree pool.old) branch.now) from count) }
{
    let mut made = spots;
    let mut at = from;
    let mut left = count;
    while left > 0 {
        let spot = branch_spot(alloc, pool, context, branch, at)?;
        made.push(spot)?;
        let Some(next) = at.checked_add(1) else {
            return Err(NoMemory);
        };
        at = next;
        left -= 1;
    }
    Ok(made)
}
