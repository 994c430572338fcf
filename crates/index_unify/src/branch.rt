ghost use Rattle.std.specs.Prelude.{◌≡◌, ◌<◌, length, map, reverse, slice_get, IfOk, OnOk};
ghost use Rattle.std.specs.List.{AllByRecursion};
ghost use Rattle.core_rules.specs.Term.{Term};
ghost use Rattle.core_rules.specs.Mapped.{AllBranch, AllEntries, branch_map, telescope_map};
ghost use Rattle.unify_rules.specs.Joined.{branch_of as branch_of_lem, entries_of, value_of as value_of_lem, value_or_place as value_or_place_lem, values_from};
ghost use Rattle.term_pool.specs.Pool.{Extends, StandsFor, tree};
ghost use Rattle.index_unify.specs.Unified.{context_in};
ghost use Rattle.index_unify.specs.State.{StateBelow, solutions_of};
ghost use Rattle.index_unify.specs.Renaming.{IsRenaming, with_type_ids};

use crate::equation::Solution;
use crate::order::{placed, value_of};
use crate::rename::{Renaming, place, rename};
use crate::state::State;
use core_terms::{Branch, Entry, NoMemory, Node, Row, Telescope, TermId, TermPool};
use std::alloc::Global;

/// The branch of the context where all equations are solved.
pub(crate) fn branch_of(
    alloc: Global,
    pool: &mut TermPool,
    context: &Telescope,
    state: &State,
) -> Result<Branch, NoMemory>
    requires state { StateBelow (length pool.old.trees) state.now }
    requires types { length state.now.types.items ≡ length context.now }
    ensures extends { Extends pool.old pool.new }
    ensures below { IfOk result (AllBranch (λ i. i < length pool.new.trees)) }
    ensures is { IfOk result (λ b. (h : Term → Term) → branch_map (tree pool.new) b
        ≡ branch_of_lem (telescope_map h (context_in pool.old context.now)) (map (tree pool.old) state.now.types.items)
        (solutions_of pool.old state.now.solutions.items)) }
{
    let old = context.entries.as_slice();
    let Ok(count) = u32::try_from(old.len()) else {
        return Err(NoMemory);
    };
    let mut keep = placed(
        alloc,
        pool,
        state.types.as_slice(),
        state.solutions.as_slice(),
        count,
    )?;
    keep.as_mut_slice().reverse();
    let entries = entries(alloc, pool, old, state.types.as_slice(), keep.as_slice())?;
    let values = values(
        alloc,
        pool,
        state.solutions.as_slice(),
        keep.as_slice(),
        count,
    )?;
    Ok(Branch {
        context: Telescope {
            entries: Row::from_vec(entries),
        },
        subst: Row::from_vec(values),
        keep: Row::from_vec(keep),
    })
}

/// The entries of these variables, which stand innermost first: each with its name and flag, and its
/// type in the context of those outside it. The outermost entry is the first.
fn entries(
    alloc: Global,
    pool: &mut TermPool,
    old: &[Entry],
    types: &[TermId],
    keep: &[u32],
) -> Result<Vec<Entry>, NoMemory>
    requires types { AllByRecursion (λ i. i < length pool.old.trees) types.now }
    requires count { length types.now ≡ length old.now }
    requires keep { AllByRecursion (λ i. i < length types.now) keep.now }
    ensures extends { Extends pool.old pool.new }
    ensures below { IfOk result (λ v. AllEntries (λ i. i < length pool.new.trees) v.items) }
    ensures is { IfOk result (λ v. (h : Term → Term) → telescope_map (tree pool.new) v.items
        ≡ reverse (entries_of (telescope_map h (context_in pool.old old.now)) (map (tree pool.old) types.now) keep.now)) }
{
    let mut all = Vec::new(alloc);
    let mut left = keep.len();
    while left > 0 {
        left -= 1;
        let at = keep[left] as usize;
        let mut renaming = Renaming {
            keep: &keep[left + 1..],
            terms: Vec::new(alloc),
        };
        let ty = rename(alloc, pool, &mut renaming, types[at])?;
        all.push(with_type(old, at, ty))?;
    }
    Ok(all)
}

/// The entry of variable `at` with this type.
fn with_type(old: &[Entry], at: usize, ty: TermId) -> Entry
    requires { at < length old.now }
    ensures { result ≡ with_type_ids (slice_get (reverse old.now) at) ty }
{
    let entry = old[old.len() - 1 - at];
    Entry { ty, ..entry }
}

/// For each variable of the old context its value, or its place.
fn values(
    alloc: Global,
    pool: &mut TermPool,
    solutions: &[Solution],
    keep: &[u32],
    count: u32,
) -> Result<Vec<TermId>, NoMemory>
    requires solutions { AllByRecursion (λ s. s.value < length pool.old.trees) solutions.now }
    ensures extends { Extends pool.old pool.new }
    ensures below { IfOk result (λ v. AllByRecursion (λ i. i < length pool.new.trees) v.items) }
    ensures is { IfOk result (λ v. map (tree pool.new) v.items ≡ values_from (solutions_of pool.old solutions.now) keep.now 0 count) }
{
    let mut all = Vec::new(alloc);
    let mut renaming = Renaming {
        keep,
        terms: Vec::new(alloc),
    };
    for var in 0..count {
        let made = value_or_place(alloc, pool, solutions, &mut renaming, var)?;
        all.push(made)?;
    }
    Ok(all)
}

/// The value of a variable, or its place where it is not solved.
fn value_or_place(
    alloc: Global,
    pool: &mut TermPool,
    solutions: &[Solution],
    renaming: &mut Renaming,
    var: u32,
) -> Result<TermId, NoMemory>
    requires solutions { AllByRecursion (λ s. s.value < length pool.old.trees) solutions.now }
    requires renaming { IsRenaming pool.old renaming.old.keep.now renaming.old.terms.items }
    ensures extends { Extends pool.old pool.new }
    ensures is { IfOk result (λ r. StandsFor pool.new r
        (value_or_place_lem renaming.old.keep.now var (value_of_lem (solutions_of pool.old solutions.now) var))) }
    ensures renaming { OnOk result (IsRenaming pool.new renaming.old.keep.now renaming.new.terms.items) }
    ensures keep { renaming.new.keep ≡ renaming.old.keep }
{
    match value_of(solutions, var) {
        Some(value) => rename(alloc, pool, renaming, value),
        None => {
            let place = place(renaming.keep, var)?;
            pool.add(Node::Var(place))
        }
    }
}
