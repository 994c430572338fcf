ghost use Rattle.std.specs.Prelude.{◌≡◌, ℕ, ◌++◌, ◌<◌, length, map, option_map, reverse, IfOk, IfSome, OnOk};
ghost use Rattle.std.specs.List.{AllByRecursion};
ghost use Rattle.unify_rules.specs.Joined.{first_ready as first_ready_lem, keep_of, order, reverse_onto, unsolved as unsolved_lem, value_of as value_of_lem};
ghost use Rattle.term_pool.specs.Pool.{Pool, tree};
ghost use Rattle.index_unify.specs.Order.{waiting};
ghost use Rattle.index_unify.specs.State.{solutions_of};

use crate::dependence::{Target, depends_on};
use crate::equation::Solution;
use core_terms::{NoMemory, TermId, TermPool};
use std::alloc::Global;

/// The value of a variable, where it is solved.
pub(crate) fn value_of(solutions: &[Solution], var: u32) -> Option<TermId>
    ensures among { (n : ℕ) → AllByRecursion (λ s. s.value < n) solutions.now → IfSome result (λ i. i < n) }
    ensures is { (p : Pool) → option_map (tree p) result ≡ value_of_lem (solutions_of p solutions.now) var }
{
    let mut left = solutions;
    while let [earlier @ .., last] = left {
        if last.var == var {
            return Some(last.value);
        }
        left = earlier;
    }
    None
}

/// The variables that are not solved, each after those that stand in its type and otherwise in the old
/// order, outermost first.
///
/// Each type that is looked at is walked once for each variable that is placed, at most.
pub(crate) fn placed(
    alloc: Global,
    pool: &TermPool,
    types: &[TermId],
    solutions: &[Solution],
    count: u32,
) -> Result<Vec<u32>, NoMemory>
    requires types { AllByRecursion (λ i. i < length pool.now.trees) types.now }
    requires count { count ≡ length types.now }
    ensures below { IfOk result (λ v. AllByRecursion (λ i. i < count) v.items) }
    ensures is { IfOk result (λ v. reverse v.items ≡ keep_of count (map (tree pool.now) types.now) (solutions_of pool.now solutions.now)) }
{
    let mut waits = unsolved(alloc, solutions, count)?;
    let mut placed = Vec::new(alloc);
    place_ready(alloc, pool, types, &mut waits, &mut placed, count)?;
    place_rest(&mut placed, waits.as_slice(), count)?;
    Ok(placed)
}

/// Places those that are ready, one after the other, until none is.
fn place_ready(
    alloc: Global,
    pool: &TermPool,
    types: &[TermId],
    waits: &mut Vec<bool>,
    placed: &mut Vec<u32>,
    count: u32,
) -> Result<(), NoMemory>
    requires types { AllByRecursion (λ i. i < length pool.now.trees) types.now }
    requires count { count ≡ length types.now }
    requires waits { count ≡ length waits.old.items }
    requires placed { AllByRecursion (λ i. i < count) placed.old.items }
    ensures waits { OnOk result (count ≡ length waits.new.items) }
    ensures below { OnOk result (AllByRecursion (λ i. i < count) placed.new.items) }
    ensures is { OnOk result (reverse_onto (waiting waits.new.items count) (reverse placed.new.items)
        ≡ order count (map (tree pool.now) types.now) (waiting waits.old.items count) (reverse placed.old.items)) }
{
    for _turn in 0..count {
        let Some(var) = first_ready(alloc, pool, types, waits.as_slice(), count)? else {
            return Ok(());
        };
        waits[var as usize] = false;
        placed.push(var)?;
    }
    Ok(())
}

/// For each of so many variables whether it is not solved.
fn unsolved(alloc: Global, solutions: &[Solution], count: u32) -> Result<Vec<bool>, NoMemory>
    ensures count { IfOk result (λ bs. length bs.items ≡ count) }
    ensures is { IfOk result (λ bs. (p : Pool) → waiting bs.items count ≡ unsolved_lem (solutions_of p solutions.now) count) }
{
    let mut waits = Vec::new(alloc);
    for var in 0..count {
        waits.push(value_of(solutions, var).is_none())?;
    }
    Ok(waits)
}

/// The outermost of the variables that wait in whose type none of those that wait stands.
fn first_ready(
    alloc: Global,
    pool: &TermPool,
    types: &[TermId],
    waits: &[bool],
    count: u32,
) -> Result<Option<u32>, NoMemory>
    requires types { AllByRecursion (λ i. i < length pool.now.trees) types.now }
    requires count { count ≡ length types.now }
    requires waits { count ≡ length waits.now }
    ensures below { IfOk result (λ o. IfSome o (λ i. i < count)) }
    ensures is { IfOk result (λ o. o ≡ first_ready_lem (map (tree pool.now) types.now) (waiting waits.now count)
        (waiting waits.now count)) }
{
    let mut var = count;
    while var > 0 {
        var -= 1;
        let at = var as usize;
        if waits[at] && !depends_on(alloc, pool, &[], types[at], Target::Marked(waits))? {
            return Ok(Some(var));
        }
    }
    Ok(None)
}

/// Places those that still wait, outermost first. In a context there are none.
fn place_rest(placed: &mut Vec<u32>, waits: &[bool], count: u32) -> Result<(), NoMemory>
    requires waits { count ≡ length waits.now }
    ensures { OnOk result (placed.new.items ≡ placed.old.items ++ waiting waits.now count) }
{
    let mut var = count;
    while var > 0 {
        var -= 1;
        if waits[var as usize] {
            placed.push(var)?;
        }
    }
    Ok(())
}
