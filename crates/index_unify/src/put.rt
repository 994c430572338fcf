ghost use Rattle.std.specs.Prelude.{◌≡◌, ◌<◌, length, map, IfOk};
ghost use Rattle.std.specs.List.{AllByRecursion};
ghost use Rattle.core_rules.specs.Unification.{put, put_equation, put_in_solution};
ghost use Rattle.term_pool.specs.Pool.{Extends, StandsFor, tree};
ghost use Rattle.index_unify.specs.State.{solution_in};
ghost use Rattle.index_unify.specs.Unified.{EquationStands, equation_in};

use crate::equation::{Equation, Solution};
use core_terms::{NoMemory, TermId, TermPool, shift, subst};
use std::alloc::Global;

/// The term with the value of a solution for its variable, which stays in the context. A term that
/// does not reach the variable is not walked. A variable that would reach 2^32 is out of memory.
pub(crate) fn put(
    alloc: Global,
    pool: &mut TermPool,
    solution: &Solution,
    t: TermId,
) -> Result<TermId, NoMemory>
    requires value { solution.now.value < length pool.old.trees }
    requires t { t < length pool.old.trees }
    ensures extends { Extends pool.old pool.new }
    ensures is { IfOk result (λ r. StandsFor pool.new r (put solution.now.var (tree pool.old solution.now.value) (tree pool.old t))) }
{
    let Some(next) = solution.var.checked_add(1) else {
        return Err(NoMemory);
    };
    let risen = shift(alloc, pool, t, next, 1)?;
    let made = subst(alloc, pool, risen, solution.var, solution.value)?;
    Ok(made)
}

/// It in each of the terms.
pub(crate) fn put_in_terms(
    alloc: Global,
    pool: &mut TermPool,
    solution: &Solution,
    terms: &[TermId],
) -> Result<Vec<TermId>, NoMemory>
    requires value { solution.now.value < length pool.old.trees }
    requires terms { AllByRecursion (λ i. i < length pool.old.trees) terms.now }
    ensures extends { Extends pool.old pool.new }
    ensures below { IfOk result (λ v. AllByRecursion (λ i. i < length pool.new.trees) v.items) }
    ensures is { IfOk result (λ v. map (tree pool.new) v.items
        ≡ map (put solution.now.var (tree pool.old solution.now.value)) (map (tree pool.old) terms.now)) }
{
    let mut all = Vec::new(alloc);
    for t in terms {
        let made = put(alloc, pool, solution, *t)?;
        all.push(made)?;
    }
    Ok(all)
}

/// It in both sides of each of the equations.
pub(crate) fn put_in_equations(
    alloc: Global,
    pool: &mut TermPool,
    solution: &Solution,
    equations: &[Equation],
) -> Result<Vec<Equation>, NoMemory>
    requires value { solution.now.value < length pool.old.trees }
    requires equations { AllByRecursion (EquationStands (length pool.old.trees)) equations.now }
    ensures extends { Extends pool.old pool.new }
    ensures below { IfOk result (λ v. AllByRecursion (EquationStands (length pool.new.trees)) v.items) }
    ensures is { IfOk result (λ v. map (equation_in (tree pool.new)) v.items
        ≡ map (put_equation solution.now.var (tree pool.old solution.now.value)) (map (equation_in (tree pool.old)) equations.now)) }
{
    let mut all = Vec::new(alloc);
    for equation in equations {
        let left = put(alloc, pool, solution, equation.left)?;
        let right = put(alloc, pool, solution, equation.right)?;
        all.push(Equation { left, right })?;
    }
    Ok(all)
}

/// It in the value of each of the solutions.
pub(crate) fn put_in_solutions(
    alloc: Global,
    pool: &mut TermPool,
    solution: &Solution,
    solutions: &[Solution],
) -> Result<Vec<Solution>, NoMemory>
    requires value { solution.now.value < length pool.old.trees }
    requires solutions { AllByRecursion (λ s. s.value < length pool.old.trees) solutions.now }
    ensures extends { Extends pool.old pool.new }
    ensures below { IfOk result (λ v. AllByRecursion (λ s. s.value < length pool.new.trees) v.items) }
    ensures is { IfOk result (λ v. map (solution_in (tree pool.new)) v.items
        ≡ map (put_in_solution solution.now.var (tree pool.old solution.now.value)) (map (solution_in (tree pool.old)) solutions.now)) }
{
    let mut all = Vec::new(alloc);
    for earlier in solutions {
        let value = put(alloc, pool, solution, earlier.value)?;
        all.push(Solution {
            var: earlier.var,
            value,
        })?;
    }
    Ok(all)
}
