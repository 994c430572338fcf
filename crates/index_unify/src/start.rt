ghost use Rattle.std.specs.Prelude.{◌≡◌, ℕ, ◌<◌, length, map, Option, IfOk};
ghost use Rattle.std.specs.List.{AllByRecursion};
ghost use Rattle.core_rules.specs.Term.{Term};
ghost use Rattle.core_rules.specs.Substitution.{replace};
ghost use Rattle.core_rules.specs.Mapped.{AllEntries, telescope_map};
ghost use Rattle.core_rules.specs.InScope.{IsAcyclic};
ghost use Rattle.core_rules.specs.BoundedLaws.{IsFull};
ghost use Rattle.core_rules.specs.Unification.{begin, whole_types as whole_types_lem};
ghost use Rattle.term_pool.specs.Pool.{Extends, tree};
ghost use Rattle.core_terms.specs.Solutions.{AreIn, solved_in};
ghost use Rattle.index_unify.specs.Unified.{EquationStands, context_in, equations_in};
ghost use Rattle.index_unify.specs.State.{AllSettled, StateBelow, replaced, equations_of, state_in};

use crate::equation::Equation;
use crate::state::State;
use core_terms::{Entry, NoMemory, Solutions, Telescope, TermId, TermPool, instantiate, shift};
use std::alloc::Global;

/// The state before the first turn: the types of the context and the equations, in which solved
/// metavariables are replaced, and no solution.
pub(crate) fn begin<S: Solutions>(
    alloc: Global,
    pool: &mut TermPool,
    sol: &S,
    context: &Telescope,
    equations: &[Equation],
) -> Result<State, NoMemory>
    requires context { AllEntries (λ i. i < length pool.old.trees) context.now }
    requires equations { AllByRecursion (EquationStands (length pool.old.trees)) equations.now }
    requires solutions { AreIn pool.old (S.solution sol.now) }
    requires acyclic { IsAcyclic (solved_in pool.old (S.solution sol.now)) }
    ensures extends { Extends pool.old pool.new }
    ensures below { IfOk result (StateBelow (length pool.new.trees)) }
    ensures settled { IfOk result (λ x. AllSettled (solved_in pool.old (S.solution sol.now)) pool.new x.equations.items) }
    ensures is { IfOk result (λ x. (f : ℕ → Option Term) → IsFull (solved_in pool.old (S.solution sol.now)) f → state_in pool.new x
        ≡ begin (telescope_map (replace f) (context_in pool.old context.now)) (map (replaced f) (equations_in pool.old equations.now))) }
{
    let types = whole_types(alloc, pool, sol, context.entries.as_slice())?;
    let equations = instances(alloc, pool, sol, equations)?;
    Ok(State {
        types,
        equations,
        solutions: Vec::new(alloc),
    })
}

/// The types of the variables, each in the whole context, that of the innermost first.
fn whole_types<S: Solutions>(
    alloc: Global,
    pool: &mut TermPool,
    sol: &S,
    entries: &[Entry],
) -> Result<Vec<TermId>, NoMemory>
    requires entries { AllEntries (λ i. i < length pool.old.trees) entries.now }
    requires solutions { AreIn pool.old (S.solution sol.now) }
    requires acyclic { IsAcyclic (solved_in pool.old (S.solution sol.now)) }
    ensures extends { Extends pool.old pool.new }
    ensures below { IfOk result (λ v. AllByRecursion (λ i. i < length pool.new.trees) v.items) }
    ensures is { IfOk result (λ v. (f : ℕ → Option Term) → IsFull (solved_in pool.old (S.solution sol.now)) f
        → map (tree pool.new) v.items ≡ whole_types_lem 0 (telescope_map (replace f) (context_in pool.old entries.now))) }
{
    let mut types = Vec::new(alloc);
    let mut left = entries;
    let mut inside: u32 = 0;
    while let [outer @ .., entry] = left {
        let Some(by) = inside.checked_add(1) else {
            return Err(NoMemory);
        };
        let ty = instantiate(alloc, pool, sol, entry.ty)?;
        let whole = shift(alloc, pool, ty, 0, by)?;
        types.push(whole)?;
        inside = by;
        left = outer;
    }
    Ok(types)
}

/// The equations with solved metavariables replaced, the first one last.
fn instances<S: Solutions>(
    alloc: Global,
    pool: &mut TermPool,
    sol: &S,
    equations: &[Equation],
) -> Result<Vec<Equation>, NoMemory>
    requires equations { AllByRecursion (EquationStands (length pool.old.trees)) equations.now }
    requires solutions { AreIn pool.old (S.solution sol.now) }
    requires acyclic { IsAcyclic (solved_in pool.old (S.solution sol.now)) }
    ensures extends { Extends pool.old pool.new }
    ensures below { IfOk result (λ v. AllByRecursion (EquationStands (length pool.new.trees)) v.items) }
    ensures settled { IfOk result (λ v. AllSettled (solved_in pool.old (S.solution sol.now)) pool.new v.items) }
    ensures is { IfOk result (λ v. (f : ℕ → Option Term) → IsFull (solved_in pool.old (S.solution sol.now)) f
        → equations_of pool.new v.items ≡ map (replaced f) (equations_in pool.old equations.now)) }
{
    let mut all = Vec::new(alloc);
    let mut rest = equations;
    while let [before @ .., equation] = rest {
        let left = instantiate(alloc, pool, sol, equation.left)?;
        let right = instantiate(alloc, pool, sol, equation.right)?;
        all.push(Equation { left, right })?;
        rest = before;
    }
    Ok(all)
}
