ghost use Rattle.std.specs.Prelude.{◌≡◌, ℕ, ◌<◌, ◌∷◌, length, map, Option, IfOk, OnOk};
ghost use Rattle.std.specs.List.{AllByRecursion};
ghost use Rattle.core_rules.specs.Term.{Term};
ghost use Rattle.core_rules.specs.Substitution.{replace};
ghost use Rattle.core_rules.specs.Mapped.{AllEntries, signature_map, telescope_map};
ghost use Rattle.core_rules.specs.InScope.{IsAcyclic};
ghost use Rattle.core_rules.specs.BoundedLaws.{IsFull};
ghost use Rattle.core_rules.specs.Unification.{St};
ghost use Rattle.unify_rules.specs.Unifier.{Turn, UnifyOf};
ghost use Rattle.term_pool.specs.Pool.{Extends, tree};
ghost use Rattle.core_terms.specs.Signature.{Stands, signature_in};
ghost use Rattle.core_terms.specs.Solutions.{AreIn, solved_in};
ghost use Rattle.index_unify.specs.Unified.{ByOutcome, EquationStands, IsAnswered, IsUnified, context_in, equation_in, equations_in};
ghost use Rattle.index_unify.specs.State.{AllSettled, EndsBelow, EquationSettled, StateBelow, ended, equations_of, next_in, solutions_of};

use crate::branch::branch_of;
use crate::equation::Equation;
use crate::rule::Ending;
use crate::ruling::rule_for;
use crate::start::begin;
use crate::state::{State, apply};
use crate::unified::Unified;
use core_terms::{Limits, NoMemory, Signature, Solutions, Telescope, TermPool};
use std::alloc::Global;

/// What the equations ask of the variables of the context, all of which may be solved, with the fuel of
/// `limits` for each head form and its depth for each comparison. It is exactly what the rules give on
/// the signature, the context and the equations with solved metavariables replaced; out of memory is the
/// one other answer. What the answers say by steps of unification are laws of these rules: `unify_rules`,
/// module `laws`.
///
/// Each solution costs a walk of the types, the equations and the solutions, once for each shared node.
pub fn unify<S: Solutions>(
    alloc: Global,
    pool: &mut TermPool,
    sig: &Signature,
    sol: &S,
    context: &Telescope,
    equations: &[Equation],
    limits: Limits,
) -> Unified
    requires context { AllEntries (λ i. i < length pool.old.trees) context.now }
    requires equations { AllByRecursion (EquationStands (length pool.old.trees)) equations.now }
    requires stands { Stands pool.old sig.now }
    requires solutions { AreIn pool.old (S.solution sol.now) }
    requires acyclic { IsAcyclic (solved_in pool.old (S.solution sol.now)) }
    ensures extends { Extends pool.old pool.new }
    ensures answer { (f : ℕ → Option Term) → IsFull (solved_in pool.old (S.solution sol.now)) f
        → IsUnified (UnifyOf (signature_in pool.old sig.now) f limits.fuel limits.depth
        (context_in pool.old context.now) (equations_in pool.old equations.now))
        pool.new (telescope_map (replace f) (context_in pool.old context.now)) result }
    ensures unified { (f : ℕ → Option Term) → IsFull (solved_in pool.old (S.solution sol.now)) f
        → IsAnswered (ByOutcome (UnifyOf (signature_in pool.old sig.now) f limits.fuel limits.depth
        (context_in pool.old context.now) (equations_in pool.old equations.now))
        (telescope_map (replace f) (context_in pool.old context.now))) pool.new result }
{
    match run(alloc, pool, sig, sol, context, equations, limits) {
        Ok(answer) => answer,
        Err(NoMemory) => Unified::NoMemory,
    }
}

fn run<S: Solutions>(
    alloc: Global,
    pool: &mut TermPool,
    sig: &Signature,
    sol: &S,
    context: &Telescope,
    equations: &[Equation],
    limits: Limits,
) -> Result<Unified, NoMemory>
    requires context { AllEntries (λ i. i < length pool.old.trees) context.now }
    requires equations { AllByRecursion (EquationStands (length pool.old.trees)) equations.now }
    requires stands { Stands pool.old sig.now }
    requires solutions { AreIn pool.old (S.solution sol.now) }
    requires acyclic { IsAcyclic (solved_in pool.old (S.solution sol.now)) }
    ensures extends { Extends pool.old pool.new }
    ensures answer { IfOk result (λ o. (f : ℕ → Option Term) → IsFull (solved_in pool.old (S.solution sol.now)) f
        → IsUnified (UnifyOf (signature_in pool.old sig.now) f limits.fuel limits.depth
        (context_in pool.old context.now) (equations_in pool.old equations.now))
        pool.new (telescope_map (replace f) (context_in pool.old context.now)) o) }
{
    let mut state = begin(alloc, pool, sol, context, equations)?;
    while let Some(equation) = state.equations.pop() {
        if let Some(ending) = turn(alloc, pool, sig, sol, &mut state, equation, limits)? {
            return Ok(ended(ending));
        }
    }
    let branch = branch_of(alloc, pool, context, &state)?;
    Ok(Unified::Solved(branch))
}

/// One turn, with the first equation, which is taken out of the state: how unification ends by it, if
/// it ends.
fn turn<S: Solutions>(
    alloc: Global,
    pool: &mut TermPool,
    sig: &Signature,
    sol: &S,
    state: &mut State,
    equation: Equation,
    limits: Limits,
) -> Result<Option<Ending>, NoMemory>
    requires state { StateBelow (length pool.old.trees) state.old }
    requires equation { EquationStands (length pool.old.trees) equation }
    requires first { EquationSettled (solved_in pool.old (S.solution sol.now)) pool.old equation }
    requires settled { AllSettled (solved_in pool.old (S.solution sol.now)) pool.old state.old.equations.items }
    requires stands { Stands pool.old sig.now }
    requires solutions { AreIn pool.old (S.solution sol.now) }
    requires acyclic { IsAcyclic (solved_in pool.old (S.solution sol.now)) }
    ensures extends { Extends pool.old pool.new }
    ensures below { OnOk result (StateBelow (length pool.new.trees) state.new) }
    ensures ends { IfOk result (EndsBelow (length pool.new.trees)) }
    ensures count { OnOk result (length state.new.types.items ≡ length state.old.types.items) }
    ensures settled { OnOk result (AllSettled (solved_in pool.old (S.solution sol.now)) pool.new state.new.equations.items) }
    ensures is { IfOk result (λ o. (f : ℕ → Option Term) → IsFull (solved_in pool.old (S.solution sol.now)) f
        → Turn (signature_map (replace f) (signature_in pool.old sig.now)) limits.fuel limits.depth
        (St (map (tree pool.old) state.old.types.items)
        (equation_in (tree pool.old) equation ∷ equations_of pool.old state.old.equations.items)
        (solutions_of pool.old state.old.solutions.items))
        (next_in pool.new o state.new)) }
{
    let rule = rule_for(
        alloc,
        pool,
        sig,
        sol,
        state.types.as_slice(),
        equation,
        limits,
    )?;
    apply(alloc, pool, state, rule)
}

fn ended(ending: Ending) -> Unified
    ensures { result ≡ ended ending }
{
    match ending {
        Ending::Refuted(reason) => Unified::Refuted(reason),
        Ending::Stuck { left, right } => Unified::Stuck { left, right },
        Ending::OutOfFuel => Unified::OutOfFuel,
        Ending::OutOfDepth => Unified::OutOfDepth,
    }
}
