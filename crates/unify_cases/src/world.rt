ghost use Rattle.std.specs.Prelude.{◌<◌, length, IfOk, IsTrue};
ghost use Rattle.std.specs.List.{AllByRecursion};
ghost use Rattle.core_rules.specs.Mapped.{AllEntries};
ghost use Rattle.core_terms.specs.Signature.{Stands};
ghost use Rattle.index_unify.specs.Unified.{EquationStands};

use case_terms::{Fault, Metas, Solved, are_entries, is_chain, is_in, signature_of};
use core_terms::{CoreDecl, Limits, NoSolutions, Signature, Telescope, TermPool};
use index_unify::{Equation, Unified, unify};
use std::alloc::Global;

/// A pool, the signature over it, and which metavariables are solved.
#[derive(Drop)]
pub struct World {
    alloc: Global,
    pub pool: TermPool,
    pub sig: Signature,
    metas: Metas,
}

impl World {
    /// With these declarations.
    pub fn over(
        alloc: Global,
        pool: TermPool,
        decls: Vec<CoreDecl>,
        metas: Metas,
    ) -> Result<World, Fault>
        ensures { IfOk result (λ w. Stands w.pool w.sig) }
    {
        let sig = signature_of(alloc, &pool, decls)?;
        Ok(World {
            alloc,
            pool,
            sig,
            metas,
        })
    }

    /// What the equations ask of the variables of the context.
    pub fn unify(
        &mut self,
        context: &Telescope,
        equations: &[Equation],
        limits: Limits,
    ) -> Result<Unified, Fault>
        requires { Stands self.old.pool self.old.sig }
    {
        if !are_entries(&self.pool, context.entries.as_slice())
            || !are_equations(&self.pool, equations)
        {
            return Err(Fault::Stray);
        }
        let alloc = self.alloc;
        match self.metas {
            Metas::Unsolved => {
                Ok(unsolved(alloc, &mut self.pool, &self.sig, context, equations, limits))
            }
            Metas::Solved(metas) => {
                solved(
                    alloc,
                    &mut self.pool,
                    &self.sig,
                    &metas,
                    context,
                    equations,
                    limits,
                )
            }
        }
    }
}

/// Whether both sides of each equation stand in the pool.
fn are_equations(pool: &TermPool, equations: &[Equation]) -> bool
    ensures { IsTrue result → AllByRecursion (EquationStands (length pool.now.trees)) equations.now }
{
    let mut left = equations;
    while let [equation, more @ ..] = left {
        if !is_in(pool, equation.left) || !is_in(pool, equation.right) {
            return false;
        }
        left = more;
    }
    true
}

#[tactic(auto, using(case_terms::proofs::Chains::stands))]
fn unsolved(
    alloc: Global,
    pool: &mut TermPool,
    sig: &Signature,
    context: &Telescope,
    equations: &[Equation],
    limits: Limits,
) -> Unified
    requires stands { Stands pool.old sig.now }
    requires context { AllEntries (λ i. i < length pool.old.trees) context.now }
    requires equations { AllByRecursion (EquationStands (length pool.old.trees)) equations.now }
{
    unify(alloc, pool, sig, &NoSolutions, context, equations, limits)
}

#[tactic(auto, using(case_terms::proofs::Chains::stands))]
fn solved(
    alloc: Global,
    pool: &mut TermPool,
    sig: &Signature,
    metas: &Solved,
    context: &Telescope,
    equations: &[Equation],
    limits: Limits,
) -> Result<Unified, Fault>
    requires stands { Stands pool.old sig.now }
    requires context { AllEntries (λ i. i < length pool.old.trees) context.now }
    requires equations { AllByRecursion (EquationStands (length pool.old.trees)) equations.now }
{
    if !is_chain(pool, metas) {
        return Err(Fault::Stray);
    }
    Ok(unify(alloc, pool, sig, metas, context, equations, limits))
}
