ghost use Rattle.std.specs.Prelude.{◌<◌, length, IfOk};
ghost use Rattle.core_terms.specs.Signature.{Stands};

use case_terms::{Bodies, Fault, Metas, Solved, is_chain, is_in, signature};
use conversion::{Conv, convert};
use core_terms::{Limits, NameId, NoSolutions, Signature, TermId, TermPool};
use std::alloc::Global;
use std::io;

/// Two terms.
#[derive(Clone, Copy)]
pub struct Pair {
    pub left: TermId,
    pub right: TermId,
}

/// A pool, the signature over it, and which metavariables are solved.
#[derive(Drop)]
pub struct World {
    alloc: Global,
    pub pool: TermPool,
    pub sig: Signature,
    metas: Metas,
}

impl World {
    pub fn over(
        alloc: Global,
        pool: TermPool,
        bodies: &Bodies,
        metas: Metas,
    ) -> Result<World, Fault>
        ensures { IfOk result (λ w. Stands w.pool w.sig) }
    {
        let sig = signature(alloc, &pool, bodies)?;
        Ok(World {
            alloc,
            pool,
            sig,
            metas,
        })
    }

    /// Prints the verdict on two terms. At a no it prints the names of the binders, where they are few,
    /// and whether the head forms are `wanted`.
    pub fn show(
        &mut self,
        rt: &HostRuntime,
        what: &str,
        terms: Pair,
        wanted: Pair,
        limits: Limits,
    ) -> Result<(), Fault>
        requires { Stands self.old.pool self.old.sig }
    {
        let verdict = self.verdict(terms, limits)?;
        let (fuel, depth) = (limits.fuel, limits.depth);
        print!(rt; "{what}, fuel {fuel}, depth {depth}: ")?;
        print_verdict(rt, &verdict, wanted)?;
        Ok(())
    }

    fn verdict(&mut self, terms: Pair, limits: Limits) -> Result<Conv, Fault>
        requires { Stands self.old.pool self.old.sig }
    {
        if !is_in(&self.pool, terms.left) {
            return Err(Fault::Stray);
        }
        if !is_in(&self.pool, terms.right) {
            return Err(Fault::Stray);
        }
        match self.metas {
            Metas::Unsolved => Ok(unsolved(self.alloc, &mut self.pool, &self.sig, terms, limits)),
            Metas::Solved(metas) => {
                solved(self.alloc, &mut self.pool, &self.sig, &metas, terms, limits)
            }
        }
    }
}

#[tactic(auto, using(case_terms::proofs::Chains::stands))]
fn unsolved(
    alloc: Global,
    pool: &mut TermPool,
    sig: &Signature,
    terms: Pair,
    limits: Limits,
) -> Conv
    requires left { terms.left < length pool.old.trees }
    requires right { terms.right < length pool.old.trees }
    requires stands { Stands pool.old sig.now }
{
    convert(
        alloc,
        pool,
        sig,
        &NoSolutions,
        terms.left,
        terms.right,
        limits,
    )
}

#[tactic(auto, using(case_terms::proofs::Chains::stands))]
fn solved(
    alloc: Global,
    pool: &mut TermPool,
    sig: &Signature,
    metas: &Solved,
    terms: Pair,
    limits: Limits,
) -> Result<Conv, Fault>
    requires left { terms.left < length pool.old.trees }
    requires right { terms.right < length pool.old.trees }
    requires stands { Stands pool.old sig.now }
{
    if !is_chain(pool, metas) {
        return Err(Fault::Stray);
    }
    Ok(convert(alloc, pool, sig, metas, terms.left, terms.right, limits))
}

fn print_verdict(rt: &HostRuntime, verdict: &Conv, wanted: Pair) -> io::Result<()> {
    match verdict {
        Conv::Yes => println!(rt; "yes"),
        Conv::No { left, right, under } => {
            print!(rt; "no")?;
            print_names(rt, under.as_slice())?;
            let are_wanted = *left == wanted.left && *right == wanted.right;
            println!(rt; ", the forms: {are_wanted}")
        }
        Conv::OutOfFuel => println!(rt; "out of fuel"),
        Conv::OutOfDepth => println!(rt; "out of depth"),
        Conv::Blocked { meta } => println!(rt; "blocked by {}", meta.number()),
        Conv::NoMemory => println!(rt; "out of memory"),
    }
}

fn print_names(rt: &HostRuntime, under: &[NameId]) -> io::Result<()> {
    if under.len() > 4 {
        return print!(rt; ", under {} names", under.len());
    }
    for name in under {
        print!(rt; ", under {}", name.number())?;
    }
    Ok(())
}
