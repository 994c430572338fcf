ghost use Rattle.std.specs.Prelude.{◌<◌, length, IfOk};
ghost use Rattle.core_terms.specs.Signature.{Stands};

use case_terms::{Bodies, Fault, Metas, Solved, is_chain, is_in, signature};
use core_terms::{NoSolutions, Node, Signature, TermId, TermPool};
use std::alloc::Global;
use std::io;
use weak_head::{Head, head};

/// A pool, the signature over it, its terms, and which metavariables are solved.
#[derive(Drop)]
pub struct World {
    alloc: Global,
    pub pool: TermPool,
    pub sig: Signature,
    bodies: Bodies,
    metas: Metas,
}

impl World {
    pub fn over(alloc: Global, pool: TermPool, bodies: Bodies, metas: Metas) -> Result<World, Fault>
        ensures { IfOk result (λ w. Stands w.pool w.sig) }
    {
        let sig = signature(alloc, &pool, &bodies)?;
        Ok(World {
            alloc,
            pool,
            sig,
            bodies,
            metas,
        })
    }

    /// Prints the head form of `t` with this fuel: which it is, its steps, and whether its term is
    /// `wanted`; and what it is with one step less.
    pub fn show_head(
        &mut self,
        rt: &HostRuntime,
        what: &str,
        t: TermId,
        wanted: TermId,
        fuel: u32,
    ) -> Result<(), Fault>
        requires { Stands self.old.pool self.old.sig }
    {
        let seen = self.head(t, fuel)?;
        print!(rt; "{what}: ")?;
        print_head(rt, seen, wanted)?;
        if fuel > 0 {
            let seen = self.head(t, fuel - 1)?;
            print!(rt; "; one step less: ")?;
            print_head(rt, seen, wanted)?;
        }
        println!(rt; "")?;
        Ok(())
    }

    /// Prints the number that `t` comes to, by one head form after the other, and the steps of all of them.
    pub fn show_number(
        &mut self,
        rt: &HostRuntime,
        what: &str,
        t: TermId,
        fuel: u32,
    ) -> Result<(), Fault>
        requires { Stands self.old.pool self.old.sig }
    {
        let (number, steps) = self.read(t, fuel)?;
        println!(rt; "{what}: {number} in {steps} steps")?;
        Ok(())
    }

    fn read(&mut self, t: TermId, fuel: u32) -> Result<(u32, u32), Fault>
        requires { Stands self.old.pool self.old.sig }
    {
        let (mut at, mut steps) = (t, 0u32);
        for n in 0..u32::MAX {
            let Head::Form { term, used } = self.head(at, fuel)? else {
                return Err(Fault::NoNumber);
            };
            steps = steps.saturating_add(used);
            if term == self.bodies.zero {
                return Ok((n, steps));
            }
            at = before(&self.pool, term, self.bodies.suc)?;
        }
        Err(Fault::NoNumber)
    }

    fn head(&mut self, t: TermId, fuel: u32) -> Result<Head, Fault>
        requires { Stands self.old.pool self.old.sig }
        ensures { Stands self.new.pool self.new.sig }
    {
        if !is_in(&self.pool, t) {
            return Err(Fault::Stray);
        }
        match self.metas {
            Metas::Unsolved => Ok(unsolved_head(self.alloc, &mut self.pool, &self.sig, t, fuel)),
            Metas::Solved(solved) => {
                solved_head(self.alloc, &mut self.pool, &self.sig, &solved, t, fuel)
            }
        }
    }
}

#[tactic(auto, using(case_terms::proofs::Chains::stands))]
fn unsolved_head(alloc: Global, pool: &mut TermPool, sig: &Signature, t: TermId, fuel: u32) -> Head
    requires t { t < length pool.old.trees }
    requires stands { Stands pool.old sig.now }
    ensures { Stands pool.new sig.now }
{
    head(alloc, pool, sig, &NoSolutions, t, fuel)
}

#[tactic(auto, using(case_terms::proofs::Chains::stands))]
fn solved_head(
    alloc: Global,
    pool: &mut TermPool,
    sig: &Signature,
    solved: &Solved,
    t: TermId,
    fuel: u32,
) -> Result<Head, Fault>
    requires t { t < length pool.old.trees }
    requires stands { Stands pool.old sig.now }
    ensures { Stands pool.new sig.now }
{
    if !is_chain(pool, solved) {
        return Err(Fault::Stray);
    }
    Ok(head(alloc, pool, sig, solved, t, fuel))
}

/// The argument of suc that the term is.
fn before(pool: &TermPool, t: TermId, suc: TermId) -> Result<TermId, Fault> {
    if !is_in(pool, t) {
        return Err(Fault::Stray);
    }
    let Node::App { fun, arg, .. } = pool.node(t) else {
        return Err(Fault::NoNumber);
    };
    if fun != suc {
        return Err(Fault::NoNumber);
    }
    Ok(arg)
}

fn print_head(rt: &HostRuntime, seen: Head, wanted: TermId) -> io::Result<()> {
    match seen {
        Head::Form { term, used } => print!(rt; "form, {used} steps, {}", term == wanted),
        Head::Blocked { meta, term, used } => {
            print!(rt;
                "blocked by {}, {used} steps, {}",
                meta.number(),
                term == wanted
            )
        }
        Head::OutOfFuel => print!(rt; "out of fuel"),
        Head::NoMemory => print!(rt; "out of memory"),
    }
}
