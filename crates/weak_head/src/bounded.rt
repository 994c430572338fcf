ghost use Rattle.std.specs.Prelude.{◌≡◌, ◌<◌, length, IfOk};
ghost use Rattle.core_rules.specs.Elimination.{elims};
ghost use Rattle.core_rules.specs.InScope.{IsAcyclic};
ghost use Rattle.term_pool.specs.Pool.{Extends, StandsFor, tree};
ghost use Rattle.core_terms.specs.Signature.{Stands, signature_in};
ghost use Rattle.core_terms.specs.Solutions.{AreIn, solved_in};
ghost use Rattle.weak_head.specs.Answers.{IsHead, IsReduced, elim_node};
ghost use Rattle.weak_head.specs.Elims.{spine_in};
ghost use Rattle.weak_head.specs.States.{AppliedBelow, DueBelow, due_in};

use crate::answer::{Head, Reduced};
use crate::elim::Elim;
use crate::settle::settle;
use crate::spine::elim_at;
use crate::state::{Applied, Due, Run, State};
use core_terms::{NoMemory, Node, Signature, Solutions, TermId, TermPool, subst, under};
use smallvec::SmallVec;
use std::alloc::Global;

/// The head form of `t` in at most `fuel` steps. It is exactly the one that the rules give, by the
/// steps of the rules; out of memory is the one other answer.
pub fn head<S: Solutions>(
    alloc: Global,
    pool: &mut TermPool,
    sig: &Signature,
    sol: &S,
    t: TermId,
    fuel: u32,
) -> Head
    requires t { t < length pool.old.trees }
    requires stands { Stands pool.old sig.now }
    requires solutions { AreIn pool.old (S.solution sol.now) }
    requires acyclic { IsAcyclic (solved_in pool.old (S.solution sol.now)) }
    ensures extends { Extends pool.old pool.new }
    ensures answer { IsHead (signature_in pool.old sig.now) (solved_in pool.old (S.solution sol.now))
        (tree pool.old t) fuel pool.new result }
{
    match head_of(alloc, pool, sig, sol, t, fuel) {
        Ok(head) => head,
        Err(NoMemory) => Head::NoMemory,
    }
}

fn head_of<S: Solutions>(
    alloc: Global,
    pool: &mut TermPool,
    sig: &Signature,
    sol: &S,
    t: TermId,
    fuel: u32,
) -> Result<Head, NoMemory>
    requires t { t < length pool.old.trees }
    requires stands { Stands pool.old sig.now }
    requires solutions { AreIn pool.old (S.solution sol.now) }
    requires acyclic { IsAcyclic (solved_in pool.old (S.solution sol.now)) }
    ensures extends { Extends pool.old pool.new }
    ensures answer { IfOk result (λ x. IsHead (signature_in pool.old sig.now) (solved_in pool.old (S.solution sol.now))
        (tree pool.old t) fuel pool.new x) }
{
    match reduce(alloc, pool, sig, sol, t, fuel)? {
        Reduced::OutOfFuel => Ok(Head::OutOfFuel),
        Reduced::Found { meta, term, used } => {
            let term = applied(pool, &term)?;
            Ok(match meta {
                None => Head::Form { term, used },
                Some(meta) => Head::Blocked { meta, term, used },
            })
        }
    }
}

/// The head form of `t` in at most `fuel` steps, with its head and eliminations apart.
pub fn reduce<S: Solutions>(
    alloc: Global,
    pool: &mut TermPool,
    sig: &Signature,
    sol: &S,
    t: TermId,
    fuel: u32,
) -> Result<Reduced, NoMemory>
    requires t { t < length pool.old.trees }
    requires stands { Stands pool.old sig.now }
    requires solutions { AreIn pool.old (S.solution sol.now) }
    requires acyclic { IsAcyclic (solved_in pool.old (S.solution sol.now)) }
    ensures extends { Extends pool.old pool.new }
    ensures answer { IfOk result (λ x. IsReduced (signature_in pool.old sig.now) (solved_in pool.old (S.solution sol.now))
        (tree pool.old t) fuel pool.new x) }
{
    let spine = SmallVec::new(alloc);
    let mut state = State::Term(Applied { head: t, spine });
    let mut frames = Vec::new(alloc);
    let mut used = 0;
    'steps: loop {
        match settle(alloc, pool, sig, sol, state, frames)? {
            Run::On(_, _) => unreachable!(),
            Run::Answer(meta, term) => return Ok(Reduced::Found { meta, term, used }),
            Run::Due(due, spine, waiting) => {
                if used == fuel {
                    return Ok(Reduced::OutOfFuel);
                }
                used += 1;
                let head = taken(alloc, pool, due)?;
                state = State::Term(Applied { head, spine });
                frames = waiting;
            }
        }
    }
}

/// Takes a step.
fn taken(alloc: Global, pool: &mut TermPool, due: Due) -> Result<TermId, NoMemory>
    requires { DueBelow (length pool.old.trees) due }
    ensures extends { Extends pool.old pool.new }
    ensures is { IfOk result (λ t. StandsFor pool.new t (due_in (tree pool.old) due)) }
{
    match due {
        Due::Beta { body, arg } => {
            let t = subst(alloc, pool, body, 0, arg)?;
            Ok(t)
        }
        Due::Unfold { body, env } => {
            let mut values = env;
            values.reverse();
            let t = under(alloc, pool, body, values.as_slice())?;
            Ok(t)
        }
        Due::Take { arg } => Ok(arg),
    }
}

/// The head under its eliminations, as one term.
pub fn applied(pool: &mut TermPool, term: &Applied) -> Result<TermId, NoMemory>
    requires { AppliedBelow (length pool.old.trees) term.now }
    ensures extends { Extends pool.old pool.new }
    ensures is { IfOk result (λ t. StandsFor pool.new t
        (elims (tree pool.old term.now.head) (spine_in (tree pool.old) term.now.spine.items))) }
{
    let mut made = term.head;
    let mut n = 0;
    while let Some(elim) = elim_at(&term.spine, n) {
        made = pool.add(over(made, elim))?;
        n += 1;
    }
    Ok(made)
}

/// The node of a term under an elimination.
fn over(of: TermId, by: Elim) -> Node
    ensures { result ≡ elim_node of by }
{
    match by {
        Elim::Arg { flag, arg } => Node::App { flag, fun: of, arg },
        Elim::Field(field) => Node::Proj { field, of },
    }
}
