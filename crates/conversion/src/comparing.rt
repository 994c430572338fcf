ghost use Rattle.std.specs.Prelude.{◌∷◌, ◌<◌, length, reverse, IfOk};
ghost use Rattle.core_rules.specs.Bounded.{ConvOf};
ghost use Rattle.core_rules.specs.InScope.{IsAcyclic};
ghost use Rattle.term_pool.specs.Pool.{Extends, tree};
ghost use Rattle.core_terms.specs.Signature.{Stands, signature_in};
ghost use Rattle.core_terms.specs.Solutions.{AreIn, solved_in};
ghost use Rattle.conversion.specs.Conv.{IsVerdict};
ghost use Rattle.conversion.specs.Pending.{Decides, Going, Turn};

use crate::conv::Conv;
use crate::kept::Kept;
use crate::outcome::{Outcome, Refusal, compare_heads};
use crate::pending::{Work, enter, open};
use core_terms::{Signature, Solutions, same_term};
use std::alloc::Global;
use term_pool::{Limits, NameId, NoMemory, Row, TermId, TermPool};

/// How far a comparison has come: the pairs that it has opened, the names of the binders around the pair
/// that it is at, and the pairs that wait, of which the first one is last.
#[derive(Drop)]
pub(crate) struct Progress {
    kept: Kept,
    path: Vec<NameId>,
    pending: Vec<Work>,
}

/// The verdict on `t` and `u`, with the fuel of `limits` for each head form, to its depth. It is exactly
/// the one that the rules give; out of memory is the one other answer. That a yes implies that the two
/// terms are convertible by the declarative rules is a law of these rules: `core_rules`,
/// `bounded_laws::yes_converts`, and for the signatures that occur `tree_laws::sound_yes_converts` and
/// `tree_laws::derivable_yes_converts`.
pub fn convert<S: Solutions>(
    alloc: Global,
    pool: &mut TermPool,
    sig: &Signature,
    sol: &S,
    t: TermId,
    u: TermId,
    limits: Limits,
) -> Conv
    requires t { t < length pool.old.trees }
    requires u { u < length pool.old.trees }
    requires stands { Stands pool.old sig.now }
    requires solutions { AreIn pool.old (S.solution sol.now) }
    requires acyclic { IsAcyclic (solved_in pool.old (S.solution sol.now)) }
    ensures extends { Extends pool.old pool.new }
    ensures answer { IsVerdict (ConvOf (signature_in pool.old sig.now) (solved_in pool.old (S.solution sol.now))
        limits.fuel limits.depth (tree pool.old t) (tree pool.old u)) pool.new result }
{
    match compare(alloc, pool, sig, sol, t, u, limits) {
        Ok(verdict) => verdict,
        Err(NoMemory) => Conv::NoMemory,
    }
}

fn compare<S: Solutions>(
    alloc: Global,
    pool: &mut TermPool,
    sig: &Signature,
    sol: &S,
    t: TermId,
    u: TermId,
    limits: Limits,
) -> Result<Conv, NoMemory>
    requires t { t < length pool.old.trees }
    requires u { u < length pool.old.trees }
    requires stands { Stands pool.old sig.now }
    requires solutions { AreIn pool.old (S.solution sol.now) }
    requires acyclic { IsAcyclic (solved_in pool.old (S.solution sol.now)) }
    ensures extends { Extends pool.old pool.new }
    ensures answer { IfOk result (IsVerdict (ConvOf (signature_in pool.old sig.now) (solved_in pool.old (S.solution sol.now))
        limits.fuel limits.depth (tree pool.old t) (tree pool.old u)) pool.new) }
{
    let mut pending = Vec::new(alloc);
    pending.push(Work {
        depth: limits.depth,
        under: 0,
        binds: None,
        left: t,
        right: u,
    })?;
    let mut progress = Progress {
        kept: Kept::new(alloc),
        path: Vec::new(alloc),
        pending,
    };
    while let Some(work) = progress.pending.pop() {
        let decided = turn(alloc, pool, sig, sol, limits.fuel, &mut progress, &work)?;
        if let Some(verdict) = decided {
            return Ok(verdict);
        }
    }
    Ok(Conv::Yes)
}

/// Works on the first of the pairs: its verdict where that decides, else the pairs that are left.
fn turn<S: Solutions>(
    alloc: Global,
    pool: &mut TermPool,
    sig: &Signature,
    sol: &S,
    fuel: u32,
    progress: &mut Progress,
    work: &Work,
) -> Result<Option<Conv>, NoMemory>
    requires stands { Stands pool.old sig.now }
    requires solutions { AreIn pool.old (S.solution sol.now) }
    requires acyclic { IsAcyclic (solved_in pool.old (S.solution sol.now)) }
    requires going { Going (signature_in pool.old sig.now) (solved_in pool.old (S.solution sol.now)) fuel
        pool.old progress.old.path.items progress.old.kept (work.now ∷ reverse progress.old.pending.items) }
    ensures extends { Extends pool.old pool.new }
    ensures turn { IfOk result (λ o. Turn (signature_in pool.old sig.now) (solved_in pool.old (S.solution sol.now)) fuel
        pool.old progress.old.path.items (work.now ∷ reverse progress.old.pending.items) o
        pool.new progress.new.path.items progress.new.kept (reverse progress.new.pending.items)) }
{
    enter(&mut progress.path, work.under, work.binds)?;
    let Some(less) = work.depth.checked_sub(1) else {
        return Ok(Some(Conv::OutOfDepth));
    };
    if let Some(depth) = progress.kept.get(work.left, work.right) {
        if depth <= work.depth {
            return Ok(None);
        }
    }
    if same_term(alloc, pool, sol, work.left, work.right)? {
        return Ok(None);
    }
    match compare_heads(alloc, pool, sig, sol, fuel, work.left, work.right)? {
        Outcome::Refused(refusal) => {
            let verdict = refused(alloc, &refusal, progress.path.as_slice())?;
            Ok(Some(verdict))
        }
        Outcome::Parts(parts) => {
            progress.kept.put(work.left, work.right, work.depth)?;
            let under = progress.path.len();
            open(&mut progress.pending, parts.as_slice(), under, less)?;
            Ok(None)
        }
    }
}

/// The verdict of a refusal under these names.
fn refused(alloc: Global, refusal: &Refusal, path: &[NameId]) -> Result<Conv, NoMemory>
    ensures { IfOk result (Decides refusal.now path.now) }
{
    match *refusal {
        Refusal::Differ { left, right } => {
            let under = Row::from_vec(Vec::from_slice(alloc, path)?);
            Ok(Conv::No { left, right, under })
        }
        Refusal::OutOfFuel => Ok(Conv::OutOfFuel),
        Refusal::WaitsFor(meta) => Ok(Conv::Blocked { meta }),
    }
}
