ghost use Rattle.std.specs.Prelude.{◌≡◌, ◌<◌, length, IfOk};
ghost use Rattle.core_rules.specs.Bounded.{decide};
ghost use Rattle.core_rules.specs.InScope.{IsAcyclic};
ghost use Rattle.term_pool.specs.Pool.{Extends, tree};
ghost use Rattle.core_terms.specs.Signature.{Stands, signature_in};
ghost use Rattle.core_terms.specs.Solutions.{AreIn, solved_in};
ghost use Rattle.weak_head.specs.States.{AppliedBelow};
ghost use Rattle.conversion.specs.Forms.{by_forms};
ghost use Rattle.conversion.specs.Outcome.{HaveOutcome, OutcomeStands, ReducedBelow, bounded_in, decision};

use crate::arguments::Part;
use crate::parts::parts_of;
use core_terms::{Signature, Solutions};
use std::alloc::Global;
use term_pool::{MetaId, NoMemory, TermId, TermPool};
use weak_head::{Applied, Reduced, applied, reduce};

/// Why two head forms give no parts.
#[derive(Clone, Copy)]
pub(crate) enum Refusal {
    /// They differ.
    Differ { left: TermId, right: TermId },
    OutOfFuel,
    WaitsFor(MetaId),
}

/// What two head forms ask for. The first part is last.
#[derive(Drop)]
pub(crate) enum Outcome {
    Refused(Refusal),
    Parts(Vec<Part>),
}

/// What the head forms of two terms ask for, each with this fuel.
pub(crate) fn compare_heads<S: Solutions>(
    alloc: Global,
    pool: &mut TermPool,
    sig: &Signature,
    sol: &S,
    fuel: u32,
    t: TermId,
    u: TermId,
) -> Result<Outcome, NoMemory>
    requires t { t < length pool.old.trees }
    requires u { u < length pool.old.trees }
    requires stands { Stands pool.old sig.now }
    requires solutions { AreIn pool.old (S.solution sol.now) }
    requires acyclic { IsAcyclic (solved_in pool.old (S.solution sol.now)) }
    ensures extends { Extends pool.old pool.new }
    ensures is { IfOk result (λ o. HaveOutcome (signature_in pool.old sig.now) (solved_in pool.old (S.solution sol.now)) fuel
        (tree pool.old t) (tree pool.old u) pool.new o) }
{
    let left = reduce(alloc, pool, sig, sol, t, fuel)?;
    let right = reduce(alloc, pool, sig, sol, u, fuel)?;
    let found = decided(alloc, pool, sig, &left, &right)?;
    Ok(found)
}

fn decided(
    alloc: Global,
    pool: &mut TermPool,
    sig: &Signature,
    left: &Reduced,
    right: &Reduced,
) -> Result<Outcome, NoMemory>
    requires left { ReducedBelow (length pool.old.trees) left.now }
    requires right { ReducedBelow (length pool.old.trees) right.now }
    ensures extends { Extends pool.old pool.new }
    ensures is { IfOk result (λ o. decide (signature_in pool.old sig.now)
        (bounded_in (tree pool.old) left.now) (bounded_in (tree pool.old) right.now) ≡ decision pool.new o) }
    ensures stands { IfOk result (OutcomeStands pool.new) }
{
    let Reduced::Found { meta, term, .. } = left else {
        return Ok(Outcome::Refused(Refusal::OutOfFuel));
    };
    let Reduced::Found {
        meta: other_meta,
        term: other,
        ..
    } = right
    else {
        return Ok(Outcome::Refused(Refusal::OutOfFuel));
    };
    if let Some(meta) = *meta {
        return Ok(Outcome::Refused(Refusal::WaitsFor(meta)));
    }
    if let Some(meta) = *other_meta {
        return Ok(Outcome::Refused(Refusal::WaitsFor(meta)));
    }
    compare_forms(alloc, pool, sig, term, other)
}

/// The parts of two forms, or that they differ.
fn compare_forms(
    alloc: Global,
    pool: &mut TermPool,
    sig: &Signature,
    left: &Applied,
    right: &Applied,
) -> Result<Outcome, NoMemory>
    requires left { AppliedBelow (length pool.old.trees) left.now }
    requires right { AppliedBelow (length pool.old.trees) right.now }
    ensures extends { Extends pool.old pool.new }
    ensures is { IfOk result (λ o. by_forms (signature_in pool.old sig.now) (tree pool.old) left.now right.now ≡ decision pool.new o) }
    ensures stands { IfOk result (OutcomeStands pool.new) }
{
    if let Some(parts) = parts_of(alloc, pool, sig, left, right)? {
        return Ok(Outcome::Parts(parts));
    }
    let left = applied(pool, left)?;
    let right = applied(pool, right)?;
    Ok(Outcome::Refused(Refusal::Differ { left, right }))
}
