//! The left side of a clause.

ghost use Rattle.std.specs.Prelude.{◌≡◌, ℕ, ◌<◌, Option, length, map, IfOk};
ghost use Rattle.core_rules.specs.Term.{Term};
ghost use Rattle.core_rules.specs.InScope.{IsAcyclic};
ghost use Rattle.core_rules.specs.BoundedLaws.{IsFull};
ghost use Rattle.term_pool.specs.Pool.{Extends, Pool, tree};
ghost use Rattle.core_terms.specs.Signature.{Stands, signature_in};
ghost use Rattle.core_terms.specs.Solutions.{AreIn, solved_in};
ghost use Rattle.lhs_rules.specs.Asking.{Comes};
ghost use Rattle.lhs_rules.specs.Patterns.{AnswersWith, LeftOf, pattern_meaning};
ghost use Rattle.lhs_rules.specs.Rules.{all_elims};
ghost use Rattle.lhs_rules.specs.Spots.{start};
ghost use Rattle.lhs_elab.specs.Answers.{Answers, IsCheckedLeft};
ghost use Rattle.lhs_elab.specs.Lefts.{LeftBelow, left_in};

use crate::elaborator::Elaborator;
use crate::error::LhsError;
use crate::left::Left;
use crate::settle::checked;
use core_terms::{CheckedLeft, Limits, Signature, Solutions, TermId, TermPool};
use resolved_tree::ResolvedClause;
use std::alloc::Global;

/// The left side of a function of the type `ty` before any pattern.
fn start(alloc: Global, ty: TermId) -> Left
    ensures is { (p : Pool) → left_in p result ≡ start (tree p ty) }
    ensures below { (n : ℕ) → ty < n → LeftBelow n result }
{
    Left {
        context: Vec::new(alloc),
        spine: Vec::new(alloc),
        spots: Vec::new(alloc),
        pats: Vec::new(alloc),
        ty,
        inserted: 0,
    }
}

/// The left side when all of a clause is read.
fn walked<S: Solutions>(
    alloc: Global,
    pool: &mut TermPool,
    sig: &Signature,
    sol: &S,
    ty: TermId,
    clause: &ResolvedClause,
    limits: Limits,
) -> Result<Left, LhsError>
    requires ty { ty < length pool.old.trees }
    requires stands { Stands pool.old sig.now }
    requires solutions { AreIn pool.old (S.solution sol.now) }
    requires acyclic { IsAcyclic (solved_in pool.old (S.solution sol.now)) }
    ensures extends { Extends pool.old pool.new }
    ensures below { IfOk result (LeftBelow (length pool.new.trees)) }
    ensures is { (f : ℕ → Option Term) → IsFull (solved_in pool.old (S.solution sol.now)) f
        → Answers (λ l P. P (left_in pool.new l)) pool.new (Comes (signature_in pool.old sig.now) (solved_in pool.old (S.solution sol.now)) limits.fuel
        (AnswersWith (signature_in pool.old sig.now) f limits.fuel limits.depth)
        (all_elims (signature_in pool.old sig.now) clause.now.function
        (map (pattern_meaning (signature_in pool.old sig.now) clause.now.function) clause.now.patterns) (start (tree pool.old ty)))) result }
{
    let mut left = start(alloc, ty);
    let mut elaborator = Elaborator {
        pool,
        signature: sig,
        solutions: sol,
        function: clause.function,
        left: &mut left,
        limits,
        alloc,
    };
    elaborator.all_elims(clause.patterns.as_slice())?;
    Ok(left)
}

/// The checked left side of a clause of a function of the type `ty`, or why it is refused and where: exactly what the rules of left
/// sides say, with the fuel of `limits` for each head form and its depth for each comparison. The first refusal from left to right counts;
/// out of memory is the one other answer.
///
/// All metavariables of the clause's function may be solved. The pool only grows, also where the clause is refused.
pub fn left_side<S: Solutions>(
    alloc: Global,
    pool: &mut TermPool,
    sig: &Signature,
    sol: &S,
    ty: TermId,
    clause: &ResolvedClause,
    limits: Limits,
) -> Result<CheckedLeft, LhsError>
    requires ty { ty < length pool.old.trees }
    requires stands { Stands pool.old sig.now }
    requires solutions { AreIn pool.old (S.solution sol.now) }
    requires acyclic { IsAcyclic (solved_in pool.old (S.solution sol.now)) }
    ensures extends { Extends pool.old pool.new }
    ensures answer { (f : ℕ → Option Term) → IsFull (solved_in pool.old (S.solution sol.now)) f
        → Answers (IsCheckedLeft pool.new) pool.new (LeftOf (signature_in pool.old sig.now) (solved_in pool.old (S.solution sol.now)) f
        limits.fuel limits.depth (tree pool.old ty) clause.now) result }
{
    let left = walked(alloc, pool, sig, sol, ty, clause, limits)?;
    Ok(checked(alloc, pool, left)?)
}
