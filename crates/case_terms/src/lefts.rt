ghost use Rattle.std.specs.Prelude.{◌<◌, length, IsTrue};
ghost use Rattle.std.specs.List.{AllByRecursion};
ghost use Rattle.core_rules.specs.Mapped.{AllClause, AllLeft, AllPat, AllPats};
ghost use Rattle.core_terms.specs.Patterns.{pats_of};

use crate::scope::are_entries;
use crate::terms::is_in;
use core_terms::{CheckedLeft, CoreClause, CorePat, PatShape, Solved, TermPool};

fn are_solved_in(pool: &TermPool, named: &[Solved]) -> bool
    ensures { IsTrue result → AllByRecursion (λ s. (s.value < length pool.now.trees) × (s.ty < length pool.now.trees)) named.now }
{
    let mut left = named;
    while let [solved, rest @ ..] = left {
        if !is_in(pool, solved.value) || !is_in(pool, solved.ty) {
            return false;
        }
        left = rest;
    }
    true
}

#[cycle(pats)]
fn are_pats_in(pool: &TermPool, pats: &[CorePat]) -> bool
    ensures { IsTrue result → AllPats (λ t. t < length pool.now.trees) (pats_of pats.now) }
{
    for pat in pats {
        if !is_pat_in(pool, pat) {
            return false;
        }
    }
    true
}

#[cycle(pats)]
fn is_pat_in(pool: &TermPool, pat: &CorePat) -> bool
    ensures { IsTrue result → AllPat (λ t. t < length pool.now.trees) pat.now }
{
    match &pat.shape {
        PatShape::Var(_) | PatShape::Absurd | PatShape::Projection(_) => true,
        PatShape::Solved { value } => is_in(pool, *value),
        PatShape::Dotted { value } => is_in(pool, *value),
        PatShape::Con { pats, .. } => are_pats_in(pool, pats.as_slice()),
    }
}

/// Whether the terms of a left side without dotted values stand in the pool.
pub fn is_left_in(pool: &TermPool, left: &CheckedLeft) -> bool
    ensures { IsTrue result → AllLeft (λ t. t < length pool.now.trees) left.now }
{
    left.dots.as_slice().is_empty()
        && is_in(pool, left.ty)
        && are_entries(pool, left.context.entries.as_slice())
        && are_pats_in(pool, left.pats.as_slice())
        && are_solved_in(pool, left.named.as_slice())
}

fn is_clause_in(pool: &TermPool, clause: &CoreClause) -> bool
    ensures { IsTrue result → AllClause (λ t. t < length pool.now.trees) clause.now }
{
    if !is_left_in(pool, &clause.left) {
        return false;
    }
    match clause.right {
        Some(right) => is_in(pool, right),
        None => true,
    }
}

/// Whether the terms of clauses without dotted values stand in the pool.
pub fn are_clauses_in(pool: &TermPool, clauses: &[CoreClause]) -> bool
    ensures { IsTrue result → AllByRecursion (AllClause (λ t. t < length pool.now.trees)) clauses.now }
{
    let mut left = clauses;
    while let [clause, more @ ..] = left {
        if !is_clause_in(pool, clause) {
            return false;
        }
        left = more;
    }
    true
}
