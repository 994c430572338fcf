//! What a split does to the terms of a left side.

ghost use Rattle.std.specs.Prelude.{◌≡◌, ◌<◌, ◌-◌, length, IfOk};
ghost use Rattle.core_rules.specs.Substitution.{shift};
ghost use Rattle.term_pool.specs.Pool.{Extends, StandsFor, tree};
ghost use Rattle.cover_rules.specs.LeftSide.{place_of};
ghost use Rattle.lhs_elab.specs.Moving.{MoveBelow, moved_by};

use core_terms::{NoMemory, TermId, TermPool, shift, under};
use std::alloc::Global;

/// How a split brings terms of the left side into the branch of a constructor: first into the context of the constructor, by an
/// environment, and then into the branch, by the values of that context there. Both stand innermost first.
#[derive(Drop)]
pub(crate) struct Move {
    pub env: Vec<TermId>,
    pub values: Vec<TermId>,
}

/// A term of the left side in the branch.
pub(crate) fn brought(
    alloc: Global,
    pool: &mut TermPool,
    t: TermId,
    by: &Move,
) -> Result<TermId, NoMemory>
    requires t { t < length pool.old.trees }
    requires by { MoveBelow (length pool.old.trees) by.now }
    ensures extends { Extends pool.old pool.new }
    ensures is { IfOk result (λ r. StandsFor pool.new r (moved_by (tree pool.old) by.now (tree pool.old t))) }
{
    let opened = under(alloc, pool, t, by.env.as_slice())?;
    under(alloc, pool, opened, by.values.as_slice())
}

/// A term of the outermost entries, which are so many, in the branch, where `count` entries are all.
pub(crate) fn moved(
    alloc: Global,
    pool: &mut TermPool,
    t: TermId,
    outer: u32,
    count: u32,
    by: &Move,
) -> Result<TermId, NoMemory>
    requires t { t < length pool.old.trees }
    requires by { MoveBelow (length pool.old.trees) by.now }
    ensures extends { Extends pool.old pool.new }
    ensures is { IfOk result (λ r. StandsFor pool.new r (moved_by (tree pool.old) by.now (shift (tree pool.old t) 0 (count - outer)))) }
{
    let inner = count.saturating_sub(outer);
    let whole = shift(alloc, pool, t, 0, inner)?;
    brought(alloc, pool, whole, by)
}

/// The place of the variable among those that a branch keeps.
pub(crate) fn place(keep: &[u32], var: u32) -> Option<usize>
    ensures { result ≡ place_of var keep.now }
{
    let mut left = keep;
    while let [first, more @ ..] = left {
        if *first == var {
            return Some(keep.len() - left.len());
        }
        left = more;
    }
    None
}
