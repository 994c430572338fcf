ghost use Rattle.std.specs.Prelude.{◌≡◌, ◌<◌, ◌+◌, length, IfOk, OnOk};
ghost use Rattle.unify_rules.specs.Joined.{place_in, rename};
ghost use Rattle.term_pool.specs.Pool.{Extends, StandsFor, tree};
ghost use Rattle.index_unify.specs.Renaming.{IsRenaming};

use core_terms::{NoMemory, Node, TermId, TermPool, under};
use std::alloc::Global;

/// The place of a variable among these, which is one past the last where it is not one of them.
pub(crate) fn place(keep: &[u32], var: u32) -> Result<u32, NoMemory>
    ensures { IfOk result (λ i. i ≡ place_in keep.now var) }
{
    let mut at: u32 = 0;
    let mut left = keep;
    while let [kept, rest @ ..] = left {
        if *kept == var {
            return Ok(at);
        }
        let Some(next) = at.checked_add(1) else {
            return Err(NoMemory);
        };
        at = next;
        left = rest;
    }
    Ok(at)
}

/// Variables of a branch, innermost first, by what they were, and the terms that the first variables of
/// the old context become among them: as many as were asked for so far.
#[derive(Drop)]
pub(crate) struct Renaming<'a> {
    pub keep: &'a [u32],
    pub terms: Vec<TermId>,
}

/// The term in the context of these variables.
pub(crate) fn rename(
    alloc: Global,
    pool: &mut TermPool,
    renaming: &mut Renaming,
    t: TermId,
) -> Result<TermId, NoMemory>
    requires t { t < length pool.old.trees }
    requires renaming { IsRenaming pool.old renaming.old.keep.now renaming.old.terms.items }
    ensures extends { Extends pool.old pool.new }
    ensures is { IfOk result (λ r. StandsFor pool.new r (rename renaming.old.keep.now (tree pool.old t))) }
    ensures renaming { OnOk result (IsRenaming pool.new renaming.old.keep.now renaming.new.terms.items) }
    ensures keep { renaming.new.keep ≡ renaming.old.keep }
{
    let reach = pool.reach(t);
    while (renaming.terms.len() as u64) < reach {
        grow(pool, renaming)?;
    }
    let made = under(alloc, pool, t, renaming.terms.as_slice())?;
    Ok(made)
}

/// Makes the term of the next variable.
fn grow(pool: &mut TermPool, renaming: &mut Renaming) -> Result<(), NoMemory>
    requires renaming { IsRenaming pool.old renaming.old.keep.now renaming.old.terms.items }
    ensures extends { Extends pool.old pool.new }
    ensures renaming { OnOk result (IsRenaming pool.new renaming.old.keep.now renaming.new.terms.items) }
    ensures keep { renaming.new.keep ≡ renaming.old.keep }
    ensures more { OnOk result (length renaming.new.terms.items ≡ length renaming.old.terms.items + 1) }
{
    let Ok(var) = u32::try_from(renaming.terms.len()) else {
        return Err(NoMemory);
    };
    let place = place(renaming.keep, var)?;
    let term = pool.add(Node::Var(place))?;
    renaming.terms.push(term)?;
    Ok(())
}
