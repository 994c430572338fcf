//! Parameters and fields as what source variables stand for.

ghost use Rattle.std.specs.Prelude.{◌<◌, length, IfOk};
ghost use Rattle.core_rules.specs.Mapped.{AllEntries, telescope_map};
ghost use Rattle.term_pool.specs.Pool.{Extends, tree};
ghost use Rattle.data_rules.specs.Rules.{inside};
ghost use Rattle.data_elab.specs.Sources.{AreSources, IsRisen};

use core_terms::{Entry, NameId, NoMemory, Node, Solved, TermId, TermPool, shift};
use std::alloc::Global;

/// The variable of an entry inside which there are so many others, with its type.
fn source(
    alloc: Global,
    pool: &mut TermPool,
    name: NameId,
    ty: TermId,
    inner: usize,
) -> Result<Solved, NoMemory>
    requires { ty < length pool.old.trees }
    ensures extends { Extends pool.old pool.new }
    ensures is { IfOk result (IsRisen pool.old pool.new name ty inner) }
{
    let Ok(index) = u32::try_from(inner) else {
        return Err(NoMemory);
    };
    let Some(by) = index.checked_add(1) else {
        return Err(NoMemory);
    };
    let value = pool.add(Node::Var(index))?;
    let ty = shift(alloc, pool, ty, 0, by)?;
    Ok(Solved { name, value, ty })
}

/// The entries as values of source variables, in their order: each is the variable that it binds, inside all of them.
pub(crate) fn sources(
    alloc: Global,
    pool: &mut TermPool,
    entries: &[Entry],
) -> Result<Vec<Solved>, NoMemory>
    requires { AllEntries (λ t. t < length pool.old.trees) entries.now }
    ensures extends { Extends pool.old pool.new }
    ensures is { IfOk result (λ v. AreSources pool.new (telescope_map (tree pool.old) entries.now) v.items) }
{
    let mut values = Vec::new(alloc);
    let mut left = entries;
    while let [entry, more @ ..] = left {
        let value = source(alloc, pool, entry.name, entry.ty, more.len())?;
        values.push(value)?;
        left = more;
    }
    Ok(values)
}
