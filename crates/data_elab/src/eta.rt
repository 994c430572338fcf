//! Whether a record has eta: it has a field, is not coinductive, and does not stand in the types of its fields.

ghost use Rattle.std.specs.Prelude.{◌≡◌, ◌<◌, length, IfOk};
ghost use Rattle.std.specs.List.{list_any};
ghost use Rattle.core_rules.specs.Mapped.{AllEntries, telescope_map};
ghost use Rattle.term_pool.specs.Pool.{tree};
ghost use Rattle.data_rules.specs.Families.{has_eta as eta_of, names_family};
ghost use Rattle.data_elab.specs.Eta.{AreTypes, Looks};

use crate::queue::Queue;
use core_terms::{Entry, FamId, NoMemory, Node, Parts, TermId, TermPool};
use std::alloc::Global;

/// The types of the fields.
fn types(alloc: Global, fields: &[Entry]) -> Result<Queue, NoMemory>
    ensures { IfOk result (AreTypes fields.now) }
{
    let mut queue = Queue::new(alloc);
    let mut left = fields;
    while let [field, more @ ..] = left {
        queue.add(field.ty)?;
        left = more;
    }
    Ok(queue)
}

/// Whether a term is the family. Where it is not, its parts are put into the queue.
fn look(pool: &TermPool, fam: FamId, t: TermId, queue: &mut Queue) -> Result<bool, NoMemory>
    requires { t < length pool.now.trees }
    ensures { IfOk result (λ b. Looks pool.now fam t queue.old b queue.new) }
{
    let node = pool.node(t);
    if let Node::Fam(found) = node {
        return Ok(found.number() == fam.number());
    }
    if let Parts::Two { first, second, .. } = node.parts() {
        queue.add(first)?;
        queue.add(second)?;
    }
    Ok(false)
}

/// Whether the family stands in the type of a field. Each term that stands there is looked at once.
fn stands_in(alloc: Global, pool: &TermPool, fam: FamId, fields: &[Entry]) -> Result<bool, NoMemory>
    requires { AllEntries (λ t. t < length pool.now.trees) fields.now }
    ensures { IfOk result (λ b. b ≡ list_any (λ e. names_family fam e.ty) (telescope_map (tree pool.now) fields.now)) }
{
    let mut queue = types(alloc, fields)?;
    // There are fewer ids than a vector can hold.
    for at in 0..usize::MAX {
        let Some(t) = queue.get(at) else {
            return Ok(false);
        };
        if look(pool, fam, t, &mut queue)? {
            return Ok(true);
        }
    }
    Err(NoMemory)
}

/// Whether record `fam` with these fields has eta.
pub(crate) fn has_eta(
    alloc: Global,
    pool: &TermPool,
    fam: FamId,
    coinductive: bool,
    fields: &[Entry],
) -> Result<bool, NoMemory>
    requires { AllEntries (λ t. t < length pool.now.trees) fields.now }
    ensures { IfOk result (λ b. b ≡ eta_of fam coinductive (telescope_map (tree pool.now) fields.now)) }
{
    if coinductive || fields.is_empty() {
        return Ok(false);
    }
    Ok(!stands_in(alloc, pool, fam, fields)?)
}
