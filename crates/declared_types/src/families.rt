//! Function types over telescopes, and the types of families.

ghost use Rattle.std.specs.Prelude.{◌≡◌, ◌<◌, length, IfOk};
ghost use Rattle.core_rules.specs.Signature.{Family};
ghost use Rattle.core_rules.specs.Mapped.{AllEntries, AllFamily, fam_map, telescope_map};
ghost use Rattle.core_rules.specs.Elimination.{pi_over as function_over, fam_type as type_of};
ghost use Rattle.term_pool.specs.Pool.{Extends, StandsFor, tree};
ghost use Rattle.core_terms.specs.Signature.{decl_of, fam_of};

use core_terms::{CoreDecl, Entry, NoMemory, Node, TermId, TermPool};

/// The function type over the entries, the outermost one first, that ends in `end`. Each entry's type stands under the entries before
/// it, and `end` under all of them.
pub fn pi_over(pool: &mut TermPool, entries: &[Entry], end: TermId) -> Result<TermId, NoMemory>
    requires entries { AllEntries (λ t. t < length pool.old.trees) entries.now }
    requires end { end < length pool.old.trees }
    ensures extends { Extends pool.old pool.new }
    ensures is { IfOk result (λ t. StandsFor pool.new t
        (function_over (telescope_map (tree pool.old) entries.now) (tree pool.old end))) }
{
    let mut made = end;
    let mut left = entries.len();
    while left > 0 {
        left -= 1;
        let entry = entries[left];
        made = pool.add(Node::Pi {
            flag: entry.flag,
            name: entry.name,
            dom: entry.ty,
            cod: made,
        })?;
    }
    Ok(made)
}

/// The type of a family: the function type over its parameters and its indices that ends in the sort of its level.
pub fn fam_type(pool: &mut TermPool, decl: &CoreDecl) -> Result<TermId, NoMemory>
    requires family { decl_of decl.now ≡ Family (fam_of decl.now) }
    requires within { AllFamily (λ t. t < length pool.old.trees) (fam_of decl.now) }
    ensures extends { Extends pool.old pool.new }
    ensures is { IfOk result (λ t. StandsFor pool.new t (type_of (fam_map (tree pool.old) (fam_of decl.now)))) }
{
    let CoreDecl::Family {
        params,
        indices,
        level,
        ..
    } = decl
    else {
        unreachable!()
    };
    let sort = pool.add(Node::Sort(*level))?;
    let indexed = pi_over(pool, indices.entries.as_slice(), sort)?;
    pi_over(pool, params.entries.as_slice(), indexed)
}
