ghost use Rattle.std.specs.Prelude.{◌≡◌, ◌<◌, ◌++◌, ◌∷◌, [], length, IfOk, IsTrue};
ghost use Rattle.std.specs.List.{AllByRecursion};
ghost use Rattle.core_rules.specs.InScope.{DeclInScope, FamilyInScope, InScope, TreeInScope, any_meta};
ghost use Rattle.core_rules.specs.Mapped.{AllEntries, decl_map, fam_map, tree_map};
ghost use Rattle.core_rules.specs.Signature.{Open};
ghost use Rattle.term_pool.specs.Pool.{tree as term_at};
ghost use Rattle.core_terms.specs.Signature.{decl_of, fam_of, signature_in};
ghost use Rattle.case_terms.specs.Families.{IsFamily, IsShaped};
ghost use Rattle.case_terms.specs.Standing.{ConIn, DeclIn, TreeIn};

use crate::fault::Fault;
use crate::ids::marked;
use crate::lefts::are_clauses_in;
use crate::terms::{are_in, is_in};
use core_terms::{ConDecl, CoreDecl, Entry, NameId, Signature, TermId, TermPool, Tree};
use std::alloc::Global;

/// Whether the types of entries stand in the pool.
pub fn are_entries(pool: &TermPool, entries: &[Entry]) -> bool
    ensures { IsTrue result → AllEntries (λ t. t < length pool.now.trees) entries.now }
{
    let mut left = entries;
    while let [entry, more @ ..] = left {
        if !is_in(pool, entry.ty) {
            return false;
        }
        left = more;
    }
    true
}

/// Whether it is a term of the pool, in scope in a context of so many entries.
pub fn is_in_scope(
    alloc: Global,
    pool: &TermPool,
    sig: &Signature,
    under: usize,
    t: TermId,
) -> Result<bool, Fault>
    ensures within { IfOk result (λ b. IsTrue b → t < length pool.now.trees) }
    ensures scope { IfOk result (λ b. IsTrue b → InScope (signature_in pool.now sig.now) any_meta under (term_at pool.now t)) }
{
    let ids = marked(alloc, pool, sig, sig.fams())?;
    Ok(ids.is_term(under, t))
}

/// Whether it is a case tree of terms of the pool, in scope where nothing is bound.
pub fn is_tree_in_scope(
    alloc: Global,
    pool: &TermPool,
    sig: &Signature,
    tree: &Tree,
) -> Result<bool, Fault>
    ensures within { IfOk result (λ b. IsTrue b → TreeIn pool.now tree.now) }
    ensures scope { IfOk result (λ b. IsTrue b →
        TreeInScope (signature_in pool.now sig.now) any_meta 0 (tree_map (term_at pool.now) tree.now)) }
{
    let ids = marked(alloc, pool, sig, sig.fams())?;
    Ok(ids.is_tree(0, tree))
}

/// The same of the tree of a function, which the signature does not know yet.
fn is_body_in_scope(
    alloc: Global,
    pool: &TermPool,
    sig: &mut Signature,
    name: NameId,
    ty: TermId,
    tree: &Tree,
) -> Result<bool, Fault>
    ensures same { sig.new ≡ sig.old }
    ensures within { IfOk result (λ b. IsTrue b → TreeIn pool.now tree.now) }
    ensures scope { IfOk result (λ b. IsTrue b →
        TreeInScope (signature_in pool.now (sig.old ++ Open name ty ∷ [])) any_meta 0 (tree_map (term_at pool.now) tree.now)) }
{
    let mark = sig.mark();
    sig.add_open(name, ty)?;
    let answer = is_tree_in_scope(alloc, pool, sig, tree);
    sig.cut(mark);
    answer
}

/// Whether it is a function of terms of the pool, its type and its tree in scope where they stand. The signature does not know it yet.
fn is_function_in_scope(
    alloc: Global,
    pool: &TermPool,
    sig: &mut Signature,
    decl: &CoreDecl,
) -> Result<bool, Fault>
    ensures same { sig.new ≡ sig.old }
    ensures within { IfOk result (λ b. IsTrue b → DeclIn pool.now decl.now) }
    ensures scope { IfOk result (λ b. IsTrue b →
        DeclInScope (signature_in pool.now sig.old) any_meta (decl_map (term_at pool.now) (decl_of decl.now))) }
{
    let CoreDecl::Function {
        name,
        ty,
        clauses,
        tree,
    } = decl
    else {
        return Ok(false);
    };
    if !are_clauses_in(pool, clauses.as_slice()) {
        return Ok(false);
    }
    if !is_in_scope(alloc, pool, sig, 0, *ty)? {
        return Ok(false);
    }
    is_body_in_scope(alloc, pool, sig, *name, *ty, tree)
}

/// Whether it is a declaration of terms of the pool, each in scope where it stands. The signature does not know it yet.
pub fn is_decl_in_scope(
    alloc: Global,
    pool: &TermPool,
    sig: &mut Signature,
    decl: &CoreDecl,
) -> Result<bool, Fault>
    requires { IsShaped decl.now }
    ensures same { sig.new ≡ sig.old }
    ensures within { IfOk result (λ b. IsTrue b → DeclIn pool.now decl.now) }
    ensures scope { IfOk result (λ b. IsTrue b →
        DeclInScope (signature_in pool.now sig.old) any_meta (decl_map (term_at pool.now) (decl_of decl.now))) }
{
    match decl {
        CoreDecl::Postulate { ty, .. } => is_in_scope(alloc, pool, sig, 0, *ty),
        CoreDecl::Family { .. } => {
            if !is_declared_in(pool, decl) {
                return Ok(false);
            }
            is_family_in_scope(alloc, pool, sig, decl)
        }
        CoreDecl::Function { .. } => is_function_in_scope(alloc, pool, sig, decl),
    }
}

/// Whether the terms of a family are in scope, each where it stands. The signature does not know the family yet.
pub fn is_family_in_scope(
    alloc: Global,
    pool: &TermPool,
    sig: &Signature,
    decl: &CoreDecl,
) -> Result<bool, Fault>
    requires { IsFamily decl.now }
    ensures { IfOk result (λ b. IsTrue b →
        FamilyInScope (signature_in pool.now sig.now) any_meta (fam_map (term_at pool.now) (fam_of decl.now))) }
{
    let fams = sig.fams();
    if fams == u32::MAX {
        return Ok(false);
    }
    let before = marked(alloc, pool, sig, fams)?;
    if !before.is_heading(decl) {
        return Ok(false);
    }
    let known = marked(alloc, pool, sig, fams + 1)?;
    Ok(known.are_parts(decl))
}

fn are_constructors(pool: &TermPool, cons: &[ConDecl]) -> bool
    ensures { IsTrue result → AllByRecursion (ConIn pool.now) cons.now }
{
    let mut left = cons;
    while let [con, more @ ..] = left {
        if !are_entries(pool, con.args.entries.as_slice())
            || !are_in(pool, con.indices.as_slice())
        {
            return false;
        }
        left = more;
    }
    true
}

/// Whether it is a postulate or a family whose terms stand in the pool.
pub fn is_declared_in(pool: &TermPool, decl: &CoreDecl) -> bool
    ensures { IsTrue result → DeclIn pool.now decl.now }
{
    match decl {
        CoreDecl::Postulate { ty, .. } => is_in(pool, *ty),
        CoreDecl::Family {
            params,
            indices,
            cons,
            fields,
            ..
        } => {
            are_entries(pool, params.entries.as_slice())
                && are_entries(pool, indices.entries.as_slice())
                && are_constructors(pool, cons.as_slice())
                && are_entries(pool, fields.entries.as_slice())
        }
        CoreDecl::Function { .. } => false,
    }
}
