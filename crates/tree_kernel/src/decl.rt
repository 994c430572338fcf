//! The call of the kernel on a declaration.

ghost use Rattle.std.specs.Prelude.{◌≡◌, ◌<◌, ◌++◌, ◌∷◌, [], length, OnErr, OnOk};
ghost use Rattle.core_rules.specs.Term.{Def};
ghost use Rattle.core_rules.specs.Signature.{Family, Function, Open, defs};
ghost use Rattle.core_rules.specs.Mapped.{AllDecl, AllFamily, AllTree, decl_map, fam_map, tree_map};
ghost use Rattle.core_rules.specs.InScope.{DeclInScope, FamilyInScope, InScope, TreeInScope, any_meta};
ghost use Rattle.core_rules.specs.Derivable.{Derivable};
ghost use Rattle.term_pool.specs.Pool.{Extends, tree as term_at};
ghost use Rattle.core_terms.specs.Signature.{Stands, decl_of, fam_of, signature_in};
ghost use Rattle.kernel_rules.specs.DeclLaws.{IsHandedIn};
ghost use Rattle.kernel_rules.specs.TermReading.{IsTypeOf};
ghost use Rattle.tree_kernel.specs.Answers.{AnswersDecl, AnswersType};
ghost use Rattle.tree_kernel.specs.Reading.{ReadsDecl, ReadsTree};

use crate::error::DeclError;
use crate::laws::accepted_decl_is_derivable;
use crate::tree::check_tree;
use core_kernel::{check_family, is_type};
use core_terms::{CoreDecl, Limits, NameId, Row, Signature, Telescope, TermId, TermPool, Tree};
use std::alloc::Global;

/// Adds a declaration to the signature with the ids that come next, where it is good over the signature, or says why it is refused,
/// exactly as the kernel's reading says. Where it is refused, or memory runs out, the signature is as before. The declaration is in
/// scope. Over a derivable signature an accepted declaration, in whose clauses no metavariable stands, gives a derivable one.
pub fn check_decl(
    alloc: Global,
    pool: &mut TermPool,
    sig: &mut Signature,
    decl: CoreDecl,
    limits: Limits,
) -> Result<(), DeclError>
    requires stands { Stands pool.old sig.old }
    requires decl { AllDecl (λ t. t < length pool.old.trees) (decl_of decl) }
    requires scope { DeclInScope (signature_in pool.old sig.old) any_meta (decl_map (term_at pool.old) (decl_of decl)) }
    ensures extends { Extends pool.old pool.new }
    ensures answer { AnswersDecl pool.new (ReadsDecl (signature_in pool.old sig.old) limits.fuel limits.depth
        (decl_map (term_at pool.old) (decl_of decl))) result }
    ensures added { OnOk result (sig.new ≡ sig.old ++ decl_of decl ∷ []) }
    ensures refused { OnErr result (sig.new ≡ sig.old) }
    ensures derivable { OnOk result (Derivable (signature_in pool.old sig.old)
        → IsHandedIn (signature_in pool.old sig.old) (decl_map (term_at pool.old) (decl_of decl))
        → Derivable (signature_in pool.new sig.new)) }
{
    accepted_decl_is_derivable();
    add_judged(alloc, pool, sig, decl, limits)
}

/// The same, of which nothing is said by the rules.
fn add_judged(
    alloc: Global,
    pool: &mut TermPool,
    sig: &mut Signature,
    decl: CoreDecl,
    limits: Limits,
) -> Result<(), DeclError>
    requires stands { Stands pool.old sig.old }
    requires decl { AllDecl (λ t. t < length pool.old.trees) (decl_of decl) }
    requires scope { DeclInScope (signature_in pool.old sig.old) any_meta (decl_map (term_at pool.old) (decl_of decl)) }
    ensures extends { Extends pool.old pool.new }
    ensures answer { AnswersDecl pool.new (ReadsDecl (signature_in pool.old sig.old) limits.fuel limits.depth
        (decl_map (term_at pool.old) (decl_of decl))) result }
    ensures added { OnOk result (sig.new ≡ sig.old ++ decl_of decl ∷ []) }
    ensures refused { OnErr result (sig.new ≡ sig.old) }
{
    match judge(alloc, pool, sig, &decl, limits) {
        Ok(()) => Ok(sig.add(decl)?),
        Err(error) => Err(error),
    }
}

/// The same of a declaration that is not added.
fn judge(
    alloc: Global,
    pool: &mut TermPool,
    sig: &mut Signature,
    decl: &CoreDecl,
    limits: Limits,
) -> Result<(), DeclError>
    requires stands { Stands pool.old sig.old }
    requires decl { AllDecl (λ t. t < length pool.old.trees) (decl_of decl.now) }
    requires scope { DeclInScope (signature_in pool.old sig.old) any_meta (decl_map (term_at pool.old) (decl_of decl.now)) }
    ensures extends { Extends pool.old pool.new }
    ensures same { sig.new ≡ sig.old }
    ensures answer { AnswersDecl pool.new (ReadsDecl (signature_in pool.old sig.old) limits.fuel limits.depth
        (decl_map (term_at pool.old) (decl_of decl.now))) result }
{
    match decl {
        CoreDecl::Postulate { ty, .. } => check_type(alloc, pool, sig, *ty, limits),
        CoreDecl::Family { .. } => judge_family(alloc, pool, sig, decl, limits),
        CoreDecl::Function { name, ty, tree, .. } => {
            judge_function(alloc, pool, sig, *name, *ty, tree, limits)
        }
    }
}

/// The same of a family.
fn judge_family(
    alloc: Global,
    pool: &mut TermPool,
    sig: &mut Signature,
    decl: &CoreDecl,
    limits: Limits,
) -> Result<(), DeclError>
    requires stands { Stands pool.old sig.old }
    requires family { decl_of decl.now ≡ Family (fam_of decl.now) }
    requires decl { AllFamily (λ t. t < length pool.old.trees) (fam_of decl.now) }
    requires scope { FamilyInScope (signature_in pool.old sig.old) any_meta (fam_map (term_at pool.old) (fam_of decl.now)) }
    ensures extends { Extends pool.old pool.new }
    ensures same { sig.new ≡ sig.old }
    ensures answer { AnswersDecl pool.new (ReadsDecl (signature_in pool.old sig.old) limits.fuel limits.depth
        (Family (fam_map (term_at pool.old) (fam_of decl.now)))) result }
{
    match check_family(alloc, pool, sig, decl, limits) {
        Ok(()) => Ok(()),
        Err(error) => Err(DeclError::from(error)),
    }
}

/// The same of a function, of which the clauses are not looked at.
fn judge_function(
    alloc: Global,
    pool: &mut TermPool,
    sig: &mut Signature,
    name: NameId,
    ty: TermId,
    tree: &Tree,
    limits: Limits,
) -> Result<(), DeclError>
    requires stands { Stands pool.old sig.old }
    requires ty { ty < length pool.old.trees }
    requires tree { AllTree (λ i. i < length pool.old.trees) tree.now }
    requires scope { InScope (signature_in pool.old sig.old) any_meta 0 (term_at pool.old ty) }
    requires opened { TreeInScope (signature_in pool.old sig.old ++ Open name (term_at pool.old ty) ∷ []) any_meta 0 (tree_map (term_at pool.old) tree.now) }
    ensures extends { Extends pool.old pool.new }
    ensures same { sig.new ≡ sig.old }
    ensures answer { AnswersDecl pool.new (ReadsDecl (signature_in pool.old sig.old) limits.fuel limits.depth
        (Function name (term_at pool.old ty) [] (tree_map (term_at pool.old) tree.now))) result }
{
    match check_type(alloc, pool, sig, ty, limits) {
        Ok(()) => check_function(alloc, pool, sig, name, ty, tree, limits),
        Err(error) => Err(error),
    }
}

/// That a type is one where nothing is bound.
fn check_type(
    alloc: Global,
    pool: &mut TermPool,
    sig: &Signature,
    ty: TermId,
    limits: Limits,
) -> Result<(), DeclError>
    requires stands { Stands pool.old sig.now }
    requires ty { ty < length pool.old.trees }
    requires scope { InScope (signature_in pool.old sig.now) any_meta 0 (term_at pool.old ty) }
    ensures extends { Extends pool.old pool.new }
    ensures is { AnswersType pool.new (IsTypeOf (signature_in pool.old sig.now) limits.fuel limits.depth [] (term_at pool.old ty)) result }
{
    let context = Telescope {
        entries: Row::from_vec(Vec::new(alloc)),
    };
    is_type(alloc, pool, sig, &context, ty, limits)?;
    Ok(())
}

/// That the tree of a function, which is known without it, gives terms of its type.
fn check_function(
    alloc: Global,
    pool: &mut TermPool,
    sig: &mut Signature,
    name: NameId,
    ty: TermId,
    tree: &Tree,
    limits: Limits,
) -> Result<(), DeclError>
    requires stands { Stands pool.old sig.old }
    requires ty { ty < length pool.old.trees }
    requires tree { AllTree (λ i. i < length pool.old.trees) tree.now }
    requires scope { TreeInScope (signature_in pool.old (sig.old ++ Open name ty ∷ [])) any_meta 0 (tree_map (term_at pool.old) tree.now) }
    ensures extends { Extends pool.old pool.new }
    ensures same { sig.new ≡ sig.old }
    ensures is { AnswersDecl pool.new (ReadsTree (signature_in pool.old (sig.old ++ Open name ty ∷ [])) limits.fuel limits.depth []
        (tree_map (term_at pool.old) tree.now) (term_at pool.old ty) (Def (length (defs sig.old)))) result }
{
    let mark = sig.mark();
    let function = sig.add_open(name, ty)?;
    let answer = check_tree(alloc, pool, sig, function, ty, tree, limits);
    sig.cut(mark);
    answer
}
