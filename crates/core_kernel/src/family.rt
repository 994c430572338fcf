//! The call of the kernel on a family.

ghost use Rattle.std.specs.Prelude.{◌≡◌, ◌<◌, length, IfOk};
ghost use Rattle.std.specs.List.{AllByRecursion};
ghost use Rattle.core_rules.specs.Mapped.{AllFamily, con_map, fam_map};
ghost use Rattle.core_rules.specs.Signature.{Family, fams, without_cons as known_first};
ghost use Rattle.core_rules.specs.InScope.{ConInScope, FamilyInScope, any_meta};
ghost use Rattle.core_rules.specs.Derivable.{Derivable, GoodFamily};
ghost use Rattle.term_pool.specs.Pool.{Extends, tree};
ghost use Rattle.core_terms.specs.Signature.{Stands, signature_in, decl_of, fam_of};
ghost use Rattle.kernel_rules.specs.FamilyReading.{ConsOf, FamilyOf};
ghost use Rattle.core_kernel.specs.Answers.{Answers, AnswersFamily};
ghost use Rattle.core_kernel.specs.Family.{TelescopesOf};

use crate::checker::Checker;
use crate::error::{FamilyError, KernelError};
use core_terms::{CoreDecl, FamId, Limits, NoMemory, Row, Signature, Telescope, TermPool};
use std::alloc::Global;

/// Whether a family is good over the signature, or why it is refused, exactly as the kernel's reading says. The signature does not
/// know it yet, and is left as it was.
pub fn check_family(
    alloc: Global,
    pool: &mut TermPool,
    sig: &mut Signature,
    decl: &CoreDecl,
    limits: Limits,
) -> Result<(), FamilyError>
    requires stands { Stands pool.old sig.old }
    requires family { decl_of decl.now ≡ Family (fam_of decl.now) }
    requires decl { AllFamily (λ t. t < length pool.old.trees) (fam_of decl.now) }
    requires scope { FamilyInScope (signature_in pool.old sig.old) any_meta (fam_map (tree pool.old) (fam_of decl.now)) }
    ensures extends { Extends pool.old pool.new }
    ensures signature { sig.new ≡ sig.old }
    ensures answer { AnswersFamily pool.new (FamilyOf (signature_in pool.old sig.old) limits.fuel limits.depth
        (fam_map (tree pool.old) (fam_of decl.now))) result }
    ensures good { IfOk result (λ o. Derivable (signature_in pool.old sig.old)
        → GoodFamily (signature_in pool.old sig.old) (fam_map (tree pool.old) (fam_of decl.now))) }
{
    check_telescopes(alloc, pool, sig, decl, limits)?;
    let known = without_cons(alloc, decl)?;
    let mark = sig.mark();
    let fam = FamId::new(sig.fams());
    sig.add(known)?;
    let answer = check_cons(alloc, pool, sig, fam, decl, limits);
    sig.cut(mark);
    answer
}

/// The parameters and the indices.
fn check_telescopes(
    alloc: Global,
    pool: &mut TermPool,
    sig: &Signature,
    decl: &CoreDecl,
    limits: Limits,
) -> Result<(), KernelError>
    requires stands { Stands pool.old sig.now }
    requires family { decl_of decl.now ≡ Family (fam_of decl.now) }
    requires decl { AllFamily (λ t. t < length pool.old.trees) (fam_of decl.now) }
    requires scope { FamilyInScope (signature_in pool.old sig.now) any_meta (fam_map (tree pool.old) (fam_of decl.now)) }
    ensures extends { Extends pool.old pool.new }
    ensures is { Answers pool.new (TelescopesOf (signature_in pool.old sig.now) limits.fuel limits.depth
        (fam_map (tree pool.old) (fam_of decl.now))) result }
{
    let mut context = Vec::new(alloc);
    let mut checker = Checker {
        pool,
        signature: sig,
        context: &mut context,
        limits,
        alloc,
    };
    checker.check_telescopes(decl)
}

/// The family as it is known before its constructors and fields.
fn without_cons(alloc: Global, decl: &CoreDecl) -> Result<CoreDecl, NoMemory>
    requires { decl_of decl.now ≡ Family (fam_of decl.now) }
    ensures { IfOk result (λ d. decl_of d ≡ Family (known_first (fam_of decl.now))) }
{
    let CoreDecl::Family {
        name,
        params,
        indices,
        level,
        ..
    } = decl
    else {
        unreachable!()
    };
    Ok(CoreDecl::Family {
        name: *name,
        params: copied(params)?,
        indices: copied(indices)?,
        level: *level,
        is_record: false,
        cons: Row::from_vec(Vec::new(alloc)),
        fields: Telescope {
            entries: Row::from_vec(Vec::new(alloc)),
        },
        eta: false,
        coinductive: false,
    })
}

/// A second telescope with the same entries.
fn copied(telescope: &Telescope) -> Result<Telescope, NoMemory>
    ensures { IfOk result (λ t. t ≡ telescope.now) }
{
    let entries = telescope.entries.copy()?;
    Ok(Telescope { entries })
}

/// The constructors of family `fam`, which the signature knows without them.
fn check_cons(
    alloc: Global,
    pool: &mut TermPool,
    sig: &Signature,
    fam: FamId,
    decl: &CoreDecl,
    limits: Limits,
) -> Result<(), FamilyError>
    requires stands { Stands pool.old sig.now }
    requires family { decl_of decl.now ≡ Family (fam_of decl.now) }
    requires decl { AllFamily (λ t. t < length pool.old.trees) (fam_of decl.now) }
    requires fam { fam < length (fams sig.now) }
    requires scope { AllByRecursion (λ k. ConInScope (signature_in pool.old sig.now) any_meta (length (fam_of decl.now).params)
        (con_map (tree pool.old) k)) (fam_of decl.now).cons }
    ensures extends { Extends pool.old pool.new }
    ensures is { AnswersFamily pool.new (ConsOf (signature_in pool.old sig.now) limits.fuel limits.depth fam
        (fam_map (tree pool.old) (fam_of decl.now)) (fam_map (tree pool.old) (fam_of decl.now)).cons) result }
{
    let CoreDecl::Family { params, cons, .. } = decl else {
        unreachable!()
    };
    let mut context = Vec::from_slice(alloc, params.entries.as_slice())?;
    let mut checker = Checker {
        pool,
        signature: sig,
        context: &mut context,
        limits,
        alloc,
    };
    checker.check_cons(fam, decl, cons.as_slice())
}
