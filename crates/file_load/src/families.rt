//! Data and record declarations.

ghost use Rattle.std.specs.Prelude.{◌≡◌, ◌<◌, length};
ghost use Rattle.core_rules.specs.Signature.{Family};
ghost use Rattle.core_rules.specs.Mapped.{AllFamily, fam_map};
ghost use Rattle.core_rules.specs.InScope.{FamilyInScope, any_meta};
ghost use Rattle.core_rules.specs.Derivable.{Derivable};
ghost use Rattle.term_pool.specs.Pool.{Extends, tree};
ghost use Rattle.core_terms.specs.Signature.{Stands, decl_of, fam_of, signature_in};
ghost use Rattle.kernel_rules.specs.FamilyReading.{FamilyOf};
ghost use Rattle.data_rules.specs.Families.{IsFamily, WrittenFamilyOf};
ghost use Rattle.data_elab.specs.Family.{IsCoreFamily};
ghost use Rattle.file_load.specs.Kinds.{decl_kind, family_kind};
ghost use Rattle.file_load.specs.Passes.{error_at as told_at};
ghost use Rattle.file_load.specs.Lines.{FamilyDeclOf, FamilyPasses};
ghost use Rattle.file_load.specs.Judged.{Agrees, Checks, Elaborates, Judges, Passed, declared, family_in};

use crate::measure::measure_family;
use crate::state::Core;
use crate::stop::{Stop, family_not_checked, family_not_elaborated};
use core_kernel::check_family;
use core_terms::{CoreDecl, Limits, Signature, TermPool};
use data_elab::elab_written;
use el_outside::Pos;
use scope_check::Resolved;
use std::alloc::Global;

/// The family that a declaration is, by the written rules.
fn elaborate(
    alloc: Global,
    pool: &mut TermPool,
    signature: &mut Signature,
    decl: &Resolved,
    limits: Limits,
) -> Result<CoreDecl, Stop>
    requires stands { Stands pool.old signature.old }
    requires family { IsFamily decl.now }
    ensures extends { Extends pool.old pool.new }
    ensures signature { signature.new ≡ signature.old }
    ensures elaborated { Elaborates (WrittenFamilyOf (signature_in pool.old signature.old) limits.fuel limits.depth decl.now)
        (λ e. told_at e.pos (family_kind e.kind)) (IsCoreFamily pool.new) (family_in pool.new) result }
{
    match elab_written(alloc, pool, signature, decl, limits) {
        Ok(family) => Ok(family),
        Err(error) => Err(family_not_elaborated(alloc, error)),
    }
}

/// The kernel accepts the family.
fn check(
    alloc: Global,
    pool: &mut TermPool,
    signature: &mut Signature,
    pos: Pos,
    family: &CoreDecl,
    limits: Limits,
) -> Result<(), Stop>
    requires stands { Stands pool.old signature.old }
    requires family { decl_of family.now ≡ Family (fam_of family.now) }
    requires within { AllFamily (λ t. t < length pool.old.trees) (fam_of family.now) }
    requires scope { FamilyInScope (signature_in pool.old signature.old) any_meta (fam_map (tree pool.old) (fam_of family.now)) }
    ensures extends { Extends pool.old pool.new }
    ensures signature { signature.new ≡ signature.old }
    ensures checked { Checks (FamilyOf (signature_in pool.old signature.old) limits.fuel limits.depth (family_in pool.old family.now))
        decl_kind pos result }
{
    match check_family(alloc, pool, signature, family, limits) {
        Ok(()) => Ok(()),
        Err(error) => Err(family_not_checked(alloc, pos, error)),
    }
}

/// The family of a declaration whose name stands at `pos`: elaborated, measured, and checked by the kernel.
fn judge(
    alloc: Global,
    pool: &mut TermPool,
    signature: &mut Signature,
    pos: Pos,
    decl: &Resolved,
    limits: Limits,
) -> Result<CoreDecl, Stop>
    requires stands { Stands pool.old signature.old }
    requires derivable { Derivable (signature_in pool.old signature.old) }
    requires family { IsFamily decl.now }
    ensures extends { Extends pool.old pool.new }
    ensures signature { signature.new ≡ signature.old }
    ensures passed { Passed (FamilyPasses limits.fuel limits.depth (signature_in pool.old signature.old) pos decl.now)
        (IsCoreFamily pool.new) (family_in pool.new) result }
{
    let family = elaborate(alloc, pool, signature, decl, limits)?;
    measure_family(alloc, pool, pos, &family)?;
    check(alloc, pool, signature, pos, &family, limits)?;
    Ok(family)
}

/// Judges a data or record declaration whose name stands at `pos`, and declares it.
pub fn declare_family(
    core: &mut Core,
    pos: Pos,
    decl: &Resolved,
    limits: Limits,
) -> Result<(), Stop>
    requires agrees { Agrees core.old }
    requires family { IsFamily decl.now }
    ensures { Judges core.old core.new (FamilyDeclOf limits.fuel limits.depth (declared core.old) pos decl.now) result }
{
    let family = judge(
        core.alloc,
        &mut core.pool,
        &mut core.signature,
        pos,
        decl,
        limits,
    )?;
    core.signature.add(family)?;
    Ok(())
}
