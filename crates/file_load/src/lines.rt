//! Blocks of postulates, line by line.

ghost use Rattle.std.specs.Prelude.{◌≡◌, ◌<◌, ◌++◌, [], length, OnOk};
ghost use Rattle.core_rules.specs.InScope.{InScope, any_meta};
ghost use Rattle.core_rules.specs.Derivable.{Derivable};
ghost use Rattle.term_pool.specs.Pool.{Extends, tree};
ghost use Rattle.core_terms.specs.Signature.{Stands, signature_in};
ghost use Rattle.kernel_rules.specs.TermReading.{IsTypeOf};
ghost use Rattle.written_rules.specs.Expressions.{WrittenTypeOf};
ghost use Rattle.file_load.specs.Kinds.{elab_kind, kernel_kind};
ghost use Rattle.file_load.specs.Passes.{error_at as told_at};
ghost use Rattle.file_load.specs.Lines.{LineOf, LinesOf, TypePasses};
ghost use Rattle.file_load.specs.Judged.{Agrees, Checks, Elaborates, Judges, Passed, declared, is_within, postulates_of, typed_in};

use crate::measure::measure_term;
use crate::state::Core;
use crate::stop::{Stop, not_checked, not_elaborated};
use core_kernel::is_type;
use core_terms::{CoreDecl, Limits, NoMemory, Row, Signature, Telescope, TermId, TermPool};
use elab_machine::type_written;
use scope_check::{ResolvedName, ResolvedSignature};
use std::alloc::Global;

/// The term of a line's type and its level, by the written rules.
fn elaborate(
    alloc: Global,
    pool: &mut TermPool,
    signature: &Signature,
    line: &ResolvedSignature,
    limits: Limits,
) -> Result<(TermId, u32), Stop>
    requires stands { Stands pool.old signature.now }
    ensures extends { Extends pool.old pool.new }
    ensures elaborated { Elaborates (WrittenTypeOf (signature_in pool.old signature.now) limits.fuel limits.depth [] line.now.ty)
        (λ e. told_at e.pos (elab_kind e.kind)) (is_within pool.new) (typed_in pool.new) result }
{
    match type_written(alloc, pool, signature, &[], &line.ty, limits) {
        Ok(typed) => Ok(typed),
        Err(error) => Err(not_elaborated(alloc, error)),
    }
}

/// The kernel takes the type of a line for a type.
fn check(
    alloc: Global,
    pool: &mut TermPool,
    signature: &Signature,
    line: &ResolvedSignature,
    ty: TermId,
    limits: Limits,
) -> Result<(), Stop>
    requires stands { Stands pool.old signature.now }
    requires ty { ty < length pool.old.trees }
    requires scope { InScope (signature_in pool.old signature.now) any_meta 0 (tree pool.old ty) }
    ensures extends { Extends pool.old pool.new }
    ensures checked { Checks (IsTypeOf (signature_in pool.old signature.now) limits.fuel limits.depth [] (tree pool.old ty))
        kernel_kind line.now.place.pos result }
{
    let nothing = Telescope {
        entries: Row::from_vec(Vec::new(alloc)),
    };
    match is_type(alloc, pool, signature, &nothing, ty, limits) {
        Ok(_) => Ok(()),
        Err(error) => Err(not_checked(alloc, line.place.pos, error)),
    }
}

/// The type of a line with its level: elaborated, measured, and checked by the kernel.
fn judge_type(
    alloc: Global,
    pool: &mut TermPool,
    signature: &Signature,
    line: &ResolvedSignature,
    limits: Limits,
) -> Result<(TermId, u32), Stop>
    requires stands { Stands pool.old signature.now }
    requires derivable { Derivable (signature_in pool.old signature.now) }
    ensures extends { Extends pool.old pool.new }
    ensures passed { Passed (TypePasses limits.fuel limits.depth (signature_in pool.old signature.now) line.now)
        (is_within pool.new) (typed_in pool.new) result }
{
    let typed = elaborate(alloc, pool, signature, line, limits)?;
    measure_term(alloc, pool, line.place.pos, typed.0)?;
    check(alloc, pool, signature, line, typed.0, limits)?;
    Ok(typed)
}

/// Adds postulates of one type.
fn postulate(signature: &mut Signature, names: &[ResolvedName], ty: TermId) -> Result<(), NoMemory>
    ensures { OnOk result (signature.new ≡ signature.old ++ postulates_of names.now ty) }
{
    for name in names {
        signature.add(CoreDecl::Postulate { name: name.id, ty })?;
    }
    Ok(())
}

/// Judges the type of a line, once for all its names, and declares them.
fn declare_line(core: &mut Core, line: &ResolvedSignature, limits: Limits) -> Result<(), Stop>
    requires { Agrees core.old }
    ensures { Judges core.old core.new (LineOf limits.fuel limits.depth (declared core.old) line.now) result }
{
    let typed = judge_type(core.alloc, &mut core.pool, &core.signature, line, limits)?;
    postulate(&mut core.signature, line.names.as_slice(), typed.0)?;
    Ok(())
}

/// Judges the lines of a block in order.
pub fn declare_lines(
    core: &mut Core,
    lines: &[ResolvedSignature],
    limits: Limits,
) -> Result<(), Stop>
    requires { Agrees core.old }
    ensures { Judges core.old core.new (LinesOf limits.fuel limits.depth (declared core.old) lines.now) result }
{
    for line in lines {
        declare_line(core, line, limits)?;
    }
    Ok(())
}
