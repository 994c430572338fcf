//! The walk over the declarations: each is resolved, and then judged.

ghost use Rattle.std.specs.Prelude.{◌≡◌};
ghost use Rattle.file_load.specs.Lines.{DeclOf};
ghost use Rattle.file_load.specs.Judged.{Agrees, IsNotResolved, Judges, LoadsDecl, LoadsDecls, declared};
ghost use Rattle.file_load.specs.Load as spec;

use crate::errors::{error_at, named_error};
use crate::families::declare_family;
use crate::lines::declare_lines;
use crate::state::Core;
use crate::stop::Stop;
use core_terms::Limits;
use scope_check::{Resolved, ScopeError, ScopeKind, resolve};
use session_text::LoadKind;
use source_tree::Decl;
use std::alloc::Global;

/// The error of a name.
fn scope_kind(kind: ScopeKind) -> LoadKind
    ensures { result ≡ spec.scope_kind kind }
{
    match kind {
        ScopeKind::NotInScope => LoadKind::NotInScope,
        ScopeKind::Duplicate => LoadKind::Duplicate,
        ScopeKind::NotAConstructor => LoadKind::NotAConstructor,
        ScopeKind::Nonlinear => LoadKind::Nonlinear,
        ScopeKind::Misplaced => LoadKind::Misplaced,
    }
}

/// Judges a declaration that is resolved.
fn judge(core: &mut Core, decl: &Resolved, limits: Limits) -> Result<(), Stop>
    requires { Agrees core.old }
    ensures { Judges core.old core.new (DeclOf limits.fuel limits.depth (declared core.old) decl.now) result }
{
    match decl {
        Resolved::Postulate(_, lines) => declare_lines(core, lines.as_slice(), limits),
        Resolved::Data(_, name, _, _, _) | Resolved::Record(_, name, _, _, _) => {
            declare_family(core, name.place.pos, decl, limits)
        }
        Resolved::Open(_, _, _) => Ok(()),
        Resolved::Function(place, _, _) => {
            Err(Stop::Error(error_at(core.alloc, place.pos, LoadKind::Unsupported)))
        }
    }
}

/// The error of a name that is refused.
fn not_resolved(alloc: Global, error: ScopeError) -> Stop
    ensures { IsNotResolved error result }
{
    match error {
        ScopeError::Bad { pos, kind, name } => {
            match named_error(alloc, pos, scope_kind(kind), name) {
                Ok(error) => Stop::Error(error),
                Err(_) => Stop::NoMemory,
            }
        }
        ScopeError::NoMemory => Stop::NoMemory,
    }
}

/// Resolves a declaration, and then judges it.
fn load_decl(core: &mut Core, decl: &Decl, limits: Limits) -> Result<(), Stop>
    requires { Agrees core.old }
    ensures { LoadsDecl limits.fuel limits.depth core.old core.new decl.now result }
{
    match resolve(core.alloc, &mut core.scope, decl) {
        Ok(resolved) => judge(core, &resolved, limits),
        Err(error) => Err(not_resolved(core.alloc, error)),
    }
}

/// Resolves and judges the declarations in order.
pub fn load_decls(core: &mut Core, decls: &[Decl], limits: Limits) -> Result<(), Stop>
    requires { Agrees core.old }
    ensures { LoadsDecls limits.fuel limits.depth core.old core.new decls.now result }
{
    for decl in decls {
        load_decl(core, decl, limits)?;
    }
    Ok(())
}
