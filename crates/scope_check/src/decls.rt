ghost use Rattle.std.specs.Prelude.{◌≡◌, OnErr};
ghost use Rattle.scope_check.specs.Answers.{Binds, Meets};
ghost use Rattle.scope_check.specs.Decls as spec;
ghost use Rattle.scope_table.specs.Known.{Grows};
ghost use Rattle.scope_check.specs.Resolves.{Resolves};

use crate::error::{ScopeError, ScopeKind};
use crate::families::data;
use crate::functions::function;
use crate::mentions::Mentions;
use crate::names::refused;
use crate::opens::open_named;
use crate::postulates::postulate_lines;
use crate::records::record_type;
use resolved_tree::Resolved;
use scope_table::Scope;
use source_tree::Decl;
use std::alloc::Global;

/// The declaration, whose names have their numbers.
#[tactic(auto, using(scope_table::proofs::Grown::grows))]
fn declared(alloc: Global, scope: &mut Scope, found: &Decl) -> Result<Resolved, ScopeError>
    ensures binds { Binds (spec.declared scope.old found.now) result scope.new }
    ensures grows { Grows scope.old scope.new }
{
    match found {
        Decl::Postulate(place, all) => {
            let all = postulate_lines(alloc, scope, all.as_slice())?;
            Ok(Resolved::Postulate(*place, all))
        }
        Decl::Function(place, head, all) => function(alloc, scope, *place, head, all.as_slice()),
        Decl::Clause(clause) => refused(alloc, ScopeKind::Misplaced, &clause.name),
        Decl::Open(place, name, public) => open_named(alloc, scope, *place, name, *public),
        Decl::Data(place, name, around, ty, all) => data(
            alloc,
            scope,
            *place,
            name,
            around.as_slice(),
            ty,
            all.as_slice(),
        ),
        Decl::Record(place, name, around, ty, all) => record_type(
            alloc,
            scope,
            *place,
            name,
            around.as_slice(),
            ty,
            all.as_slice(),
        ),
    }
}

/// Gives the names their numbers first.
#[tactic(auto, using(scope_table::proofs::Grown::grows))]
fn numbered(alloc: Global, scope: &mut Scope, found: &Decl) -> Result<Resolved, ScopeError>
    ensures binds { Binds (spec.resolved scope.old found.now) result scope.new }
    ensures grows { Grows scope.old scope.new }
{
    let mut mentions = Mentions::new(alloc);
    mentions.decl(found)?;
    scope.note_all(mentions.texts())?;
    declared(alloc, scope, found)
}

/// Resolves the names of a declaration, and brings what it declares into scope.
///
/// # Errors
///
/// The first refusal of a name from left to right: `NotInScope`, `Duplicate`, `NotAConstructor`, `Nonlinear` or `Misplaced`, at
/// the name, with its text. Or want of memory. The scope is then as before.
#[tactic(auto, using(crate::proofs::DeclCases::resolved_by))]
pub fn resolve(alloc: Global, scope: &mut Scope, decl: &Decl) -> Result<Resolved, ScopeError>
    ensures resolves { Meets (Resolves scope.old decl.now) result scope.new }
    ensures refused { OnErr result (scope.new ≡ scope.old) }
    ensures grows { Grows scope.old scope.new }
{
    let mark = scope.mark();
    match numbered(alloc, scope, decl) {
        Ok(found) => Ok(found),
        Err(error) => {
            scope.cut(mark);
            Err(error)
        }
    }
}
