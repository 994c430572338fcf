ghost use Rattle.std.specs.Prelude.{◌≡◌, map, Some, IfOk, OnOk};
ghost use Rattle.scope_check.specs.Answers.{Answers, refused as is_refused, refused_hole as is_refused_hole};
ghost use Rattle.scope_check.specs.Exprs as spec;

use crate::error::{ScopeError, ScopeKind};
use crate::head::Head;
use el_outside::{NoMemory, Text};
use resolved_tree::{ResolvedExpr, ResolvedName};
use scope_table::{GlobalId, Locals, Scope};
use source_tree::{Name, Place};
use sqlite_items::Items;
use std::alloc::Global;
use term_pool::FieldId;

/// Refuses a name.
pub fn refused<T>(alloc: Global, kind: ScopeKind, name: &Name) -> Result<T, ScopeError>
    ensures { Answers (is_refused kind name.now) result }
{
    let text = name.text.copy(alloc)?;
    Err(ScopeError::Bad {
        pos: name.place.pos,
        kind,
        name: text,
    })
}

/// Refuses a hole.
pub fn refused_hole<T>(alloc: Global, place: Place) -> Result<T, ScopeError>
    ensures { Answers (is_refused_hole place) result }
{
    let text = Text::from_str(alloc, "?")?;
    Err(ScopeError::Bad {
        pos: place.pos,
        kind: ScopeKind::Misplaced,
        name: text,
    })
}

/// A name that is bound, declared or a label.
pub fn label(scope: &Scope, name: &Name) -> ResolvedName
    ensures { result ≡ spec.label scope.now name.now }
{
    ResolvedName {
        id: scope.number(name.text.as_str()),
        place: name.place,
    }
}

pub fn labels(alloc: Global, scope: &Scope, names: &[Name]) -> Result<Items<ResolvedName>, NoMemory>
    ensures { IfOk result (λ xs. xs ≡ map (spec.label scope.now) names.now) }
{
    let mut found = Items::new(alloc);
    for name in names {
        found.push(label(scope, name))?;
    }
    Ok(found)
}

/// Puts the names inside the variables around, the last one the innermost.
pub fn bind(locals: &mut Locals, names: &[Name]) -> Result<(), NoMemory>
    ensures { OnOk result (locals.new ≡ spec.under locals.old names.now) }
{
    for name in names {
        locals.push(name.text.as_str())?;
    }
    Ok(())
}

/// A global at the name.
fn by_global(alloc: Global, name: &Name, global: GlobalId) -> Result<Head, ScopeError>
    ensures { Answers (spec.by_global name.now (Some global)) result }
{
    match global {
        GlobalId::Def(def) => Ok(Head::Whole(ResolvedExpr::Def(name.place, def))),
        GlobalId::Family(family) => Ok(Head::Whole(ResolvedExpr::Family(name.place, family))),
        GlobalId::Con(con) => Ok(Head::Whole(ResolvedExpr::Con(name.place, con))),
        GlobalId::Field(field) => {
            let text = name.text.copy(alloc)?;
            let place = name.place;
            Ok(Head::Field(Name { text, place }, field))
        }
    }
}

/// A name that is found among the globals.
pub fn qualified(alloc: Global, scope: &Scope, name: &Name) -> Result<Head, ScopeError>
    ensures { Answers (spec.qualified scope.now name.now) result }
{
    match scope.global(name.text.as_str()) {
        None => refused(alloc, ScopeKind::NotInScope, name),
        Some(global) => by_global(alloc, name, global),
    }
}

/// A name that is found among the variables around, or else among the globals.
pub fn named(alloc: Global, scope: &Scope, locals: &Locals, name: &Name) -> Result<Head, ScopeError>
    ensures { Answers (spec.named scope.now locals.now name.now) result }
{
    match locals.find(name.text.as_str()) {
        Some(index) => Ok(Head::Whole(ResolvedExpr::Variable(name.place, index))),
        None => qualified(alloc, scope, name),
    }
}

/// The field that a global is.
fn field_in(global: GlobalId) -> Option<FieldId>
    ensures { result ≡ spec.field_in global }
{
    match global {
        GlobalId::Field(field) => Some(field),
        GlobalId::Def(_) | GlobalId::Family(_) | GlobalId::Con(_) => None,
    }
}

/// The field that a name is.
pub fn field_named(scope: &Scope, name: &Name) -> Option<FieldId>
    ensures { result ≡ spec.field_named scope.now name.now }
{
    let global = scope.global(name.text.as_str())?;
    field_in(global)
}

/// The field that a name behind a dot must be.
pub fn field_of(alloc: Global, scope: &Scope, name: &Name) -> Result<FieldId, ScopeError>
    ensures { Answers (spec.field_of scope.now name.now) result }
{
    match field_named(scope, name) {
        Some(field) => Ok(field),
        None => refused(alloc, ScopeKind::NotInScope, name),
    }
}

/// An expression that is not the head of an application.
pub fn whole(head: Head) -> Result<ResolvedExpr, ScopeError>
    ensures { Answers (spec.whole head) result }
{
    match head {
        Head::Whole(found) => Ok(found),
        Head::Field(name, _) => Err(ScopeError::Bad {
            pos: name.place.pos,
            kind: ScopeKind::Misplaced,
            name: name.text,
        }),
    }
}
