ghost use Rattle.std.specs.Prelude.{◌≡◌, [], OnOk};
ghost use Rattle.scope_check.specs.Answers.{Binds, Leaves};
ghost use Rattle.scope_check.specs.Decls as spec;
ghost use Rattle.scope_table.specs.Known.{Grows};
ghost use Rattle.source_tree.specs.declared.decl.Decl.TheVariants as d;

use crate::error::{ScopeError, ScopeKind};
use crate::exprs::{binders, expr};
use crate::holes::Holes;
use crate::names::{bind, label, refused};
use crate::parts::Parts;
use crate::postulates::{fresh, signed};
use el_outside::{NoMemory, Text};
use resolved_tree::{Resolved, ResolvedItem, ResolvedSignature};
use scope_table::{Fields, Locals, Scope, Texts};
use source_tree::{Binder, Expr, Name, Place, RecordItem, Signature};
use sqlite_items::Items;
use std::alloc::Global;

/// Tests that no field before it has the name.
fn new_field(alloc: Global, seen: &mut Texts, name: &Name) -> Result<(), ScopeError>
    ensures { Leaves (spec.new_field seen.old name.now) result seen.new }
{
    if !seen.put(name.text.as_str())? {
        return refused(alloc, ScopeKind::Duplicate, name);
    }
    Ok(())
}

#[tactic(auto, unfolding(crate::specs::Decls::new_fields))]
fn new_fields(alloc: Global, seen: &mut Texts, all: &[Name]) -> Result<(), ScopeError>
    ensures { Leaves (spec.new_fields seen.old all.now) result seen.new }
{
    let mut left = all;
    while let [name, rest @ ..] = left {
        new_field(alloc, seen, name)?;
        left = rest;
    }
    Ok(())
}

/// One line of fields. The earlier fields are variables of the later ones.
fn field_line(
    alloc: Global,
    scope: &Scope,
    parts: &mut Parts,
    found: &Signature,
) -> Result<ResolvedSignature, ScopeError>
    ensures { Binds (spec.field_line scope.now parts.old found.now) result parts.new }
{
    new_fields(alloc, &mut parts.fields, found.names.as_slice())?;
    let ty = expr(alloc, scope, Holes::Allowed, &mut parts.locals, &found.ty)?;
    bind(&mut parts.locals, found.names.as_slice())?;
    Ok(signed(alloc, scope, found, ty)?)
}

#[tactic(auto, unfolding(crate::specs::Decls::field_lines))]
fn field_lines(
    alloc: Global,
    scope: &Scope,
    parts: &mut Parts,
    all: &[Signature],
) -> Result<Items<ResolvedSignature>, ScopeError>
    ensures { Binds (spec.field_lines scope.now [] all.now parts.old) result parts.new }
{
    let mut found = Items::new(alloc);
    let mut left = all;
    while let [one, rest @ ..] = left {
        found.push(field_line(alloc, scope, parts, one)?)?;
        left = rest;
    }
    Ok(found)
}

/// The name of the constructor, of which a record has one at most.
fn con_item(
    alloc: Global,
    scope: &Scope,
    parts: &mut Parts,
    place: Place,
    name: &Name,
) -> Result<ResolvedItem, ScopeError>
    ensures { Binds (spec.con_item scope.now parts.old place name.now) result parts.new }
{
    fresh(alloc, scope, name)?;
    if parts.con.is_some() {
        return refused(alloc, ScopeKind::Duplicate, name);
    }
    parts.con = Some(name.text.copy(alloc)?);
    Ok(ResolvedItem::Constructor(place, label(scope, name)))
}

fn item(
    alloc: Global,
    scope: &Scope,
    parts: &mut Parts,
    found: &RecordItem,
) -> Result<ResolvedItem, ScopeError>
    ensures { Binds (spec.item scope.now parts.old found.now) result parts.new }
{
    match found {
        RecordItem::Inductive(place) => Ok(ResolvedItem::Inductive(*place)),
        RecordItem::Coinductive(place) => Ok(ResolvedItem::Coinductive(*place)),
        RecordItem::Constructor(place, name) => con_item(alloc, scope, parts, *place, name),
        RecordItem::Field(place, all) => {
            let all = field_lines(alloc, scope, parts, all.as_slice())?;
            Ok(ResolvedItem::Field(*place, all))
        }
    }
}

#[tactic(auto, unfolding(crate::specs::Decls::items_from))]
fn items(
    alloc: Global,
    scope: &Scope,
    parts: &mut Parts,
    all: &[RecordItem],
) -> Result<Items<ResolvedItem>, ScopeError>
    ensures { Binds (spec.items_from scope.now [] all.now parts.old) result parts.new }
{
    let mut found = Items::new(alloc);
    let mut left = all;
    while let [one, rest @ ..] = left {
        found.push(item(alloc, scope, parts, one)?)?;
        left = rest;
    }
    Ok(found)
}

/// The constructor of a record that is done, which may have no name.
#[tactic(auto, using(scope_table::proofs::Grown::grows))]
fn declare_con(scope: &mut Scope, con: &Option<Text>) -> Result<(), NoMemory>
    ensures ok { OnOk result (scope.new ≡ spec.with_record_con scope.old con.now) }
    ensures grows { Grows scope.old scope.new }
{
    match con {
        Some(text) => scope.declare_con(text.as_str()),
        None => scope.declare_nameless_con(),
    }
}

/// The fields of a record that is done, as `R.f`.
#[tactic(auto, using(scope_table::proofs::Grown::grows), unfolding(crate::specs::Decls::with_fields))]
fn declare_fields(scope: &mut Scope, name: &str, all: &[Text]) -> Result<(), NoMemory>
    ensures ok { OnOk result (scope.new ≡ spec.with_fields scope.old name.now all.now) }
    ensures grows { Grows scope.old scope.new }
{
    let mut left = all;
    while let [text, rest @ ..] = left {
        scope.declare_field(name, text.as_str())?;
        left = rest;
    }
    Ok(())
}

/// What comes into scope behind a record.
#[tactic(auto, using(scope_table::proofs::Grown::grows))]
fn finish_record(
    alloc: Global,
    scope: &mut Scope,
    name: &str,
    parts: &Parts,
) -> Result<(), NoMemory>
    ensures ok { OnOk result (scope.new ≡ spec.with_record scope.old name.now parts.now) }
    ensures grows { Grows scope.old scope.new }
{
    let first = scope.next_field();
    let names = parts.fields.copy(alloc)?;
    declare_con(scope, &parts.con)?;
    declare_fields(scope, name, names.as_slice())?;
    scope.finish_family(Some(Fields { first, names }))
}

#[tactic(auto, using(scope_table::proofs::Grown::grows))]
fn record_of(
    alloc: Global,
    scope: &mut Scope,
    place: Place,
    name: &Name,
    around: &[Binder],
    ty: &Expr,
    all: &[RecordItem],
) -> Result<Resolved, ScopeError>
    ensures binds { Binds (spec.record_of scope.old place name.now around.now ty.now all.now) result scope.new }
    ensures grows { Grows scope.old scope.new }
{
    let mut locals = Locals::new(alloc);
    let around = binders(alloc, scope, Holes::Allowed, &mut locals, around)?;
    let ty = expr(alloc, scope, Holes::Allowed, &mut locals, ty)?;
    let label = label(scope, name);
    scope.declare_family(name.text.as_str())?;
    let mut parts = Parts {
        con: None,
        fields: Texts::new(alloc),
        locals,
    };
    let all = items(alloc, scope, &mut parts, all)?;
    finish_record(alloc, scope, name.text.as_str(), &parts)?;
    Ok(Resolved::Record(place, label, around, ty, all))
}

/// A record type.
#[tactic(auto, using(scope_table::proofs::Grown::grows))]
pub fn record_type(
    alloc: Global,
    scope: &mut Scope,
    place: Place,
    name: &Name,
    around: &[Binder],
    ty: &Expr,
    all: &[RecordItem],
) -> Result<Resolved, ScopeError>
    ensures binds { Binds (spec.declared scope.old (d.Record place name.now around.now ty.now all.now)) result scope.new }
    ensures grows { Grows scope.old scope.new }
{
    fresh(alloc, scope, name)?;
    record_of(alloc, scope, place, name, around, ty, all)
}
