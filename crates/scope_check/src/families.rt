ghost use Rattle.std.specs.Prelude.{◌≡◌, [], None, OnOk};
ghost use Rattle.scope_check.specs.Answers.{Binds};
ghost use Rattle.scope_check.specs.Decls as spec;
ghost use Rattle.scope_table.specs.Known.{Grows, with_families};
ghost use Rattle.source_tree.specs.declared.decl.Decl.TheVariants as d;

use crate::error::ScopeError;
use crate::exprs::{binders, expr};
use crate::holes::Holes;
use crate::names::label;
use crate::postulates::{fresh, new_names, signed};
use el_outside::{NoMemory, Text};
use resolved_tree::{Resolved, ResolvedSignature};
use scope_table::{Locals, Scope, Texts};
use source_tree::{Binder, Expr, Name, Place, Signature};
use sqlite_items::Items;
use std::alloc::Global;

/// One line of constructors, behind the names tested so far.
fn con_line(
    alloc: Global,
    scope: &Scope,
    locals: &mut Locals,
    seen: &mut Texts,
    found: &Signature,
) -> Result<ResolvedSignature, ScopeError>
    ensures binds { Binds (spec.con_line scope.now locals.old seen.old found.now) result seen.new }
    ensures locals { OnOk result (locals.new ≡ locals.old) }
{
    new_names(alloc, scope, seen, found.names.as_slice())?;
    let ty = expr(alloc, scope, Holes::Allowed, locals, &found.ty)?;
    Ok(signed(alloc, scope, found, ty)?)
}

#[tactic(auto, unfolding(crate::specs::Decls::con_lines))]
fn con_lines(
    alloc: Global,
    scope: &Scope,
    locals: &mut Locals,
    seen: &mut Texts,
    all: &[Signature],
) -> Result<Items<ResolvedSignature>, ScopeError>
    ensures { Binds (spec.con_lines scope.now locals.old [] all.now seen.old) result seen.new }
{
    let mut found = Items::new(alloc);
    let mut left = all;
    while let [one, rest @ ..] = left {
        found.push(con_line(alloc, scope, locals, seen, one)?)?;
        left = rest;
    }
    Ok(found)
}

/// The constructors of a type that is done.
#[tactic(auto, using(scope_table::proofs::Grown::grows), unfolding(crate::specs::Decls::with_cons))]
fn declare_cons(scope: &mut Scope, all: &[Text]) -> Result<(), NoMemory>
    ensures ok { OnOk result (scope.new ≡ spec.with_cons scope.old all.now) }
    ensures grows { Grows scope.old scope.new }
{
    let mut left = all;
    while let [text, rest @ ..] = left {
        scope.declare_con(text.as_str())?;
        left = rest;
    }
    Ok(())
}

/// What comes into scope behind a data type.
#[tactic(auto, using(scope_table::proofs::Grown::grows))]
fn finish_data(alloc: Global, scope: &mut Scope, all: &Texts) -> Result<(), NoMemory>
    ensures ok { OnOk result (scope.new ≡ with_families (spec.with_cons scope.old all.now) None) }
    ensures grows { Grows scope.old scope.new }
{
    let all = all.copy(alloc)?;
    declare_cons(scope, all.as_slice())?;
    scope.finish_family(None)
}

#[tactic(auto, using(scope_table::proofs::Grown::grows))]
fn data_of(
    alloc: Global,
    scope: &mut Scope,
    place: Place,
    name: &Name,
    around: &[Binder],
    ty: &Expr,
    all: &[Signature],
) -> Result<Resolved, ScopeError>
    ensures binds { Binds (spec.data_of scope.old place name.now around.now ty.now all.now) result scope.new }
    ensures grows { Grows scope.old scope.new }
{
    let mut locals = Locals::new(alloc);
    let around = binders(alloc, scope, Holes::Allowed, &mut locals, around)?;
    let ty = expr(alloc, scope, Holes::Allowed, &mut locals, ty)?;
    let label = label(scope, name);
    scope.declare_family(name.text.as_str())?;
    let mut seen = Texts::new(alloc);
    let all = con_lines(alloc, scope, &mut locals, &mut seen, all)?;
    finish_data(alloc, scope, &seen)?;
    Ok(Resolved::Data(place, label, around, ty, all))
}

/// A data type.
#[tactic(auto, using(scope_table::proofs::Grown::grows))]
pub fn data(
    alloc: Global,
    scope: &mut Scope,
    place: Place,
    name: &Name,
    around: &[Binder],
    ty: &Expr,
    all: &[Signature],
) -> Result<Resolved, ScopeError>
    ensures binds { Binds (spec.declared scope.old (d.«Data» place name.now around.now ty.now all.now)) result scope.new }
    ensures grows { Grows scope.old scope.new }
{
    fresh(alloc, scope, name)?;
    data_of(alloc, scope, place, name, around, ty, all)
}
