ghost use Rattle.std.specs.Prelude.{◌≡◌, [], IfOk, OnOk};
ghost use Rattle.scope_check.specs.Answers.{Answers, Binds};
ghost use Rattle.source_tree.specs.declared.expr.Expr.{out-Expr};
ghost use Rattle.source_tree.specs.declared.expr.Arg.{out-Arg};
ghost use Rattle.source_tree.specs.declared.expr.Binder.{out-Binder};
ghost use Rattle.source_tree.specs.declared.expr.FieldValue.{out-FieldValue};
ghost use Rattle.scope_check.specs.Exprs as spec;
ghost use Rattle.scope_check.specs.Layers as layer;
ghost use Rattle.scope_table.specs.Known.{Inside};

use crate::error::{ScopeError, ScopeKind};
use crate::head::Head;
use crate::holes::Holes;
use crate::names::{bind, field_of, label, labels, named, qualified, refused, refused_hole, whole};
use el_outside::NoMemory;
use resolved_tree::{ResolvedArg, ResolvedBinder, ResolvedExpr, ResolvedValue};
use scope_table::{Locals, Scope};
use source_tree::{Arg, Binder, Expr, FieldValue, Name, Place};
use sqlite_items::{Boxed, Items};
use std::alloc::Global;
use term_pool::FieldId;

/// A hole, where it may stand.
fn hole(alloc: Global, holes: Holes, place: Place) -> Result<ResolvedExpr, ScopeError>
    ensures { Answers (spec.hole_at holes place) result }
{
    match holes {
        Holes::Allowed => Ok(ResolvedExpr::Hole(place)),
        Holes::Misplaced => refused_hole(alloc, place),
    }
}

/// The head and the arguments of an expression.
#[tactic(auto, unfolding(crate::specs::Exprs::opened))]
fn opened(
    alloc: Global,
    found: ResolvedExpr,
) -> Result<(Boxed<ResolvedExpr>, Items<ResolvedArg>), NoMemory>
    ensures { IfOk result (λ r. r ≡ spec.opened found) }
{
    match found {
        ResolvedExpr::App(_, head, args) => Ok((head, args)),
        other => {
            let args = Items::new(alloc);
            Ok((Boxed::new(alloc, other)?, args))
        }
    }
}

/// Whether the first argument is an explicit one.
fn begins_plain(all: &[Arg]) -> bool
    ensures { result ≡ layer.begins_plain all.now }
{
    match all {
        [first, ..] => matches!(first, Arg::Plain(_)),
        [] => false,
    }
}

/// The expression of an explicit argument.
fn explicit(found: ResolvedArg) -> Option<ResolvedExpr>
    ensures { result ≡ spec.explicit found }
{
    match found {
        ResolvedArg::Plain(value) => Some(value),
        _ => None,
    }
}

/// The projection from the first argument, under the others.
fn projected(
    alloc: Global,
    place: Place,
    name: Name,
    field: FieldId,
    found: Items<ResolvedArg>,
) -> Result<Head, ScopeError>
    ensures { Answers (spec.projected place name field found) result }
{
    let mut rest = found;
    if rest.is_empty() {
        return refused(alloc, ScopeKind::Misplaced, &name);
    }
    let Some(first) = explicit(rest.remove(0)) else {
        return refused(alloc, ScopeKind::Misplaced, &name);
    };
    let (head, mut found) = opened(alloc, first)?;
    found.push(ResolvedArg::Project(name.place, field))?;
    found.append(rest)?;
    Ok(Head::Whole(ResolvedExpr::App(place, head, found)))
}

/// What stands for an expression at the head of an application.
#[cycle(expr)]
fn head(
    alloc: Global,
    scope: &Scope,
    holes: Holes,
    locals: &mut Locals,
    found: &Expr,
) -> Result<Head, ScopeError>
    ensures answers { Answers (spec.head_of scope.now holes found.now locals.old) result }
    ensures locals { OnOk result (locals.new ≡ locals.old) }
{
    head_in(alloc, scope, holes, locals, found)
}

#[cycle(expr)]
fn head_in(
    alloc: Global,
    scope: &Scope,
    holes: Holes,
    locals: &mut Locals,
    found: &Expr,
) -> Result<Head, ScopeError>
    ensures answers { Answers (layer.head_in scope.now holes locals.old (out-Expr found.now)) result }
    ensures locals { OnOk result (locals.new ≡ locals.old) }
{
    match found {
        Expr::Name(name) => named(alloc, scope, locals, name),
        Expr::Qualified(name) => qualified(alloc, scope, name),
        Expr::SetLevel(place, level) => Ok(Head::Whole(ResolvedExpr::SetLevel(*place, *level))),
        Expr::Underscore(place) => Ok(Head::Whole(ResolvedExpr::Underscore(*place))),
        Expr::Hole(place) => Ok(Head::Whole(hole(alloc, holes, *place)?)),
        Expr::App(place, inner, all) => match head(alloc, scope, holes, locals, inner.get())? {
            Head::Whole(inner) => {
                let found = args(alloc, scope, holes, locals, all.as_slice())?;
                let inner = Boxed::new(alloc, inner)?;
                Ok(Head::Whole(ResolvedExpr::App(*place, inner, found)))
            }
            Head::Field(name, field) => {
                field_applied(
                    alloc,
                    scope,
                    holes,
                    locals,
                    *place,
                    name,
                    field,
                    all.as_slice(),
                )
            }
        },
        Expr::Arrow(place, left, right) => {
            let around = locals.len();
            let left = Boxed::new(alloc, expr(alloc, scope, holes, locals, left.get())?)?;
            locals.push("")?;
            let right = Boxed::new(alloc, expr(alloc, scope, holes, locals, right.get())?)?;
            locals.cut(around);
            Ok(Head::Whole(ResolvedExpr::Arrow(*place, left, right)))
        }
        Expr::Record(place, all) => {
            let all = values(alloc, scope, holes, locals, all.as_slice())?;
            Ok(Head::Whole(ResolvedExpr::Record(*place, all)))
        }
        Expr::Pi(place, around, body) => {
            let outside = locals.len();
            let found = binders(alloc, scope, holes, locals, around.as_slice())?;
            let body = Boxed::new(alloc, expr(alloc, scope, holes, locals, body.get())?)?;
            locals.cut(outside);
            Ok(Head::Whole(ResolvedExpr::Pi(*place, found, body)))
        }
        Expr::Forall(place, around, body) => {
            let outside = locals.len();
            let found = binders(alloc, scope, holes, locals, around.as_slice())?;
            let body = Boxed::new(alloc, expr(alloc, scope, holes, locals, body.get())?)?;
            locals.cut(outside);
            Ok(Head::Whole(ResolvedExpr::Forall(*place, found, body)))
        }
        Expr::Lambda(place, around, body) => {
            let outside = locals.len();
            let found = binders(alloc, scope, holes, locals, around.as_slice())?;
            let body = Boxed::new(alloc, expr(alloc, scope, holes, locals, body.get())?)?;
            locals.cut(outside);
            Ok(Head::Whole(ResolvedExpr::Lambda(*place, found, body)))
        }
    }
}

/// The expression, with each of its names resolved under the variables around it.
#[cycle(expr)]
pub fn expr(
    alloc: Global,
    scope: &Scope,
    holes: Holes,
    locals: &mut Locals,
    found: &Expr,
) -> Result<ResolvedExpr, ScopeError>
    ensures answers { Answers (spec.expr scope.now holes locals.old found.now) result }
    ensures locals { OnOk result (locals.new ≡ locals.old) }
{
    let found = head(alloc, scope, holes, locals, found)?;
    whole(found)
}

/// `f e x` of a field is `e .f x`.
#[cycle(expr)]
fn field_applied(
    alloc: Global,
    scope: &Scope,
    holes: Holes,
    locals: &mut Locals,
    place: Place,
    name: Name,
    field: FieldId,
    all: &[Arg],
) -> Result<Head, ScopeError>
    ensures answers { Answers (layer.field_applied scope.now holes locals.old place name field all.now) result }
    ensures locals { OnOk result (locals.new ≡ locals.old) }
{
    if !begins_plain(all) {
        return refused(alloc, ScopeKind::Misplaced, &name);
    }
    let found = args(alloc, scope, holes, locals, all)?;
    projected(alloc, place, name, field, found)
}

/// The arguments.
#[cycle(expr)]
fn args(
    alloc: Global,
    scope: &Scope,
    holes: Holes,
    locals: &mut Locals,
    all: &[Arg],
) -> Result<Items<ResolvedArg>, ScopeError>
    ensures answers { Answers (layer.args scope.now holes locals.old [] all.now) result }
    ensures locals { OnOk result (locals.new ≡ locals.old) }
{
    let mut found = Items::new(alloc);
    for one in all {
        found.push(arg(alloc, scope, holes, locals, one)?)?;
    }
    Ok(found)
}

#[cycle(expr)]
fn arg(
    alloc: Global,
    scope: &Scope,
    holes: Holes,
    locals: &mut Locals,
    found: &Arg,
) -> Result<ResolvedArg, ScopeError>
    ensures answers { Answers (layer.arg scope.now holes locals.old found.now) result }
    ensures locals { OnOk result (locals.new ≡ locals.old) }
{
    arg_in(alloc, scope, holes, locals, found)
}

#[cycle(expr)]
fn arg_in(
    alloc: Global,
    scope: &Scope,
    holes: Holes,
    locals: &mut Locals,
    found: &Arg,
) -> Result<ResolvedArg, ScopeError>
    ensures answers { Answers (layer.arg_in scope.now holes locals.old (out-Arg found.now)) result }
    ensures locals { OnOk result (locals.new ≡ locals.old) }
{
    match found {
        Arg::Plain(value) => Ok(ResolvedArg::Plain(expr(alloc, scope, holes, locals, value)?)),
        Arg::Implicit(place, value) => Ok(ResolvedArg::Implicit(
            *place,
            expr(alloc, scope, holes, locals, value)?,
        )),
        Arg::Named(place, name, value) => {
            let value = expr(alloc, scope, holes, locals, value)?;
            Ok(ResolvedArg::Named(*place, label(scope, name), value))
        }
        Arg::Project(place, name) => {
            Ok(ResolvedArg::Project(*place, field_of(alloc, scope, name)?))
        }
        Arg::ProjectQualified(place, name) => {
            Ok(ResolvedArg::Project(*place, field_of(alloc, scope, name)?))
        }
    }
}

/// The fields' values in `record { .. }`.
#[cycle(expr)]
fn values(
    alloc: Global,
    scope: &Scope,
    holes: Holes,
    locals: &mut Locals,
    all: &[FieldValue],
) -> Result<Items<ResolvedValue>, ScopeError>
    ensures answers { Answers (layer.values scope.now holes locals.old [] all.now) result }
    ensures locals { OnOk result (locals.new ≡ locals.old) }
{
    let mut found = Items::new(alloc);
    for one in all {
        found.push(value(alloc, scope, holes, locals, one)?)?;
    }
    Ok(found)
}

#[cycle(expr)]
fn value(
    alloc: Global,
    scope: &Scope,
    holes: Holes,
    locals: &mut Locals,
    found: &FieldValue,
) -> Result<ResolvedValue, ScopeError>
    ensures answers { Answers (layer.value scope.now holes locals.old found.now) result }
    ensures locals { OnOk result (locals.new ≡ locals.old) }
{
    value_in(alloc, scope, holes, locals, found)
}

#[cycle(expr)]
fn value_in(
    alloc: Global,
    scope: &Scope,
    holes: Holes,
    locals: &mut Locals,
    found: &FieldValue,
) -> Result<ResolvedValue, ScopeError>
    ensures answers { Answers (layer.value_in scope.now holes locals.old (out-FieldValue found.now)) result }
    ensures locals { OnOk result (locals.new ≡ locals.old) }
{
    let value = expr(alloc, scope, holes, locals, &found.value)?;
    let name = label(scope, &found.name);
    Ok(ResolvedValue { name, value })
}

/// The binders from left to right. Their variables stay around.
#[cycle(expr)]
pub fn binders(
    alloc: Global,
    scope: &Scope,
    holes: Holes,
    locals: &mut Locals,
    all: &[Binder],
) -> Result<Items<ResolvedBinder>, ScopeError>
    ensures binds { Binds (layer.binders scope.now holes [] locals.old all.now) result locals.new }
    ensures inside { OnOk result (Inside locals.old locals.new) }
{
    let mut found = Items::new(alloc);
    for one in all {
        found.push(binder(alloc, scope, holes, locals, one)?)?;
    }
    Ok(found)
}

#[cycle(expr)]
fn binder(
    alloc: Global,
    scope: &Scope,
    holes: Holes,
    locals: &mut Locals,
    found: &Binder,
) -> Result<ResolvedBinder, ScopeError>
    ensures binds { Binds (spec.binder_of scope.now holes found.now locals.old) result locals.new }
    ensures inside { OnOk result (Inside locals.old locals.new) }
{
    binder_in(alloc, scope, holes, locals, found)
}

#[tactic(auto, using(crate::proofs::Inside::inside))]
#[cycle(expr)]
fn binder_in(
    alloc: Global,
    scope: &Scope,
    holes: Holes,
    locals: &mut Locals,
    found: &Binder,
) -> Result<ResolvedBinder, ScopeError>
    ensures binds { Binds (layer.binder_in scope.now holes locals.old (out-Binder found.now)) result locals.new }
    ensures inside { OnOk result (Inside locals.old locals.new) }
{
    match found {
        Binder::Explicit(place, names, ty) => {
            let ty = Boxed::new(alloc, expr(alloc, scope, holes, locals, ty.get())?)?;
            let found = labels(alloc, scope, names.as_slice())?;
            bind(locals, names.as_slice())?;
            Ok(ResolvedBinder::Explicit(*place, found, ty))
        }
        Binder::Implicit(place, names, ty) => {
            let ty = Boxed::new(alloc, expr(alloc, scope, holes, locals, ty.get())?)?;
            let found = labels(alloc, scope, names.as_slice())?;
            bind(locals, names.as_slice())?;
            Ok(ResolvedBinder::Implicit(*place, found, ty))
        }
        Binder::Name(name) => {
            locals.push(name.text.as_str())?;
            Ok(ResolvedBinder::Name(label(scope, name)))
        }
        Binder::Braced(place, name) => {
            locals.push(name.text.as_str())?;
            Ok(ResolvedBinder::Braced(*place, label(scope, name)))
        }
        Binder::Underscore(place) => {
            locals.push("")?;
            Ok(ResolvedBinder::Underscore(*place))
        }
    }
}
