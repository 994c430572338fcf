ghost use Rattle.std.specs.Prelude.{◌≡◌, IfOk};

use crate::resolved::{ResolvedArg, ResolvedBinder, ResolvedExpr, ResolvedValue};
use el_outside::NoMemory;
use sqlite_items::{Boxed, Items};
use std::alloc::Global;

#[cycle(copy)]
fn copy_expr(alloc: Global, found: &ResolvedExpr) -> Result<ResolvedExpr, NoMemory>
    ensures { IfOk result (λ e. e ≡ found.now) }
{
    match found {
        ResolvedExpr::Variable(place, index) => Ok(ResolvedExpr::Variable(*place, *index)),
        ResolvedExpr::Def(place, def) => Ok(ResolvedExpr::Def(*place, *def)),
        ResolvedExpr::Family(place, family) => Ok(ResolvedExpr::Family(*place, *family)),
        ResolvedExpr::Con(place, con) => Ok(ResolvedExpr::Con(*place, *con)),
        ResolvedExpr::SetLevel(place, level) => Ok(ResolvedExpr::SetLevel(*place, *level)),
        ResolvedExpr::Hole(place) => Ok(ResolvedExpr::Hole(*place)),
        ResolvedExpr::Underscore(place) => Ok(ResolvedExpr::Underscore(*place)),
        ResolvedExpr::Arrow(place, left, right) => {
            let left = Boxed::new(alloc, copy_expr(alloc, left.get())?)?;
            let right = Boxed::new(alloc, copy_expr(alloc, right.get())?)?;
            Ok(ResolvedExpr::Arrow(*place, left, right))
        }
        ResolvedExpr::App(place, head, all) => {
            let head = Boxed::new(alloc, copy_expr(alloc, head.get())?)?;
            Ok(ResolvedExpr::App(*place, head, copy_args(alloc, all.as_slice())?))
        }
        ResolvedExpr::Record(place, all) => {
            Ok(ResolvedExpr::Record(*place, copy_values(alloc, all.as_slice())?))
        }
        ResolvedExpr::Pi(place, all, body) => {
            let all = copy_binders(alloc, all.as_slice())?;
            let body = Boxed::new(alloc, copy_expr(alloc, body.get())?)?;
            Ok(ResolvedExpr::Pi(*place, all, body))
        }
        ResolvedExpr::Forall(place, all, body) => {
            let all = copy_binders(alloc, all.as_slice())?;
            let body = Boxed::new(alloc, copy_expr(alloc, body.get())?)?;
            Ok(ResolvedExpr::Forall(*place, all, body))
        }
        ResolvedExpr::Lambda(place, all, body) => {
            let all = copy_binders(alloc, all.as_slice())?;
            let body = Boxed::new(alloc, copy_expr(alloc, body.get())?)?;
            Ok(ResolvedExpr::Lambda(*place, all, body))
        }
    }
}

#[cycle(copy)]
fn copy_args(alloc: Global, all: &[ResolvedArg]) -> Result<Items<ResolvedArg>, NoMemory>
    ensures { IfOk result (λ xs. xs ≡ all.now) }
{
    let mut found = Items::new(alloc);
    for one in all {
        found.push(copy_arg(alloc, one)?)?;
    }
    Ok(found)
}

#[cycle(copy)]
fn copy_arg(alloc: Global, found: &ResolvedArg) -> Result<ResolvedArg, NoMemory>
    ensures { IfOk result (λ a. a ≡ found.now) }
{
    match found {
        ResolvedArg::Plain(value) => Ok(ResolvedArg::Plain(copy_expr(alloc, value)?)),
        ResolvedArg::Implicit(place, value) => {
            Ok(ResolvedArg::Implicit(*place, copy_expr(alloc, value)?))
        }
        ResolvedArg::Named(place, name, value) => {
            Ok(ResolvedArg::Named(*place, *name, copy_expr(alloc, value)?))
        }
        ResolvedArg::Project(place, field) => Ok(ResolvedArg::Project(*place, *field)),
    }
}

#[cycle(copy)]
fn copy_binders(alloc: Global, all: &[ResolvedBinder]) -> Result<Items<ResolvedBinder>, NoMemory>
    ensures { IfOk result (λ xs. xs ≡ all.now) }
{
    let mut found = Items::new(alloc);
    for one in all {
        found.push(copy_binder(alloc, one)?)?;
    }
    Ok(found)
}

#[cycle(copy)]
fn copy_binder(alloc: Global, found: &ResolvedBinder) -> Result<ResolvedBinder, NoMemory>
    ensures { IfOk result (λ b. b ≡ found.now) }
{
    match found {
        ResolvedBinder::Explicit(place, names, ty) => {
            let names = Items::from_slice(alloc, names.as_slice())?;
            let ty = Boxed::new(alloc, copy_expr(alloc, ty.get())?)?;
            Ok(ResolvedBinder::Explicit(*place, names, ty))
        }
        ResolvedBinder::Implicit(place, names, ty) => {
            let names = Items::from_slice(alloc, names.as_slice())?;
            let ty = Boxed::new(alloc, copy_expr(alloc, ty.get())?)?;
            Ok(ResolvedBinder::Implicit(*place, names, ty))
        }
        ResolvedBinder::Name(name) => Ok(ResolvedBinder::Name(*name)),
        ResolvedBinder::Braced(place, name) => Ok(ResolvedBinder::Braced(*place, *name)),
        ResolvedBinder::Underscore(place) => Ok(ResolvedBinder::Underscore(*place)),
    }
}

#[cycle(copy)]
fn copy_values(alloc: Global, all: &[ResolvedValue]) -> Result<Items<ResolvedValue>, NoMemory>
    ensures { IfOk result (λ xs. xs ≡ all.now) }
{
    let mut found = Items::new(alloc);
    for one in all {
        found.push(copy_value(alloc, one)?)?;
    }
    Ok(found)
}

#[cycle(copy)]
fn copy_value(alloc: Global, found: &ResolvedValue) -> Result<ResolvedValue, NoMemory>
    ensures { IfOk result (λ v. v ≡ found.now) }
{
    let name = found.name;
    let value = copy_expr(alloc, &found.value)?;
    Ok(ResolvedValue { name, value })
}

impl ResolvedExpr {
    /// An equal tree.
    pub fn copy(&self, alloc: Global) -> Result<ResolvedExpr, NoMemory>
        ensures { IfOk result (λ e. e ≡ self.now) }
    {
        copy_expr(alloc, self)
    }
}
