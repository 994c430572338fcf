use crate::lines::Lines;
use el_base::Level;
use source_tree::{Arg, Binder, Expr, FieldValue, Place};
use sqlite_items::Items;
use std::alloc::AllocError;

/// The lines of an expression.
#[cycle(put)]
pub fn put_expr(lines: &mut Lines, expr: &Expr) -> Result<(), AllocError> {
    match expr {
        Expr::Pi(place, binders, body) => {
            put_bound(lines, "Expr::Pi", *place, binders)?;
            put_body(lines, body.get())
        }
        Expr::Forall(place, binders, body) => {
            put_bound(lines, "Expr::Forall", *place, binders)?;
            put_body(lines, body.get())
        }
        Expr::Lambda(place, binders, body) => {
            put_bound(lines, "Expr::Lambda", *place, binders)?;
            put_body(lines, body.get())
        }
        Expr::Arrow(place, left, right) => {
            lines.node("Expr::Arrow", *place)?;
            lines.down();
            put_expr(lines, left.get())?;
            put_body(lines, right.get())
        }
        Expr::App(place, head, args) => {
            lines.node("Expr::App", *place)?;
            lines.down();
            put_expr(lines, head.get())?;
            put_rest(lines, args)
        }
        Expr::Name(name) => lines.only_name("Expr::Name", name),
        Expr::Qualified(name) => lines.only_name("Expr::Qualified", name),
        Expr::SetLevel(place, level) => put_level(lines, *place, *level),
        Expr::Hole(place) => lines.node("Expr::Hole", *place),
        Expr::Underscore(place) => lines.node("Expr::Underscore", *place),
        Expr::Record(place, fields) => {
            lines.node("Expr::Record", *place)?;
            put_fields(lines, fields)
        }
    }
}

/// The lines of arguments, as the last parts of a node.
#[cycle(put)]
fn put_rest(lines: &mut Lines, args: &Items<Arg>) -> Result<(), AllocError> {
    put_args(lines, args)?;
    lines.up();
    Ok(())
}

fn put_level(lines: &mut Lines, place: Place, level: Level) -> Result<(), AllocError> {
    lines.placed("Expr::SetLevel", place)?;
    lines.text.push_str(" ")?;
    lines.number(level.number())?;
    lines.end()
}

/// The line of a node, and those of its binders.
#[cycle(put)]
fn put_bound(
    lines: &mut Lines,
    word: &str,
    place: Place,
    binders: &Items<Binder>,
) -> Result<(), AllocError> {
    lines.node(word, place)?;
    lines.down();
    put_binders(lines, binders)
}

/// The lines of the last part of a node.
#[cycle(put)]
fn put_body(lines: &mut Lines, body: &Expr) -> Result<(), AllocError> {
    put_expr(lines, body)?;
    lines.up();
    Ok(())
}

/// The lines of binders.
#[cycle(put)]
pub fn put_binders(lines: &mut Lines, binders: &Items<Binder>) -> Result<(), AllocError> {
    for binder in binders.as_slice() {
        put_binder(lines, binder)?;
    }
    Ok(())
}

#[cycle(put)]
fn put_binder(lines: &mut Lines, binder: &Binder) -> Result<(), AllocError> {
    match binder {
        Binder::Explicit(place, names, ty) => {
            lines.group("Binder::Explicit", *place, names)?;
            put_last(lines, ty.get())
        }
        Binder::Implicit(place, names, ty) => {
            lines.group("Binder::Implicit", *place, names)?;
            put_last(lines, ty.get())
        }
        Binder::Name(name) => lines.only_name("Binder::Name", name),
        Binder::Braced(place, name) => lines.named("Binder::Braced", *place, name),
        Binder::Underscore(place) => lines.node("Binder::Underscore", *place),
    }
}

/// Ends the line of a node, whose last part the expression is.
#[cycle(put)]
pub fn put_last(lines: &mut Lines, expr: &Expr) -> Result<(), AllocError> {
    lines.end()?;
    lines.down();
    put_expr(lines, expr)?;
    lines.up();
    Ok(())
}

#[cycle(put)]
fn put_args(lines: &mut Lines, args: &Items<Arg>) -> Result<(), AllocError> {
    for arg in args.as_slice() {
        put_arg(lines, arg)?;
    }
    Ok(())
}

#[cycle(put)]
fn put_arg(lines: &mut Lines, arg: &Arg) -> Result<(), AllocError> {
    match arg {
        Arg::Plain(value) => {
            lines.begin("Arg::Plain")?;
            put_last(lines, value)
        }
        Arg::Implicit(place, value) => {
            lines.placed("Arg::Implicit", *place)?;
            put_last(lines, value)
        }
        Arg::Named(place, name, value) => {
            lines.placed_name("Arg::Named", *place, name)?;
            put_last(lines, value)
        }
        Arg::Project(place, name) => lines.named("Arg::Project", *place, name),
        Arg::ProjectQualified(place, name) => lines.named("Arg::ProjectQualified", *place, name),
    }
}

#[cycle(put)]
fn put_fields(lines: &mut Lines, fields: &Items<FieldValue>) -> Result<(), AllocError> {
    lines.down();
    for field in fields.as_slice() {
        lines.begin("FieldValue")?;
        lines.name(&field.name)?;
        put_last(lines, &field.value)?;
    }
    lines.up();
    Ok(())
}
