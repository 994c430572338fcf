//! The first form of a file, in the order of the text, that is not built so far. It takes no memory.

ghost use Rattle.std.specs.Prelude.{◌≡◌, map};
ghost use Rattle.file_load.specs.Unbuilt as spec;

use source_tree::{Arg, Binder, Decl, Expr, FieldValue, File, RecordItem, Signature};

/// The byte at which the first form of the file begins that is not built.
pub fn first_unbuilt(file: &File) -> Option<u32>
    ensures { result ≡ spec.in_file file.now }
{
    in_decls(file.decls.as_slice())
}

fn in_decls(decls: &[Decl]) -> Option<u32>
    ensures { result ≡ spec.first_of (map spec.in_decl decls.now) }
{
    for decl in decls {
        if let Some(at) = in_decl(decl) {
            return Some(at);
        }
    }
    None
}

fn in_decl(decl: &Decl) -> Option<u32>
    ensures { result ≡ spec.in_decl decl.now }
{
    match decl {
        Decl::Postulate(_, signatures) => in_signatures(signatures.as_slice()),
        Decl::Function(place, _, _) => Some(place.span.start),
        Decl::Clause(clause) => Some(clause.place.span.start),
        Decl::Open(_, _, _) => None,
        Decl::Data(_, _, binders, ty, signatures) => {
            match in_heading(binders.as_slice(), ty) {
                Some(at) => Some(at),
                None => in_signatures(signatures.as_slice()),
            }
        }
        Decl::Record(_, _, binders, ty, items) => {
            match in_heading(binders.as_slice(), ty) {
                Some(at) => Some(at),
                None => in_items(items.as_slice()),
            }
        }
    }
}

/// In the parameters and the type after the colon.
fn in_heading(binders: &[Binder], ty: &Expr) -> Option<u32>
    ensures { result ≡ spec.in_heading binders.now ty.now }
{
    match in_binders(binders) {
        Some(at) => Some(at),
        None => in_expr(ty),
    }
}

fn in_items(items: &[RecordItem]) -> Option<u32>
    ensures { result ≡ spec.first_of (map spec.in_item items.now) }
{
    for item in items {
        if let Some(at) = in_item(item) {
            return Some(at);
        }
    }
    None
}

fn in_item(item: &RecordItem) -> Option<u32>
    ensures { result ≡ spec.in_item item.now }
{
    match item {
        RecordItem::Field(_, signatures) => in_signatures(signatures.as_slice()),
        RecordItem::Inductive(_) | RecordItem::Coinductive(_) | RecordItem::Constructor(_, _) => {
            None
        }
    }
}

fn in_signatures(signatures: &[Signature]) -> Option<u32>
    ensures { result ≡ spec.first_of (map spec.in_signature signatures.now) }
{
    for signature in signatures {
        if let Some(at) = in_expr(&signature.ty) {
            return Some(at);
        }
    }
    None
}

#[cycle(unbuilt)]
#[tactic(auto, unfolding(crate::specs::Unbuilt::in_expr, crate::specs::Unbuilt::in_arg, crate::specs::Unbuilt::in_binder, crate::specs::Unbuilt::in_value))]
fn in_expr(found: &Expr) -> Option<u32>
    ensures { result ≡ spec.in_expr found.now }
{
    match found {
        Expr::Pi(_, binders, body) | Expr::Forall(_, binders, body) => {
            match in_binders(binders.as_slice()) {
                Some(at) => Some(at),
                None => in_expr(body.get()),
            }
        }
        Expr::Lambda(_, binders, body) => match in_lambda(binders.as_slice()) {
            Some(at) => Some(at),
            None => in_expr(body.get()),
        },
        Expr::Arrow(_, dom, cod) => match in_expr(dom.get()) {
            Some(at) => Some(at),
            None => in_expr(cod.get()),
        },
        Expr::App(_, head, args) => {
            let behind = in_args(args.as_slice());
            match in_expr(head.get()) {
                Some(at) => Some(at),
                None => behind,
            }
        }
        Expr::Record(_, values) => in_values(values.as_slice()),
        Expr::Name(_) | Expr::Qualified(_) | Expr::SetLevel(_, _) => None,
        Expr::Hole(place) | Expr::Underscore(place) => Some(place.span.start),
    }
}

#[cycle(unbuilt)]
#[tactic(auto, unfolding(crate::specs::Unbuilt::in_expr, crate::specs::Unbuilt::in_arg, crate::specs::Unbuilt::in_binder, crate::specs::Unbuilt::in_value))]
fn in_arg(found: &Arg) -> Option<u32>
    ensures { result ≡ spec.in_arg found.now }
{
    match found {
        Arg::Plain(value) => in_expr(value),
        Arg::Implicit(place, _) | Arg::Named(place, _, _) => Some(place.span.start),
        Arg::Project(_, _) | Arg::ProjectQualified(_, _) => None,
    }
}

/// In a binder of a function type or of `∀`.
#[cycle(unbuilt)]
#[tactic(auto, unfolding(crate::specs::Unbuilt::in_expr, crate::specs::Unbuilt::in_arg, crate::specs::Unbuilt::in_binder, crate::specs::Unbuilt::in_value))]
fn in_binder(binder: &Binder) -> Option<u32>
    ensures { result ≡ spec.of_function_type (spec.in_binder binder.now) }
{
    match binder {
        Binder::Explicit(_, _, ty) => in_expr(ty.get()),
        Binder::Implicit(place, _, _) | Binder::Braced(place, _) | Binder::Underscore(place) => {
            Some(place.span.start)
        }
        Binder::Name(name) => Some(name.place.span.start),
    }
}

/// In a binder of `λ`, which may have no type.
#[cycle(unbuilt)]
#[tactic(auto, unfolding(crate::specs::Unbuilt::in_expr, crate::specs::Unbuilt::in_arg, crate::specs::Unbuilt::in_binder, crate::specs::Unbuilt::in_value))]
fn in_lambda_binder(binder: &Binder) -> Option<u32>
    ensures { result ≡ spec.of_lambda (spec.in_binder binder.now) }
{
    match binder {
        Binder::Explicit(_, _, ty) => in_expr(ty.get()),
        Binder::Implicit(place, _, _) | Binder::Braced(place, _) => Some(place.span.start),
        Binder::Name(_) | Binder::Underscore(_) => None,
    }
}

#[cycle(unbuilt)]
fn in_args(args: &[Arg]) -> Option<u32>
    ensures { result ≡ spec.first_of (map spec.in_arg args.now) }
{
    for arg in args {
        if let Some(at) = in_arg(arg) {
            return Some(at);
        }
    }
    None
}

/// In the value of a field of `record { .. }`.
#[cycle(unbuilt)]
#[tactic(auto, unfolding(crate::specs::Unbuilt::in_expr, crate::specs::Unbuilt::in_value))]
fn in_value(found: &FieldValue) -> Option<u32>
    ensures { result ≡ spec.in_value found.now }
{
    in_expr(&found.value)
}

#[cycle(unbuilt)]
fn in_values(values: &[FieldValue]) -> Option<u32>
    ensures { result ≡ spec.first_of (map spec.in_value values.now) }
{
    for value in values {
        if let Some(at) = in_value(value) {
            return Some(at);
        }
    }
    None
}

#[cycle(unbuilt)]
fn in_binders(binders: &[Binder]) -> Option<u32>
    ensures { result ≡ spec.first_by spec.of_function_type (map spec.in_binder binders.now) }
{
    for binder in binders {
        if let Some(at) = in_binder(binder) {
            return Some(at);
        }
    }
    None
}

#[cycle(unbuilt)]
fn in_lambda(binders: &[Binder]) -> Option<u32>
    ensures { result ≡ spec.first_by spec.of_lambda (map spec.in_binder binders.now) }
{
    for binder in binders {
        if let Some(at) = in_lambda_binder(binder) {
            return Some(at);
        }
    }
    None
}
