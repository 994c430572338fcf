use crate::exprs::{put_binders, put_expr, put_last};
use crate::lines::Lines;
use crate::patterns::put_patterns;
use source_tree::{Binder, Clause, Decl, Expr, File, Name, Place, RecordItem, Signature};
use sqlite_items::Items;
use std::alloc::AllocError;

/// The lines of a file.
pub fn put_file(lines: &mut Lines, file: &File) -> Result<(), AllocError> {
    lines.node("File", file.place)?;
    lines.down();
    for decl in file.decls.as_slice() {
        put_decl(lines, decl)?;
    }
    lines.up();
    Ok(())
}

fn put_decl(lines: &mut Lines, decl: &Decl) -> Result<(), AllocError> {
    match decl {
        Decl::Postulate(place, signatures) => {
            lines.node("Decl::Postulate", *place)?;
            put_signatures(lines, signatures)
        }
        Decl::Function(place, signature, clauses) => {
            lines.node("Decl::Function", *place)?;
            put_function(lines, signature, clauses)
        }
        Decl::Clause(clause) => {
            lines.begin("Decl::Clause")?;
            put_alone(lines, clause)
        }
        Decl::Open(place, name, public) => put_open(lines, *place, name, *public),
        Decl::Data(place, name, binders, ty, signatures) => {
            lines.named("Decl::Data", *place, name)?;
            put_type(lines, binders, ty)?;
            put_signatures(lines, signatures)
        }
        Decl::Record(place, name, binders, ty, items) => {
            lines.named("Decl::Record", *place, name)?;
            put_type(lines, binders, ty)?;
            put_items(lines, items)
        }
    }
}

/// Ends the line of a declaration, whose only part the clause is.
fn put_alone(lines: &mut Lines, clause: &Clause) -> Result<(), AllocError> {
    lines.end()?;
    lines.down();
    put_clause(lines, clause)?;
    lines.up();
    Ok(())
}

fn put_function(
    lines: &mut Lines,
    signature: &Signature,
    clauses: &Items<Clause>,
) -> Result<(), AllocError> {
    lines.down();
    put_signature(lines, signature)?;
    for clause in clauses.as_slice() {
        put_clause(lines, clause)?;
    }
    lines.up();
    Ok(())
}

fn put_open(lines: &mut Lines, place: Place, name: &Name, public: bool) -> Result<(), AllocError> {
    lines.placed_name("Decl::Open", place, name)?;
    if public {
        lines.text.push_str(" public")?;
    }
    lines.end()
}

/// The lines of the binders of a data or record type and of the type after the colon.
fn put_type(lines: &mut Lines, binders: &Items<Binder>, ty: &Expr) -> Result<(), AllocError> {
    lines.down();
    put_binders(lines, binders)?;
    put_expr(lines, ty)?;
    lines.up();
    Ok(())
}

fn put_signatures(lines: &mut Lines, signatures: &Items<Signature>) -> Result<(), AllocError> {
    lines.down();
    for signature in signatures.as_slice() {
        put_signature(lines, signature)?;
    }
    lines.up();
    Ok(())
}

fn put_signature(lines: &mut Lines, signature: &Signature) -> Result<(), AllocError> {
    lines.group("Signature", signature.place, &signature.names)?;
    put_last(lines, &signature.ty)
}

fn put_clause(lines: &mut Lines, clause: &Clause) -> Result<(), AllocError> {
    lines.named("Clause", clause.place, &clause.name)?;
    lines.down();
    put_patterns(lines, &clause.patterns)?;
    put_right(lines, &clause.right)?;
    lines.up();
    Ok(())
}

fn put_right(lines: &mut Lines, right: &Option<Expr>) -> Result<(), AllocError> {
    match right {
        Some(right) => put_expr(lines, right),
        None => Ok(()),
    }
}

fn put_items(lines: &mut Lines, items: &Items<RecordItem>) -> Result<(), AllocError> {
    lines.down();
    for item in items.as_slice() {
        put_item(lines, item)?;
    }
    lines.up();
    Ok(())
}

fn put_item(lines: &mut Lines, item: &RecordItem) -> Result<(), AllocError> {
    match item {
        RecordItem::Inductive(place) => lines.node("RecordItem::Inductive", *place),
        RecordItem::Coinductive(place) => lines.node("RecordItem::Coinductive", *place),
        RecordItem::Constructor(place, name) => {
            lines.named("RecordItem::Constructor", *place, name)
        }
        RecordItem::Field(place, signatures) => {
            lines.node("RecordItem::Field", *place)?;
            put_signatures(lines, signatures)
        }
    }
}
