use crate::printer::Printer;
use el_outside::NoMemory;
use scope_check::{
    Resolved, ResolvedClause, ResolvedExpr, ResolvedItem, ResolvedName, ResolvedPattern,
    ResolvedSignature,
};
use std::alloc::Global;

/// The text. A long one is told by what it is and by its length.
pub fn short(alloc: Global, what: &str, text: &str) -> Result<String, NoMemory> {
    let len = text.len();
    if len > 100 {
        Ok(format!(in alloc; "{what} of {len} bytes")?)
    } else {
        Ok(String::from_str(alloc, text)?)
    }
}

fn short_expr(alloc: Global, what: &str, found: &ResolvedExpr) -> Result<String, NoMemory> {
    let mut printer = Printer::new(alloc);
    printer.whole(found)?;
    short(alloc, what, printer.into_text().as_str())
}

/// The number of the last name.
fn last_number(names: &[ResolvedName]) -> u32 {
    match names.last() {
        Some(name) => name.id.number(),
        None => 0,
    }
}

/// How many lines there are, how many names the last one has, and the number of the last of these.
fn lines(alloc: Global, all: &[ResolvedSignature]) -> Result<String, NoMemory> {
    let count = all.len();
    let Some(last) = all.last() else {
        return Ok(String::from_str(alloc, "no lines")?);
    };
    let names = last.names.len();
    let end = last_number(last.names.as_slice());
    let ty = short_expr(alloc, "a type", &last.ty)?;
    Ok(format!(in alloc; "{count} lines, the last with {names} names up to n{end}: {ty}")?)
}

fn last_pattern(alloc: Global, patterns: &[ResolvedPattern]) -> Result<String, NoMemory> {
    let mut end = Printer::new(alloc);
    if let Some(pattern) = patterns.last() {
        end.pattern(pattern)?;
    }
    short(alloc, "a pattern", end.into_text().as_str())
}

fn right_side(alloc: Global, right: &Option<ResolvedExpr>) -> Result<String, NoMemory> {
    match right {
        Some(value) => short_expr(alloc, "a right side", value),
        None => Ok(String::new(alloc)),
    }
}

/// How many clauses there are, how many patterns the last one has, and the last of these.
fn clauses(alloc: Global, all: &[ResolvedClause]) -> Result<String, NoMemory> {
    let count = all.len();
    let Some(last) = all.last() else {
        return Ok(String::from_str(alloc, "no clauses")?);
    };
    let patterns = last.patterns.len();
    let end = last_pattern(alloc, last.patterns.as_slice())?;
    let right = right_side(alloc, &last.right)?;
    Ok(format!(in alloc;
        "{count} clauses, the last with {patterns} patterns up to {end} = {right}"
    )?)
}

/// How many parts there are, and the lines of the last one.
fn items(alloc: Global, all: &[ResolvedItem]) -> Result<String, NoMemory> {
    let count = all.len();
    let fields = match all.last() {
        Some(ResolvedItem::Field(_, fields)) => lines(alloc, fields.as_slice())?,
        _ => String::from_str(alloc, "no fields")?,
    };
    Ok(format!(in alloc; "{count} parts, the last with {fields}")?)
}

/// The form of a declaration, and what is said of its parts.
fn named(alloc: Global, form: &str, parts: String) -> Result<String, NoMemory> {
    Ok(format!(in alloc; "{form}: {parts}")?)
}

/// How many parts a large declaration has, and the end of its last one.
pub fn outline(alloc: Global, found: &Resolved) -> Result<String, NoMemory> {
    match found {
        Resolved::Postulate(_, all) => named(alloc, "postulate", lines(alloc, all.as_slice())?),
        Resolved::Function(_, _, all) => named(alloc, "function", clauses(alloc, all.as_slice())?),
        Resolved::Data(_, _, _, _, all) => named(alloc, "data", lines(alloc, all.as_slice())?),
        Resolved::Record(_, _, _, _, all) => named(alloc, "record", items(alloc, all.as_slice())?),
        Resolved::Open(_, record, _) => {
            let record = record.number();
            Ok(format!(in alloc; "open t{record}")?)
        }
    }
}
