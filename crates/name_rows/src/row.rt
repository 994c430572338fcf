ghost use Rattle.std.specs.Prelude.{◌<◌};

use crate::outline::{outline, short};
use crate::printer::Printer;
use crate::reading::read;
use el_outside::{NoMemory, Pos};
use scope_check::{Resolved, Scope, ScopeError, ScopeKind, resolve};
use source_tree::Decl;
use std::alloc::Global;
use std::fmt::Write;
use term_pool::{NameId, Names};

/// How a text is shown.
#[derive(Clone, Copy)]
pub enum Detail {
    /// A line for each declaration.
    Lines,
    /// The same, and then the texts that have numbers, in the order of these.
    Numbers,
    /// How many declarations there are, and an outline of the last one.
    Outline,
}

fn word(kind: ScopeKind) -> &'static str {
    match kind {
        ScopeKind::NotInScope => "NotInScope",
        ScopeKind::Duplicate => "Duplicate",
        ScopeKind::NotAConstructor => "NotAConstructor",
        ScopeKind::Nonlinear => "Nonlinear",
        ScopeKind::Misplaced => "Misplaced",
    }
}

/// A declaration whose names are resolved.
fn accepted(alloc: Global, found: &Resolved, detail: Detail) -> Result<String, NoMemory> {
    match detail {
        Detail::Outline => outline(alloc, found),
        Detail::Lines | Detail::Numbers => {
            let mut printer = Printer::new(alloc);
            printer.decl(found)?;
            Ok(printer.into_text())
        }
    }
}

/// The place, kind and name of a refusal.
fn refusal(alloc: Global, pos: Pos, kind: ScopeKind, name: &str) -> Result<String, NoMemory> {
    let line = pos.line;
    let col = pos.col;
    let kind = word(kind);
    let name = short(alloc, "a name", name)?;
    Ok(format!(in alloc; "{line}:{col} {kind} {name}")?)
}

/// The declaration as it is resolved after those before it, or its refusal.
fn resolved(
    alloc: Global,
    scope: &mut Scope,
    decl: &Decl,
    detail: Detail,
) -> Result<String, NoMemory> {
    match resolve(alloc, scope, decl) {
        Ok(found) => accepted(alloc, &found, detail),
        Err(ScopeError::NoMemory) => Err(NoMemory),
        Err(ScopeError::Bad { pos, kind, name }) => refusal(alloc, pos, kind, name.as_str()),
    }
}

/// What is shown of a declaration that is resolved twice, alike or not.
fn agreed(alloc: Global, one: String, two: &str) -> Result<String, NoMemory> {
    if one.as_str() == two {
        Ok(one)
    } else {
        Ok(format!(in alloc; "{one}, and after a cut {two}")?)
    }
}

/// The same, twice: after a cut to the mark before the declaration it is resolved again, alike.
fn resolved_again(
    alloc: Global,
    scope: &mut Scope,
    decl: &Decl,
    detail: Detail,
) -> Result<String, NoMemory> {
    let mark = scope.mark();
    let one = resolved(alloc, scope, decl, detail)?;
    scope.cut(mark);
    let two = resolved(alloc, scope, decl, detail)?;
    agreed(alloc, one, two.as_str())
}

/// The texts that have numbers.
fn numbers(alloc: Global, names: &Names) -> Result<String, NoMemory> {
    let mut out = String::new(alloc);
    for number in 0..names.len() {
        let text = names.text(NameId::new(number));
        write!(out, " n{number} = {text};")?;
    }
    Ok(out)
}

/// A line for each declaration.
fn lines(
    alloc: Global,
    out: &mut String,
    scope: &mut Scope,
    all: &[Decl],
    detail: Detail,
) -> Result<(), NoMemory> {
    for decl in all {
        let line = resolved_again(alloc, scope, decl, detail)?;
        writeln!(out, "    {line}")?;
    }
    Ok(())
}

/// How many declarations there are, and a line for the last one.
fn last_line(
    alloc: Global,
    out: &mut String,
    scope: &mut Scope,
    all: &[Decl],
) -> Result<(), NoMemory> {
    let mut last = String::new(alloc);
    for decl in all {
        last = resolved_again(alloc, scope, decl, Detail::Outline)?;
    }
    let count = all.len();
    writeln!(out, "    {count} declarations, the last: {last}")?;
    Ok(())
}

fn put_numbers(alloc: Global, out: &mut String, names: &Names) -> Result<(), NoMemory> {
    let all = numbers(alloc, names)?;
    writeln!(out, "   {all}")?;
    Ok(())
}

fn put(
    alloc: Global,
    out: &mut String,
    scope: &mut Scope,
    all: &[Decl],
    detail: Detail,
) -> Result<(), NoMemory> {
    match detail {
        Detail::Lines => lines(alloc, out, scope, all, detail),
        Detail::Numbers => {
            lines(alloc, out, scope, all, detail)?;
            put_numbers(alloc, out, scope.names())
        }
        Detail::Outline => last_line(alloc, out, scope, all),
    }
}

/// What is shown of a text.
pub fn row(alloc: Global, text: &str, detail: Detail) -> Result<String, NoMemory> {
    let Some(file) = read(alloc, text)? else {
        return Ok(String::from_str(alloc, "    not read\n")?);
    };
    let mut scope = Scope::new(alloc)?;
    let mut out = String::new(alloc);
    put(alloc, &mut out, &mut scope, file.decls.as_slice(), detail)?;
    Ok(out)
}
