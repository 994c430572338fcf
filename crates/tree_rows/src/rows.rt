ghost use Rattle.std.specs.Prelude.{◌+◌, ◌≤◌, ◌^◌, length};

use crate::decls::put_file;
use crate::exprs::put_expr;
use crate::lines::Lines;
use crate::read::{NoTree, read_expr, read_file};
use agda_parser::{ParseError, ParseKind};
use el_outside::Pos;
use source_tree::{Expr, File, same, size};
use std::alloc::{AllocError, Global};

/// What is printed of a text that has a tree.
#[derive(Clone, Copy, Debug, PartialEq, Eq)]
pub enum Shown {
    /// The tree, and its size.
    Tree,
    /// The size alone.
    Size,
}

/// The trees that the rows before this one have.
#[derive(Drop)]
pub struct Before {
    pub expr: Option<Expr>,
    pub file: Option<File>,
}

fn kind_word(kind: ParseKind) -> &'static str {
    match kind {
        ParseKind::Unexpected => "Unexpected",
        ParseKind::TooNested => "TooNested",
    }
}

fn put_error(lines: &mut Lines, pos: Pos, kind: ParseKind) -> Result<(), AllocError> {
    lines.begin("error ")?;
    let line = pos.line;
    let col = pos.col;
    let kind = kind_word(kind);
    let words = format!(in lines.alloc; "{line}:{col} {kind}")?;
    lines.text.push_str(words.as_str())
}

fn put_no_tree(lines: &mut Lines, why: NoTree) -> Result<(), AllocError> {
    match why {
        NoTree::NoTokens => lines.begin("no tokens")?,
        NoTree::Refused(ParseError::NoMemory) => lines.begin("out of memory")?,
        NoTree::Refused(ParseError::Bad { pos, kind }) => put_error(lines, pos, kind)?,
    }
    lines.end()
}

/// The size, and whether the tree is the same as that of a second reading.
fn put_size(lines: &mut Lines, size: u64, again: bool) -> Result<(), AllocError> {
    lines.begin("size ")?;
    let words = format!(in lines.alloc; "{size}, again {again}")?;
    lines.text.push_str(words.as_str())
}

/// Whether something is the same as that of the row before, where one of the same kind has been.
fn put_before(lines: &mut Lines, word: &str, same: Option<bool>) -> Result<(), AllocError> {
    if let Some(same) = same {
        let words = format!(in lines.alloc; ", {word} {same}")?;
        lines.text.push_str(words.as_str())?;
    }
    Ok(())
}

/// The lines of the expression that a text is.
pub fn put_expr_row(
    lines: &mut Lines,
    text: &str,
    shown: Shown,
    before: &mut Before,
) -> Result<(), AllocError>
    requires { length text.now + 2 ≤ 2 ^ 32 }
{
    match read_expr(lines.alloc, text) {
        Ok(expr) => {
            put_expr_lines(lines, text, shown, &expr, &before.expr)?;
            before.expr = Some(expr);
            Ok(())
        }
        Err(why) => put_no_tree(lines, why),
    }
}

fn put_expr_lines(
    lines: &mut Lines,
    text: &str,
    shown: Shown,
    expr: &Expr,
    before: &Option<Expr>,
) -> Result<(), AllocError>
    requires { length text.now + 2 ≤ 2 ^ 32 }
{
    if shown == Shown::Tree {
        put_expr(lines, expr)?;
    }
    let again = is_read_again(lines.alloc, text, expr);
    put_size(lines, expr.size(), again)?;
    put_expr_before(lines, expr, before)?;
    lines.end()
}

/// Whether a second reading gives the same expression.
fn is_read_again(alloc: Global, text: &str, expr: &Expr) -> bool
    requires { length text.now + 2 ≤ 2 ^ 32 }
{
    match read_expr(alloc, text) {
        Ok(other) => expr.same(&other),
        Err(_) => false,
    }
}

fn put_expr_before(
    lines: &mut Lines,
    expr: &Expr,
    before: &Option<Expr>,
) -> Result<(), AllocError> {
    let same = match before {
        Some(other) => Some(expr.same(other)),
        None => None,
    };
    put_before(lines, "before", same)
}

/// Whether the first declarations of two files are the same.
fn same_first(file: &File, other: &File) -> bool {
    match (file.decls.get(0), other.decls.get(0)) {
        (Some(decl), Some(end)) => same(decl, end),
        _ => false,
    }
}

/// The lines of the file that a text is.
pub fn put_file_row(
    lines: &mut Lines,
    text: &str,
    shown: Shown,
    before: &mut Before,
) -> Result<(), AllocError>
    requires { length text.now + 2 ≤ 2 ^ 32 }
{
    match read_file(lines.alloc, text) {
        Ok(file) => {
            put_file_lines(lines, text, shown, &file, &before.file)?;
            before.file = Some(file);
            Ok(())
        }
        Err(why) => put_no_tree(lines, why),
    }
}

fn put_file_lines(
    lines: &mut Lines,
    text: &str,
    shown: Shown,
    file: &File,
    before: &Option<File>,
) -> Result<(), AllocError>
    requires { length text.now + 2 ≤ 2 ^ 32 }
{
    if shown == Shown::Tree {
        put_file(lines, file)?;
    }
    let again = is_file_again(lines.alloc, text, file);
    put_size(lines, size(file), again)?;
    put_file_before(lines, file, before)?;
    lines.end()
}

/// Whether a second reading gives the same file.
fn is_file_again(alloc: Global, text: &str, file: &File) -> bool
    requires { length text.now + 2 ≤ 2 ^ 32 }
{
    match read_file(alloc, text) {
        Ok(other) => file.same(&other),
        Err(_) => false,
    }
}

fn put_file_before(
    lines: &mut Lines,
    file: &File,
    before: &Option<File>,
) -> Result<(), AllocError> {
    let Some(other) = before else {
        return Ok(());
    };
    put_before(lines, "before", Some(file.same(other)))?;
    put_before(lines, "first declaration", Some(same_first(file, other)))
}
