//! Rows of texts and their syntax trees. Each word of the command line is a list of rows; a row is a kind and the name of a text:
//! `expr` and `file` print the tree, a line for each node with its place and its names, and `expr-size` and `file-size` the number
//! of its nodes alone. After it stands whether the tree is the same as that of a second reading, and as that of the row before.
//! What has no tree is refused at a place.
#![tactic(auto)]

ghost use Rattle.std.specs.Prelude.{◌+◌, ◌≤◌, ◌^◌, length};

mod decls;
mod exprs;
mod lines;
mod patterns;
mod read;
mod rows;

use lines::Lines;
use read::MOST;
use rows::{Before, Shown, put_expr_row, put_file_row};
use std::alloc::AllocError;
use std::rt::Files;
use std::{env, fs, io};

/// Prints a row.
fn put_row<R: Files + AllocGlobal>(rt: &R, row: &str, before: &mut Before) -> io::Result<String> {
    let mut lines = Lines::new(rt.alloc());
    let Some((kind, name)) = row.split_once(' ') else {
        return Ok(lines.text);
    };
    lines.text.push_str(name)?;
    lines.end()?;
    let text = fs::read_to_string(rt, name)?;
    if text.len() > MOST {
        return Ok(lines.text);
    }
    put_text(&mut lines, kind, text.as_str(), before)?;
    Ok(lines.text)
}

/// Prints what the kind of a row asks for.
fn put_text(
    lines: &mut Lines,
    kind: &str,
    text: &str,
    before: &mut Before,
) -> Result<(), AllocError>
    requires { length text.now + 2 ≤ 2 ^ 32 }
{
    match kind {
        "expr" => put_expr_row(lines, text, Shown::Tree, before),
        "expr-size" => put_expr_row(lines, text, Shown::Size, before),
        "file" => put_file_row(lines, text, Shown::Tree, before),
        "file-size" => put_file_row(lines, text, Shown::Size, before),
        _ => Ok(()),
    }
}

fn put_rows<R: Files + Print + AllocGlobal>(
    rt: &R,
    rows: &str,
    before: &mut Before,
) -> io::Result<()> {
    for row in rows.lines() {
        let text = put_row(rt, row, before)?;
        print!(rt; "{text}")?;
    }
    Ok(())
}

fn main(rt: HostRuntime) -> io::Result<()> {
    let mut before = Before {
        expr: None,
        file: None,
    };
    for list in env::args(&rt)?.skip(1) {
        let rows = fs::read_to_string(&rt, list.as_str())?;
        put_rows(&rt, rows.as_str(), &mut before)?;
    }
    Ok(())
}
