ghost use Rattle.std.specs.Prelude.{◌≡◌, IfOk, OnOk, reverse};
ghost use Rattle.agda_grammar.specs.Nesting as spec;
ghost use Rattle.expr_parser.specs.NestingView.{depth_of};
ghost use Rattle.agda_grammar.specs.declared.sign.Kind.TheVariants as k;

use agda_grammar::{Kind, Sign};
use std::alloc::{AllocError, Global};

/// A sign may stand in so many parentheses, braces, bodies of `λ` and right sides of arrows.
const LIMIT: usize = 200;

/// The nesting of what comes next, and those of the brackets around it, the innermost at the end.
#[derive(Drop)]
pub struct Depth {
    pub next: usize,
    pub outer: Vec<usize>,
}

fn rise(n: usize) -> usize
    ensures { result ≡ spec.rise n }
{
    if LIMIT < n { n } else { n + 1 }
}

fn innermost(outer: &[usize]) -> usize
    ensures { result ≡ spec.innermost (reverse outer.now) }
{
    match outer.last() {
        Some(last) => *last,
        None => 0,
    }
}

fn between(outer: &[usize]) -> usize
    ensures { result ≡ spec.between (reverse outer.now) }
{
    match outer.last() {
        Some(last) => rise(*last),
        None => 0,
    }
}

fn nesting(depth: &Depth, kind: Kind) -> usize
    ensures { result ≡ spec.nesting (depth_of depth.now) kind }
{
    match kind {
        Kind::ParenClose | Kind::BraceClose => innermost(&depth.outer),
        Kind::Semicolon => between(&depth.outer),
        Kind::Where | Kind::BlockOpen | Kind::BlockNext | Kind::BlockClose => 0,
        _ => depth.next,
    }
}

fn open(depth: &mut Depth) -> Result<(), AllocError>
    ensures { OnOk result (depth_of depth.new ≡ spec.behind (depth_of depth.old) k.ParenOpen) }
{
    let next = depth.next;
    depth.outer.push(next)?;
    depth.next = rise(next);
    Ok(())
}

fn close(depth: &mut Depth)
    ensures { depth_of depth.new ≡ spec.behind (depth_of depth.old) k.ParenClose }
{
    match depth.outer.pop() {
        Some(n) => depth.next = n,
        None => depth.next = 0,
    }
}

fn restart(depth: &mut Depth)
    ensures { depth_of depth.new ≡ spec.origin }
{
    depth.next = 0;
    depth.outer.clear();
}

/// Goes behind a sign of the kind.
fn pass(depth: &mut Depth, kind: Kind) -> Result<(), AllocError>
    ensures { OnOk result (depth_of depth.new ≡ spec.behind (depth_of depth.old) kind) }
{
    match kind {
        Kind::ParenOpen | Kind::BraceOpen => open(depth)?,
        Kind::ParenClose | Kind::BraceClose => close(depth),
        Kind::Arrow => depth.next = rise(depth.next),
        Kind::Semicolon => depth.next = between(&depth.outer),
        Kind::Where | Kind::BlockOpen | Kind::BlockNext | Kind::BlockClose => restart(depth),
        _ => {}
    }
    Ok(())
}

/// How many signs stand before the first that is nested too deep: all, where none is.
pub fn count_shallow(alloc: Global, signs: &[Sign]) -> Result<usize, AllocError>
    ensures count { IfOk result (λ n. n ≡ spec.shallow spec.origin signs.now) }
{
    let mut depth = Depth {
        next: 0,
        outer: Vec::new(alloc),
    };
    for (i, sign) in signs.iter().enumerate() {
        if LIMIT < nesting(&depth, sign.kind) {
            return Ok(i);
        }
        pass(&mut depth, sign.kind)?;
    }
    Ok(signs.len())
}
