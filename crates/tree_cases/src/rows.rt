ghost use Rattle.std.specs.Prelude.{IfOk, OnOk};
ghost use Rattle.core_terms.specs.Signature.{Stands};
ghost use Rattle.case_terms.specs.Families.{IsShaped};

use crate::world::World;
use case_terms::{Case, Fault, case_tree, family, function, read_case, term};
use core_terms::{CoreDecl, NameId, TermPool};
use std::alloc::Global;

/// Prints the answer that the row asks for. Its lines that begin with `#` are no part of it, and where it has no other nothing is asked.
pub fn show_row(rt: &HostRuntime, world: &mut World, row: &str) -> Result<(), Fault>
    requires { Stands world.old.pool world.old.sig }
    ensures { OnOk result (Stands world.new.pool world.new.sig) }
{
    let lines = lines_of(rt.alloc(), row)?;
    let [head, rest @ ..] = lines.as_slice() else {
        return Ok(());
    };
    let case = read_case(head)?;
    let answer = answer(rt.alloc(), world, case, rest)?;
    println!(rt; "{}:{answer}", case.what)?;
    Ok(())
}

fn lines_of<'a>(alloc: Global, row: &'a str) -> Result<Vec<&'a str>, Fault> {
    let mut lines = Vec::new(alloc);
    for line in row.lines() {
        if !line.as_bytes().starts_with(b"#") {
            lines.push(line)?;
        }
    }
    Ok(lines)
}

/// The answer to a case tree, or to a declaration. The words put terms into the pool; that it has no fewer than before is tested, so the
/// ids of the signature are still among its own.
fn answer(alloc: Global, world: &mut World, row: Case<'_>, lines: &[&str]) -> Result<String, Fault>
    requires { Stands world.old.pool world.old.sig }
    ensures { OnOk result (Stands world.new.pool world.new.sig) }
{
    if row.kind == "tree" {
        return tree_answer(alloc, world, row, lines);
    }
    let before = world.pool.len();
    let decl = declaration(alloc, &mut world.pool, row, lines)?;
    if world.pool.len() < before {
        return Err(Fault::Stray);
    }
    world.declare(decl, row.limits)
}

fn tree_answer(
    alloc: Global,
    world: &mut World,
    row: Case<'_>,
    lines: &[&str],
) -> Result<String, Fault>
    requires { Stands world.old.pool world.old.sig }
    ensures { OnOk result (Stands world.new.pool world.new.sig) }
{
    let before = world.pool.len();
    let ty = term(alloc, &mut world.pool, row.words)?;
    let tree = case_tree(alloc, &mut world.pool, lines)?;
    if world.pool.len() < before {
        return Err(Fault::Stray);
    }
    world.tree_words(ty, &tree, row.limits)
}

fn declaration(
    alloc: Global,
    pool: &mut TermPool,
    row: Case<'_>,
    lines: &[&str],
) -> Result<CoreDecl, Fault>
    ensures { IfOk result IsShaped }
{
    match row.kind {
        "postulate" => Ok(CoreDecl::Postulate {
            name: NameId::new(0),
            ty: term(alloc, pool, row.words)?,
        }),
        "family" => family(alloc, pool, row.words),
        "function" => function(alloc, pool, row.words, lines),
        _ => Err(Fault::NoRow),
    }
}
