use crate::world::{Pair, World};
use case_terms::{Bodies, Fault, Metas, Solved, term};
use core_terms::{Limits, TermPool};
use std::alloc::Global;

/// Which metavariables are solved.
#[derive(Clone, Copy)]
enum Kind {
    Unsolved,
    Solved,
}

/// The words of two terms.
#[derive(Clone, Copy)]
struct Sides<'a> {
    left: &'a str,
    right: &'a str,
}

#[derive(Clone, Copy)]
struct Row<'a> {
    kind: Kind,
    limits: Limits,
    what: &'a str,
    terms: Sides<'a>,
    wanted: Sides<'a>,
}

/// The terms of a row.
#[derive(Clone, Copy)]
struct Asked {
    bodies: Bodies,
    metas: Metas,
    terms: Pair,
    wanted: Pair,
}

fn read_kind(word: &str) -> Result<Kind, Fault> {
    match word {
        "all" => Ok(Kind::Unsolved),
        "solved" => Ok(Kind::Solved),
        _ => Err(Fault::NoRow),
    }
}

fn read_limits(words: &str) -> Result<Limits, Fault> {
    let (fuel, depth) = words.split_once(' ').ok_or(Fault::NoRow)?;
    let fuel = fuel.parse::<u32>().map_err(|_| Fault::NoRow)?;
    let depth = depth.parse::<u32>().map_err(|_| Fault::NoRow)?;
    Ok(Limits {
        fuel,
        depth,
        order: 0,
    })
}

/// Two terms, of which the second is the first where it has no words.
fn read_sides(words: &str) -> Result<Sides<'_>, Fault> {
    let (left, right) = words.split_once('|').ok_or(Fault::NoRow)?;
    if right.is_empty() {
        return Ok(Sides { left, right: left });
    }
    Ok(Sides { left, right })
}

/// The terms, and those wanted of a no, which are the terms where the row names none.
fn read_terms(words: &str) -> Result<(Sides<'_>, Sides<'_>), Fault> {
    let (left, rest) = words.split_once('|').ok_or(Fault::NoRow)?;
    let Some((right, wanted)) = rest.split_once('|') else {
        let terms = read_sides(words)?;
        return Ok((terms, terms));
    };
    Ok((Sides { left, right }, read_sides(wanted)?))
}

fn read_row(line: &str) -> Result<Row<'_>, Fault> {
    let (head, rest) = line.split_once('|').ok_or(Fault::NoRow)?;
    let (kind, limits) = head.split_once(' ').ok_or(Fault::NoRow)?;
    let (what, words) = rest.split_once('|').ok_or(Fault::NoRow)?;
    let (kind, limits) = (read_kind(kind)?, read_limits(limits)?);
    let (terms, wanted) = read_terms(words)?;
    Ok(Row {
        kind,
        limits,
        what,
        terms,
        wanted,
    })
}

fn pair(alloc: Global, pool: &mut TermPool, sides: Sides<'_>) -> Result<Pair, Fault> {
    let left = term(alloc, pool, sides.left)?;
    let right = term(alloc, pool, sides.right)?;
    Ok(Pair { left, right })
}

fn metas_of(alloc: Global, pool: &mut TermPool, kind: Kind) -> Result<Metas, Fault> {
    if let Kind::Solved = kind {
        let first = term(alloc, pool, "zero")?;
        let second = term(alloc, pool, "0 1 ?0")?;
        return Ok(Metas::Solved(Solved { first, second }));
    }
    Ok(Metas::Unsolved)
}

fn ask(alloc: Global, pool: &mut TermPool, row: &Row) -> Result<Asked, Fault> {
    Ok(Asked {
        bodies: Bodies::new(alloc, pool)?,
        metas: metas_of(alloc, pool, row.kind)?,
        terms: pair(alloc, pool, row.terms)?,
        wanted: pair(alloc, pool, row.wanted)?,
    })
}

/// Prints the verdict of the row.
pub fn show_row(rt: &HostRuntime, line: &str) -> Result<(), Fault> {
    let row = read_row(line)?;
    let mut pool = TermPool::new(rt.alloc())?;
    let asked = ask(rt.alloc(), &mut pool, &row)?;
    let mut world = World::over(rt.alloc(), pool, &asked.bodies, asked.metas)?;
    world.show(rt, row.what, asked.terms, asked.wanted, row.limits)
}
