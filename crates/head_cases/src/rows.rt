use crate::world::World;
use case_terms::{Bodies, Fault, Metas, Solved, term};
use core_terms::{TermId, TermPool};
use std::alloc::Global;

/// What a row asks for.
#[derive(Clone, Copy)]
enum Kind {
    Head,
    HeadWithSolutions,
    Number,
}

#[derive(Clone, Copy)]
struct Row<'a> {
    kind: Kind,
    fuel: u32,
    what: &'a str,
    term: &'a str,
    wanted: &'a str,
}

/// The terms of a row.
#[derive(Clone, Copy)]
struct Asked {
    bodies: Bodies,
    metas: Metas,
    term: TermId,
    wanted: TermId,
}

fn read_kind(word: &str) -> Result<Kind, Fault> {
    match word {
        "head" => Ok(Kind::Head),
        "solved" => Ok(Kind::HeadWithSolutions),
        "read" => Ok(Kind::Number),
        _ => Err(Fault::NoRow),
    }
}

fn read_row(line: &str) -> Result<Row<'_>, Fault> {
    let (head, rest) = line.split_once('|').ok_or(Fault::NoRow)?;
    let (kind, fuel) = head.split_once(' ').ok_or(Fault::NoRow)?;
    let (what, rest) = rest.split_once('|').ok_or(Fault::NoRow)?;
    let (term, wanted) = rest.split_once('|').unwrap_or((rest, rest));
    let kind = read_kind(kind)?;
    let fuel = fuel.parse::<u32>().map_err(|_| Fault::NoRow)?;
    Ok(Row {
        kind,
        fuel,
        what,
        term,
        wanted,
    })
}

fn metas_of(alloc: Global, pool: &mut TermPool, kind: Kind) -> Result<Metas, Fault> {
    match kind {
        Kind::HeadWithSolutions => {
            let first = term(alloc, pool, "2 \\")?;
            let second = term(alloc, pool, "0 1 ?0")?;
            Ok(Metas::Solved(Solved { first, second }))
        }
        Kind::Head | Kind::Number => Ok(Metas::Unsolved),
    }
}

fn ask(alloc: Global, pool: &mut TermPool, row: &Row) -> Result<Asked, Fault> {
    Ok(Asked {
        bodies: Bodies::new(alloc, pool)?,
        metas: metas_of(alloc, pool, row.kind)?,
        term: term(alloc, pool, row.term)?,
        wanted: term(alloc, pool, row.wanted)?,
    })
}

/// Prints what the row asks for.
pub fn show_row(rt: &HostRuntime, line: &str) -> Result<(), Fault> {
    let row = read_row(line)?;
    let mut pool = TermPool::new(rt.alloc())?;
    let asked = ask(rt.alloc(), &mut pool, &row)?;
    let mut world = World::over(rt.alloc(), pool, asked.bodies, asked.metas)?;
    match row.kind {
        Kind::Number => world.show_number(rt, row.what, asked.term, row.fuel),
        Kind::Head | Kind::HeadWithSolutions => {
            world.show_head(rt, row.what, asked.term, asked.wanted, row.fuel)
        }
    }
}
