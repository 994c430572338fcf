use crate::fault::Fault;
use crate::metas::{Metas, Solved};
use crate::words::{read_number, term};
use core_terms::{Limits, TermPool};
use std::alloc::Global;

/// What a row asks for, within which limits, what it shows, and the words of its terms.
#[derive(Clone, Copy)]
pub struct Case<'a> {
    pub kind: &'a str,
    pub limits: Limits,
    pub what: &'a str,
    pub words: &'a str,
}

/// A row: its kind, a fuel and a depth between blanks, and after bars what it shows and its words.
pub fn read_case(line: &str) -> Result<Case<'_>, Fault> {
    let (head, rest) = line.split_once('|').ok_or(Fault::NoRow)?;
    let (kind, limits) = head.split_once(' ').ok_or(Fault::NoRow)?;
    let (what, words) = rest.split_once('|').ok_or(Fault::NoRow)?;
    let limits = read_limits(limits)?;
    Ok(Case {
        kind,
        limits,
        what,
        words,
    })
}

fn read_limits(words: &str) -> Result<Limits, Fault> {
    let (fuel, depth) = words.split_once(' ').ok_or(Fault::NoRow)?;
    Ok(Limits {
        fuel: read_number(fuel)?,
        depth: read_number(depth)?,
        order: 0,
    })
}

/// Which metavariables are solved by the kind of a row: none of `all`; of `solved` the first, which is zero, and the second, which is
/// the first at its arguments exchanged.
pub fn read_metas(alloc: Global, pool: &mut TermPool, kind: &str) -> Result<Metas, Fault> {
    match kind {
        "all" => Ok(Metas::Unsolved),
        "solved" => Ok(Metas::Solved(Solved {
            first: term(alloc, pool, "zero")?,
            second: term(alloc, pool, "0 1 ?0")?,
        })),
        _ => Err(Fault::NoRow),
    }
}
