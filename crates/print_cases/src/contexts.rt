use crate::words::{name, named_term};
use case_terms::Fault;
use core_rules::Flag;
use core_terms::{Entry, Names, Row, Solved, Telescope, TermPool};
use std::alloc::Global;

/// Entries between commas, the outermost first, each a name, a colon and a type.
pub fn read_entries(
    alloc: Global,
    pool: &mut TermPool,
    names: &mut Names,
    words: &str,
) -> Result<Telescope, Fault> {
    let mut entries = Vec::new(alloc);
    if !words.is_empty() {
        for part in words.split(',') {
            entries.push(read_entry(alloc, pool, names, part)?)?;
        }
    }
    Ok(Telescope {
        entries: Row::from_vec(entries),
    })
}

fn read_entry(
    alloc: Global,
    pool: &mut TermPool,
    names: &mut Names,
    words: &str,
) -> Result<Entry, Fault> {
    let (first, rest) = words.split_once(':').ok_or(Fault::NoRow)?;
    Ok(Entry {
        name: name(names, first.trim())?,
        flag: Flag::Explicit,
        ty: named_term(alloc, pool, names, rest)?,
    })
}

/// Solved names between commas, each with its value and its type.
pub fn read_solved(
    alloc: Global,
    pool: &mut TermPool,
    names: &mut Names,
    words: &str,
) -> Result<Row<Solved>, Fault> {
    let mut solved = Vec::new(alloc);
    if !words.is_empty() {
        for part in words.split(',') {
            solved.push(read_value(alloc, pool, names, part)?)?;
        }
    }
    Ok(Row::from_vec(solved))
}

fn read_value(
    alloc: Global,
    pool: &mut TermPool,
    names: &mut Names,
    words: &str,
) -> Result<Solved, Fault> {
    let (first, rest) = words.split_once('=').ok_or(Fault::NoRow)?;
    let (value, ty) = rest.split_once('=').ok_or(Fault::NoRow)?;
    Ok(Solved {
        name: name(names, first.trim())?,
        value: named_term(alloc, pool, names, value)?,
        ty: named_term(alloc, pool, names, ty)?,
    })
}
