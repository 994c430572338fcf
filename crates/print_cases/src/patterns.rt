use crate::words::{name, named_term};
use case_terms::{Fault, read_number};
use core_terms::{Braces, ConId, CorePat, FieldId, Names, Origin, PatShape, TermPool};
use std::alloc::Global;

/// The patterns that the words between commas build, each from those before it.
pub fn patterns(
    alloc: Global,
    pool: &mut TermPool,
    names: &mut Names,
    words: &str,
) -> Result<Vec<CorePat>, Fault> {
    let mut stack = Vec::new(alloc);
    if !words.is_empty() {
        for part in words.split(',') {
            let pat = take_pattern(alloc, pool, names, &mut stack, part.trim())?;
            stack.push(pat)?;
        }
    }
    Ok(stack)
}

fn take_pattern(
    alloc: Global,
    pool: &mut TermPool,
    names: &mut Names,
    stack: &mut Vec<CorePat>,
    words: &str,
) -> Result<CorePat, Fault> {
    let (kind, rest) = words.split_once(':').ok_or(Fault::NoTerm)?;
    match kind {
        "con" => constructor(alloc, stack, rest),
        "braces" => braces(names, stack, rest),
        _ => single(alloc, pool, names, kind, rest),
    }
}

/// A constructor at the last so many patterns.
fn constructor(alloc: Global, stack: &mut Vec<CorePat>, words: &str) -> Result<CorePat, Fault> {
    let (con, count) = words.split_once(':').ok_or(Fault::NoTerm)?;
    let con = ConId::new(read_number(con)?);
    let pats = last_ones(alloc, stack, read_number(count)?)?;
    Ok(written(PatShape::Con { con, pats }))
}

fn last_ones(alloc: Global, stack: &mut Vec<CorePat>, count: u32) -> Result<Vec<CorePat>, Fault> {
    let mut pats = Vec::new(alloc);
    for _ in 0..count {
        pats.push(stack.pop().ok_or(Fault::NoTerm)?)?;
    }
    pats.reverse();
    Ok(pats)
}

/// The last pattern in braces, with this name in them, or none.
fn braces(names: &mut Names, stack: &mut Vec<CorePat>, word: &str) -> Result<CorePat, Fault> {
    let CorePat { shape, origin, .. } = stack.pop().ok_or(Fault::NoTerm)?;
    let braces = if word.is_empty() {
        Braces::Plain
    } else {
        Braces::Named(names.add(word)?)
    };
    Ok(CorePat {
        shape,
        origin,
        braces,
    })
}

fn written(shape: PatShape) -> CorePat {
    of_origin(shape, Origin::Written)
}

fn of_origin(shape: PatShape, origin: Origin) -> CorePat {
    CorePat {
        shape,
        origin,
        braces: Braces::Without,
    }
}

/// A pattern without patterns in it.
fn single(
    alloc: Global,
    pool: &mut TermPool,
    names: &mut Names,
    kind: &str,
    rest: &str,
) -> Result<CorePat, Fault> {
    match kind {
        "under" => Ok(of_origin(PatShape::Var(read_number(rest)?), Origin::Underscore)),
        "inserted" => Ok(of_origin(PatShape::Var(read_number(rest)?), Origin::Inserted)),
        "dotted" => {
            let value = named_term(alloc, pool, names, rest)?;
            Ok(written(PatShape::Dotted { value }))
        }
        "absurd" => Ok(written(PatShape::Absurd)),
        "field" => Ok(written(PatShape::Projection(FieldId::new(read_number(rest)?)))),
        _ => variable(alloc, pool, names, kind, rest),
    }
}

/// A written variable: its name, and its number or its value.
fn variable(
    alloc: Global,
    pool: &mut TermPool,
    names: &mut Names,
    kind: &str,
    words: &str,
) -> Result<CorePat, Fault> {
    let (first, rest) = words.split_once(':').ok_or(Fault::NoTerm)?;
    let name = name(names, first)?;
    let shape = match kind {
        "solved" => PatShape::Solved {
            value: named_term(alloc, pool, names, rest)?,
        },
        _ => PatShape::Var(read_number(rest)?),
    };
    let fresh = kind == "new";
    Ok(of_origin(shape, Origin::Variable { name, fresh }))
}
