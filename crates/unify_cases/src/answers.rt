use case_terms::{Fault, words_of};
use core_terms::{Branch, Entry, TermId, TermPool};
use index_unify::{Reason, Unified};
use std::alloc::Global;

/// The most items of a list that are written.
const MOST: usize = 8;

/// An answer with what it carries.
pub fn answer_words(alloc: Global, pool: &TermPool, answer: &Unified) -> Result<String, Fault> {
    match answer {
        Unified::Solved(branch) => branch_words(alloc, pool, branch),
        Unified::Refuted(Reason::Conflict { left, right }) => {
            Ok(format!(in alloc; "conflict of c{} and c{}", left.number(), right.number())?)
        }
        Unified::Refuted(Reason::Cycle { var }) => Ok(format!(in alloc; "cycle of {var}")?),
        Unified::Stuck { left, right } => {
            let (left, right) = (
                words_of(alloc, pool, *left)?,
                words_of(alloc, pool, *right)?,
            );
            Ok(format!(in alloc; "stuck at{left} and{right}")?)
        }
        Unified::OutOfFuel => Ok(format!(in alloc; "out of fuel")?),
        Unified::OutOfDepth => Ok(format!(in alloc; "out of depth")?),
        Unified::NoMemory => Err(Fault::NoMemory),
    }
}

/// The entries that are left, the outermost first; the values of all variables, that of the innermost first; and for each variable that
/// is left, the innermost first, the one of the old context.
fn branch_words(alloc: Global, pool: &TermPool, branch: &Branch) -> Result<String, Fault> {
    let mut out = format!(in alloc; "solved, left [")?;
    write_entries(alloc, &mut out, pool, branch.context.entries.as_slice())?;
    out.push_str("], values [")?;
    write_terms(alloc, &mut out, pool, branch.subst.as_slice())?;
    out.push_str("], keep [")?;
    write_places(&mut out, branch.keep.as_slice())?;
    out.push_str("]")?;
    Ok(out)
}

/// What stands before the item at a place of a list.
fn comma(at: usize) -> &'static str {
    if at == 0 { "" } else { ", " }
}

fn write_entries(
    alloc: Global,
    out: &mut String,
    pool: &TermPool,
    entries: &[Entry],
) -> Result<(), Fault> {
    for (at, entry) in entries.iter().take(MOST).enumerate() {
        let ty = words_of(alloc, pool, entry.ty)?;
        write!(out, "{}{}:{ty}", comma(at), entry.name.number())?;
    }
    write_count(out, entries.len())
}

fn write_terms(
    alloc: Global,
    out: &mut String,
    pool: &TermPool,
    terms: &[TermId],
) -> Result<(), Fault> {
    for (at, t) in terms.iter().take(MOST).enumerate() {
        let words = words_of(alloc, pool, *t)?;
        write!(out, "{}{}", comma(at), words.trim_start())?;
    }
    write_count(out, terms.len())
}

fn write_places(out: &mut String, places: &[u32]) -> Result<(), Fault> {
    for (at, place) in places.iter().take(MOST).enumerate() {
        write!(out, "{}{place}", comma(at))?;
    }
    write_count(out, places.len())
}

/// How many items there are, where not all are written.
fn write_count(out: &mut String, count: usize) -> Result<(), Fault> {
    if count > MOST {
        write!(out, ", .. {count} in all")?;
    }
    Ok(())
}
