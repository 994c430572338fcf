use crate::fault::Fault;
use crate::terms::is_in;
use crate::words::{read_number, term};
use core_rules::Flag;
use core_terms::{Entry, NameId, Row, Telescope, TermId, TermPool, shift};
use std::alloc::Global;

/// Types between commas, each under those before it, after `i:` where its variable is implicit. `5 times` before a type stands for
/// five entries. The names are 1, 2, and so on.
pub fn telescope(alloc: Global, pool: &mut TermPool, words: &str) -> Result<Telescope, Fault> {
    let mut entries = Vec::new(alloc);
    if !is_blank(words) {
        for part in words.split(',') {
            push_entries(alloc, pool, &mut entries, part)?;
        }
    }
    let entries = Row::from_vec(entries);
    Ok(Telescope { entries })
}

fn push_entries(
    alloc: Global,
    pool: &mut TermPool,
    entries: &mut Vec<Entry>,
    words: &str,
) -> Result<(), Fault> {
    let (times, words) = read_times(words)?;
    let (flag, words) = read_flag(words);
    let ty = term(alloc, pool, words)?;
    for _ in 0..times {
        let name = NameId::new(next_name(entries.as_slice()));
        entries.push(Entry { name, flag, ty })?;
    }
    Ok(())
}

fn next_name(entries: &[Entry]) -> u32 {
    let last = entries.last().map_or(0, |e| e.name.number());
    last.saturating_add(1)
}

/// How often the words after it count: once where they do not say it.
pub fn read_times(words: &str) -> Result<(u32, &str), Fault> {
    let Some((times, rest)) = words.split_once(" times ") else {
        return Ok((1, words));
    };
    Ok((read_number(times.trim())?, rest))
}

fn read_flag(words: &str) -> (Flag, &str) {
    match words.trim_start().strip_prefix("i:") {
        Some(rest) => (Flag::Implicit, rest),
        None => (Flag::Explicit, words),
    }
}

/// The terms between commas. `5 times` before one stands for five, in each of which the variables are one further out than in the one
/// before.
pub fn terms(alloc: Global, pool: &mut TermPool, words: &str) -> Result<Row<TermId>, Fault> {
    let mut made = Vec::new(alloc);
    if !is_blank(words) {
        for part in words.split(',') {
            push_terms(alloc, pool, &mut made, part)?;
        }
    }
    Ok(Row::from_vec(made))
}

fn push_terms(
    alloc: Global,
    pool: &mut TermPool,
    made: &mut Vec<TermId>,
    words: &str,
) -> Result<(), Fault> {
    let (times, words) = read_times(words)?;
    let t = term(alloc, pool, words)?;
    for by in 0..times {
        made.push(further(alloc, pool, t, by)?)?;
    }
    Ok(())
}

/// The term with its variables so much further out.
pub fn further(alloc: Global, pool: &mut TermPool, t: TermId, by: u32) -> Result<TermId, Fault> {
    if !is_in(pool, t) {
        return Err(Fault::Stray);
    }
    Ok(shift(alloc, pool, t, 0, by)?)
}

pub fn is_blank(words: &str) -> bool {
    words.trim().is_empty()
}
