use case_terms::{Fault, further, read_times, term};
use core_terms::TermPool;
use index_unify::Equation;
use std::alloc::Global;

/// Equations between semicolons, the two sides of each around an equality sign. `5 times` before one stands for five, in each of which
/// the variables are one further out than in the one before.
pub fn equations(alloc: Global, pool: &mut TermPool, words: &str) -> Result<Vec<Equation>, Fault> {
    let mut made = Vec::new(alloc);
    if words.contains('=') {
        for part in words.split(';') {
            push_equations(alloc, pool, &mut made, part)?;
        }
    }
    Ok(made)
}

fn push_equations(
    alloc: Global,
    pool: &mut TermPool,
    made: &mut Vec<Equation>,
    words: &str,
) -> Result<(), Fault> {
    let (times, words) = read_times(words)?;
    let (left, right) = words.split_once('=').ok_or(Fault::NoRow)?;
    let (left, right) = (term(alloc, pool, left)?, term(alloc, pool, right)?);
    for by in 0..times {
        made.push(Equation {
            left: further(alloc, pool, left, by)?,
            right: further(alloc, pool, right, by)?,
        })?;
    }
    Ok(())
}
