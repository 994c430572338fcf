ghost use Rattle.core_terms.specs.Signature.{Stands};

use crate::rows::{Row, read_next, read_row};
use case_terms::{Bodies, Fault, is_in, signature, term};
use core_terms::{NoSolutions, Signature, TermId, TermPool};
use implicit_insert::{Need, Next, next_argument};
use std::alloc::Global;
use std::io;

/// The terms of a row.
#[derive(Clone, Copy)]
struct Asked {
    bodies: Bodies,
    ty: TermId,
    first: TermId,
    second: TermId,
}

fn ask(alloc: Global, pool: &mut TermPool, row: &Row) -> Result<Asked, Fault> {
    Ok(Asked {
        bodies: Bodies::new(alloc, pool)?,
        ty: term(alloc, pool, row.ty)?,
        first: term(alloc, pool, row.first)?,
        second: term(alloc, pool, row.second)?,
    })
}

/// Prints the need that the row asks for, and whether its terms are those that are wanted.
pub fn show_row(rt: &HostRuntime, line: &str) -> Result<(), Fault> {
    let row = read_row(line)?;
    let next = read_next(row.next)?;
    let mut pool = TermPool::new(rt.alloc())?;
    let asked = ask(rt.alloc(), &mut pool, &row)?;
    let sig = signature(rt.alloc(), &pool, &asked.bodies)?;
    let need = need_of(rt.alloc(), &mut pool, &sig, asked.ty, next, row.fuel)?;
    print!(rt; "{}: ", row.what)?;
    print_need(rt, need, asked.first, asked.second)?;
    println!(rt; "")?;
    Ok(())
}

#[tactic(auto, using(case_terms::proofs::Chains::stands))]
fn need_of(
    alloc: Global,
    pool: &mut TermPool,
    sig: &Signature,
    ty: TermId,
    next: Next,
    fuel: u32,
) -> Result<Need, Fault>
    requires { Stands pool.old sig.now }
{
    if !is_in(pool, ty) {
        return Err(Fault::Stray);
    }
    Ok(next_argument(alloc, pool, sig, &NoSolutions, ty, next, fuel))
}

fn print_need(rt: &HostRuntime, need: Need, first: TermId, second: TermId) -> io::Result<()> {
    match need {
        Need::Explicit { dom, cod } => print!(rt; "explicit, {}, {}", dom == first, cod == second),
        Need::Given { dom, cod } => print!(rt; "given, {}, {}", dom == first, cod == second),
        Need::Insert { dom, cod } => print!(rt; "insert, {}, {}", dom == first, cod == second),
        _ => print_other(rt, &need, first),
    }
}

fn print_other(rt: &HostRuntime, need: &Need, first: TermId) -> io::Result<()> {
    match need {
        Need::Project { fam, params } => print!(rt;
            "projection of family {} at {}",
            fam.number(),
            params.len()
        ),
        Need::NotAFunction { ty } => print!(rt; "not a function, {}", *ty == first),
        Need::NotARecord { ty } => print!(rt; "not a record, {}", *ty == first),
        Need::Blocked { meta } => print!(rt; "blocked by {}", meta.number()),
        _ => print!(rt; "{}", word(need)),
    }
}

fn word(need: &Need) -> &'static str {
    match need {
        Need::End => "end",
        Need::NoSuchName => "no such name",
        Need::OutOfFuel => "out of fuel",
        _ => "out of memory",
    }
}
