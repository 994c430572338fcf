use crate::answers::answer_words;
use crate::equations::equations;
use crate::world::World;
use case_terms::{Case, Fault, declarations, read_case, read_metas, telescope};
use core_terms::TermPool;
use std::alloc::Global;

/// The answer to the equations of a row in its context, over what is declared.
fn answer(alloc: Global, declared: &[&str], row: Case<'_>) -> Result<String, Fault> {
    let (context, sides) = row.words.split_once('|').ok_or(Fault::NoRow)?;
    let mut pool = TermPool::new(alloc)?;
    let decls = declarations(alloc, &mut pool, declared)?;
    let metas = read_metas(alloc, &mut pool, row.kind)?;
    let context = telescope(alloc, &mut pool, context)?;
    let equations = equations(alloc, &mut pool, sides)?;
    let mut world = World::over(alloc, pool, decls, metas)?;
    let answer = world.unify(&context, equations.as_slice(), row.limits)?;
    answer_words(alloc, &world.pool, &answer)
}

/// Prints the answer of the row, over what is declared.
pub fn show_row(rt: &HostRuntime, declared: &[&str], line: &str) -> Result<(), Fault> {
    let row = read_case(line)?;
    let answer = answer(rt.alloc(), declared, row)?;
    println!(rt; "{}: {answer}", row.what)?;
    Ok(())
}
