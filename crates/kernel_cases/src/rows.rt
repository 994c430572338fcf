use crate::answers::{level_words, type_words, verdict_words};
use crate::world::World;
use case_terms::{Case, Fault, declarations, family, read_case, telescope, term};
use core_terms::TermPool;
use std::alloc::Global;

/// The answer that the row asks for, over what is declared.
fn answer(alloc: Global, declared: &[&str], row: Case<'_>) -> Result<String, Fault> {
    match row.kind {
        "family" => family_answer(alloc, declared, row),
        "infer" => infer_answer(alloc, declared, row),
        "check" => check_answer(alloc, declared, row),
        "is_type" => level_answer(alloc, declared, row),
        _ => Err(Fault::NoRow),
    }
}

fn family_answer(alloc: Global, declared: &[&str], row: Case<'_>) -> Result<String, Fault> {
    let mut pool = TermPool::new(alloc)?;
    let decls = declarations(alloc, &mut pool, declared)?;
    let decl = family(alloc, &mut pool, row.words)?;
    let mut world = World::over(alloc, pool, decls)?;
    world.family_words(&decl, row.limits)
}

fn infer_answer(alloc: Global, declared: &[&str], row: Case<'_>) -> Result<String, Fault> {
    let (context, t) = row.words.split_once('|').ok_or(Fault::NoRow)?;
    let mut pool = TermPool::new(alloc)?;
    let decls = declarations(alloc, &mut pool, declared)?;
    let context = telescope(alloc, &mut pool, context)?;
    let t = term(alloc, &mut pool, t)?;
    let mut world = World::over(alloc, pool, decls)?;
    let answer = world.infer(&context, t, row.limits)?;
    type_words(alloc, &world.pool, answer)
}

fn check_answer(alloc: Global, declared: &[&str], row: Case<'_>) -> Result<String, Fault> {
    let (context, rest) = row.words.split_once('|').ok_or(Fault::NoRow)?;
    let (t, ty) = rest.split_once('|').ok_or(Fault::NoRow)?;
    let mut pool = TermPool::new(alloc)?;
    let decls = declarations(alloc, &mut pool, declared)?;
    let context = telescope(alloc, &mut pool, context)?;
    let (t, ty) = (term(alloc, &mut pool, t)?, term(alloc, &mut pool, ty)?);
    let mut world = World::over(alloc, pool, decls)?;
    let answer = world.check(&context, t, ty, row.limits)?;
    verdict_words(alloc, &world.pool, answer)
}

fn level_answer(alloc: Global, declared: &[&str], row: Case<'_>) -> Result<String, Fault> {
    let (context, t) = row.words.split_once('|').ok_or(Fault::NoRow)?;
    let mut pool = TermPool::new(alloc)?;
    let decls = declarations(alloc, &mut pool, declared)?;
    let context = telescope(alloc, &mut pool, context)?;
    let t = term(alloc, &mut pool, t)?;
    let mut world = World::over(alloc, pool, decls)?;
    let answer = world.is_type(&context, t, row.limits)?;
    level_words(alloc, &world.pool, answer)
}

/// Prints the answer that the row asks for, over what is declared. Where it is a declaration, or a family that is accepted, its words
/// are handed back, so that the rows after know it.
pub fn show_row<'a>(
    rt: &HostRuntime,
    declared: &[&str],
    line: &'a str,
) -> Result<Option<&'a str>, Fault> {
    if let Some(words) = line.strip_prefix("declare|") {
        return Ok(Some(words));
    }
    let row = read_case(line)?;
    let answer = answer(rt.alloc(), declared, row)?;
    println!(rt; "{}:{answer}", row.what)?;
    if answer.as_str() == " good" {
        return Ok(Some(row.words));
    }
    Ok(None)
}
