use crate::world::World;
use case_terms::Fault;
use std::alloc::Global;

/// Prints the term of the row in its context.
pub fn show_term(rt: &HostRuntime, line: &str) -> Result<(), Fault> {
    let (what, rest) = line.split_once('|').ok_or(Fault::NoRow)?;
    let text = term_text(rt.alloc(), rest)?;
    show_text(rt, what, text.as_str())
}

fn term_text(alloc: Global, words: &str) -> Result<String, Fault> {
    let (context, words) = words.split_once('|').ok_or(Fault::NoRow)?;
    let mut world = World::new(alloc)?;
    let context = world.entries(context)?;
    let t = world.term(words)?;
    world.term_text(&context, t)
}

/// The text, or its length where it is long.
fn show_text(rt: &HostRuntime, what: &str, text: &str) -> Result<(), Fault> {
    if text.len() > 200 {
        println!(rt; "{what}: {} bytes", text.len())?;
        return Ok(());
    }
    println!(rt; "{what}: {text}")?;
    Ok(())
}

/// Prints the left side of the row.
pub fn show_left(rt: &HostRuntime, line: &str) -> Result<(), Fault> {
    let (what, rest) = line.split_once('|').ok_or(Fault::NoRow)?;
    let text = left_text(rt.alloc(), rest)?;
    show_text(rt, what, text.as_str())
}

fn left_text(alloc: Global, words: &str) -> Result<String, Fault> {
    let (entries, pats) = words.split_once('|').ok_or(Fault::NoRow)?;
    let mut world = World::new(alloc)?;
    let left = world.left(entries, pats, "")?;
    world.left_text(&left)
}

/// Prints the context of the row inside its left side.
pub fn show_context(rt: &HostRuntime, line: &str) -> Result<(), Fault> {
    let (what, rest) = line.split_once('|').ok_or(Fault::NoRow)?;
    let text = context_text(rt.alloc(), rest)?;
    println!(rt; "{what}")?;
    println!(rt; "{text}")?;
    Ok(())
}

fn context_text(alloc: Global, words: &str) -> Result<String, Fault> {
    let (entries, rest) = words.split_once('|').ok_or(Fault::NoRow)?;
    let (pats, rest) = rest.split_once('|').ok_or(Fault::NoRow)?;
    let (named, context) = rest.split_once('|').ok_or(Fault::NoRow)?;
    context_inside(alloc, entries, pats, named, context)
}

fn context_inside(
    alloc: Global,
    entries: &str,
    pats: &str,
    named: &str,
    context: &str,
) -> Result<String, Fault> {
    let mut world = World::new(alloc)?;
    let left = world.left(entries, pats, named)?;
    let context = world.entries(context)?;
    world.context_text(&left, &context)
}
