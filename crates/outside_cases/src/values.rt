//! Lists, texts and levels.
use crate::fault::Fault;
use el_base::{LEVEL_LIMIT, Level};
use el_outside::{Many, Text};

fn list(rt: &impl Print, name: &str, items: &Many<u32>) -> Result<(), Fault> {
    let all = items.as_slice();
    let count = items.len();
    let empty = items.is_empty();
    println!(rt; "{name}: {all:?}, {count} items, empty: {empty}")?;
    Ok(())
}

fn text(rt: &impl Print, name: &str, text: &Text) -> Result<(), Fault> {
    let all = text.as_str();
    let count = text.len();
    let empty = text.is_empty();
    println!(rt; "{name}: {all}, {count} bytes, empty: {empty}")?;
    Ok(())
}

fn list_copy(rt: &impl Print, name: &str, items: &Many<u32>) -> Result<(), Fault> {
    let copy = items.copy()?;
    list(rt, name, &copy)
}

fn lists<R: Print + AllocGlobal>(rt: &R) -> Result<(), Fault> {
    let many = Many::from_vec(Vec::from_slice(rt.alloc(), &[3_u32, 5])?);
    list(rt, "many", &many)?;
    list_copy(rt, "copy of many", &many)
}

fn text_copy<R: Print + AllocGlobal>(rt: &R, name: &str, all: &Text) -> Result<(), Fault> {
    let copy = all.copy(rt.alloc())?;
    text(rt, name, &copy)
}

fn texts<R: Print + AllocGlobal>(rt: &R) -> Result<(), Fault> {
    let short = Text::from_str(rt.alloc(), "née")?;
    text(rt, "text", &short)?;
    text_copy(rt, "copy of a text", &short)
}

pub fn all<R: Print + AllocGlobal>(rt: &R) -> Result<(), Fault> {
    lists(rt)?;
    list_copy(rt, "copy of none", &Many::from_vec(Vec::new(rt.alloc())))?;
    texts(rt)?;
    levels(rt)
}

fn levels(rt: &impl Print) -> Result<(), Fault> {
    for number in [LEVEL_LIMIT, LEVEL_LIMIT + 1] {
        let level = Level::new(number).map(|level| level.number());
        println!(rt; "level {number}: {level:?}")?;
    }
    let zero = Level::zero().number();
    println!(rt; "level of Set alone: {zero}")?;
    Ok(())
}
