use case_terms::Fault;
use core_terms::{FieldId, NameId};
use implicit_insert::Next;

/// What is asked of a type, and the two terms that are wanted: domain and codomain, or the head form.
#[derive(Clone, Copy)]
pub struct Row<'a> {
    pub fuel: u32,
    pub next: &'a str,
    pub what: &'a str,
    pub ty: &'a str,
    pub first: &'a str,
    pub second: &'a str,
}

pub fn read_row(line: &str) -> Result<Row<'_>, Fault> {
    let (head, rest) = line.split_once('|').ok_or(Fault::NoRow)?;
    let (fuel, next) = head.split_once(' ').ok_or(Fault::NoRow)?;
    let (what, rest) = rest.split_once('|').ok_or(Fault::NoRow)?;
    let fuel = fuel.parse::<u32>().map_err(|_| Fault::NoRow)?;
    let (ty, wanted) = rest.split_once('|').unwrap_or((rest, rest));
    let (first, second) = wanted.split_once('|').unwrap_or((wanted, wanted));
    Ok(Row {
        fuel,
        next,
        what,
        ty,
        first,
        second,
    })
}

pub fn read_next(word: &str) -> Result<Next, Fault> {
    match word {
        "nothing" => Ok(Next::Nothing),
        "plain" => Ok(Next::Plain),
        "braces" => Ok(Next::Braces),
        _ => read_numbered(word),
    }
}

fn read_numbered(word: &str) -> Result<Next, Fault> {
    if let Some(name) = word.strip_prefix("named") {
        return Ok(Next::Named(NameId::new(number(name)?)));
    }
    if let Some(field) = word.strip_prefix("field") {
        return Ok(Next::Field(FieldId::new(number(field)?)));
    }
    Err(Fault::NoRow)
}

fn number(digits: &str) -> Result<u32, Fault> {
    digits.parse::<u32>().map_err(|_| Fault::NoRow)
}
