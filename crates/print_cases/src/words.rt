use case_terms::{Fault, term};
use core_terms::{NameId, Names, TermId, TermPool};
use std::alloc::Global;

/// The name of a binder, which is empty where the word is `-`.
pub fn name(names: &mut Names, word: &str) -> Result<NameId, Fault> {
    if word == "-" {
        return Ok(names.add("")?);
    }
    Ok(names.add(word)?)
}

/// The term of these words, in which the name of a binder stands after a colon.
pub fn named_term(
    alloc: Global,
    pool: &mut TermPool,
    names: &mut Names,
    words: &str,
) -> Result<TermId, Fault> {
    let words = numbered(alloc, names, words)?;
    term(alloc, pool, words.as_str())
}

/// The words with the number of each name in its place.
fn numbered(alloc: Global, names: &mut Names, words: &str) -> Result<String, Fault> {
    let mut out = String::new(alloc);
    for word in words.split_whitespace() {
        push_numbered(&mut out, names, word)?;
    }
    Ok(out)
}

fn push_numbered(out: &mut String, names: &mut Names, word: &str) -> Result<(), Fault> {
    let Some((sign, name)) = word.split_once(':') else {
        write!(out, " {word}")?;
        return Ok(());
    };
    let number = names.add(name)?.number();
    write!(out, " {sign}{number}")?;
    Ok(())
}
