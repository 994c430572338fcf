use crate::fault::Fault;
use crate::terms::{
    Binder, apply, constructor, definition, double, family, lambda, lambdas, metavariable, pi, pis,
    project, repeat, sort, spine, variable,
};
use core_rules::Flag;
use core_terms::{TermId, TermPool};
use std::alloc::Global;

/// The terms that no word has taken yet, the last one at the end.
#[derive(Drop)]
struct Stack {
    alloc: Global,
    items: Vec<TermId>,
}

impl Stack {
    fn pop(&mut self) -> Result<TermId, Fault> {
        self.items.pop().ok_or(Fault::NoTerm)
    }

    /// The last two, in the order in which they came.
    fn pop_two(&mut self) -> Result<(TermId, TermId), Fault> {
        let last = self.pop()?;
        let first = self.pop()?;
        Ok((first, last))
    }

    /// So many of the last ones, in the order in which they came.
    fn pop_many(&mut self, count: u32) -> Result<Vec<TermId>, Fault> {
        let mut taken = Vec::new(self.alloc);
        for _ in 0..count {
            taken.push(self.pop()?)?;
        }
        taken.reverse();
        Ok(taken)
    }
}

/// The term that the words build, each from those before it.
pub fn term(alloc: Global, pool: &mut TermPool, words: &str) -> Result<TermId, Fault> {
    let items = Vec::new(alloc);
    let mut stack = Stack { alloc, items };
    for word in words.split_whitespace() {
        let t = take_word(pool, &mut stack, word)?;
        stack.items.push(t)?;
    }
    stack.pop()
}

fn take_word(pool: &mut TermPool, stack: &mut Stack, word: &str) -> Result<TermId, Fault> {
    match word {
        "@" => take_argument(pool, stack, Flag::Explicit),
        "@i" => take_argument(pool, stack, Flag::Implicit),
        "suc:" => take_constructor(pool, stack, "1/1"),
        "nat" => family(pool, 0),
        "pairs" => family(pool, 1),
        _ => take_binder(pool, stack, word),
    }
}

fn take_argument(pool: &mut TermPool, stack: &mut Stack, flag: Flag) -> Result<TermId, Fault> {
    let (fun, arg) = stack.pop_two()?;
    apply(pool, flag, fun, arg)
}

/// A lambda over a sort, or over the term before its body; a function type; a sort.
fn take_binder(pool: &mut TermPool, stack: &mut Stack, word: &str) -> Result<TermId, Fault> {
    if let Some(binder) = word.strip_prefix("\\:") {
        let (dom, body) = stack.pop_two()?;
        return lambda(pool, read_binder(binder)?, dom, body);
    }
    if let Some(binder) = word.strip_prefix('\\') {
        let (dom, body) = (sort(pool, 0)?, stack.pop()?);
        return lambda(pool, read_binder(binder)?, dom, body);
    }
    if let Some(binder) = word.strip_prefix('>') {
        let (dom, cod) = stack.pop_two()?;
        return pi(pool, read_binder(binder)?, dom, cod);
    }
    if let Some(level) = word.strip_prefix('*') {
        return sort(pool, number_or_zero(level)?);
    }
    take_repeated(pool, stack, word)
}

/// i where the binder is implicit, then the number of its name where that is not 0.
fn read_binder(word: &str) -> Result<Binder, Fault> {
    let (flag, name) = match word.strip_prefix('i') {
        Some(name) => (Flag::Implicit, name),
        None => (Flag::Explicit, word),
    };
    let name = number_or_zero(name)?;
    Ok(Binder { flag, name })
}

fn number_or_zero(digits: &str) -> Result<u32, Fault> {
    if digits.is_empty() {
        return Ok(0);
    }
    read_number(digits)
}

/// Binders or arguments so often as the word says.
fn take_repeated(pool: &mut TermPool, stack: &mut Stack, word: &str) -> Result<TermId, Fault> {
    if let Some(times) = word.strip_prefix("^\\:") {
        let (dom, body) = stack.pop_two()?;
        return lambdas(pool, dom, body, read_number(times)?);
    }
    if let Some(times) = word.strip_prefix("^\\") {
        let (dom, body) = (sort(pool, 0)?, stack.pop()?);
        return lambdas(pool, dom, body, read_number(times)?);
    }
    if let Some(times) = word.strip_prefix("^>") {
        let (dom, cod) = stack.pop_two()?;
        return pis(pool, dom, cod, read_number(times)?);
    }
    if let Some(times) = word.strip_prefix("^@") {
        let (fun, arg) = stack.pop_two()?;
        return spine(pool, fun, arg, read_number(times)?);
    }
    take_nested(pool, stack, word)
}

/// Applications in one another so often as the word says.
fn take_nested(pool: &mut TermPool, stack: &mut Stack, word: &str) -> Result<TermId, Fault> {
    if let Some(times) = word.strip_prefix('^') {
        let (fun, arg) = stack.pop_two()?;
        return repeat(pool, fun, arg, read_number(times)?);
    }
    if let Some(times) = word.strip_prefix('&') {
        let (fun, arg) = stack.pop_two()?;
        return double(pool, fun, arg, read_number(times)?);
    }
    take_number(pool, stack, word)
}

/// A number after a sign, a variable, or a name.
fn take_number(pool: &mut TermPool, stack: &mut Stack, word: &str) -> Result<TermId, Fault> {
    if let Some(field) = word.strip_prefix('.') {
        return project(pool, read_number(field)?, stack.pop()?);
    }
    if let Some(meta) = word.strip_prefix('?') {
        let (outer, inner) = stack.pop_two()?;
        return metavariable(pool, read_number(meta)?, outer, inner);
    }
    match word.parse::<u32>() {
        Ok(index) => variable(pool, index),
        Err(_) => take_id(pool, stack, word),
    }
}

/// A family, a function or postulate, or a constructor by its number; or a name.
fn take_id(pool: &mut TermPool, stack: &mut Stack, word: &str) -> Result<TermId, Fault> {
    if let Some(number) = number_after(word, 'f') {
        return family(pool, number);
    }
    if let Some(number) = number_after(word, 'd') {
        return definition(pool, number);
    }
    if let Some(number) = number_after(word, 'c') {
        return constructor(pool, number, &[]);
    }
    if word.contains('/') {
        return take_constructor(pool, stack, word.strip_prefix('c').ok_or(Fault::NoTerm)?);
    }
    take_name(pool, word)
}

/// A constructor at so many parameters, the two numbers with a slash between them.
fn take_constructor(pool: &mut TermPool, stack: &mut Stack, word: &str) -> Result<TermId, Fault> {
    let (con, count) = word.split_once('/').ok_or(Fault::NoTerm)?;
    let params = stack.pop_many(read_number(count)?)?;
    constructor(pool, read_number(con)?, params.as_slice())
}

fn number_after(word: &str, sign: char) -> Option<u32> {
    word.strip_prefix(sign)?.parse::<u32>().ok()
}

pub fn read_number(digits: &str) -> Result<u32, Fault> {
    digits.parse::<u32>().map_err(|_| Fault::NoTerm)
}

fn take_name(pool: &mut TermPool, word: &str) -> Result<TermId, Fault> {
    match word {
        "zero" => constructor(pool, 0, &[]),
        "suc" => constructor(pool, 1, &[]),
        "pair" => constructor(pool, 2, &[]),
        "unit" => constructor(pool, 3, &[]),
        "top" => constructor(pool, 4, &[]),
        "x" => variable(pool, 7),
        "y" => variable(pool, 8),
        _ => definition(pool, function_of(word)?),
    }
}

/// The number of a function or of the postulate.
fn function_of(word: &str) -> Result<u32, Fault> {
    match word {
        "plus" => Ok(0),
        "down" => Ok(1),
        "both" => Ok(2),
        "pred" => Ok(3),
        "copies" => Ok(4),
        "second" => Ok(5),
        "empty" => Ok(6),
        "turn" => Ok(7),
        "open" => Ok(8),
        _ => Err(Fault::NoTerm),
    }
}
