ghost use Rattle.std.specs.Prelude.{IfOk};
ghost use Rattle.case_terms.specs.Families.{IsShaped};

use crate::case_trees::case_tree;
use crate::fault::Fault;
use crate::telescopes::{is_blank, telescope};
use crate::words::{read_number, term};
use core_terms::{
    Braces, CheckedLeft, ConId, CoreClause, CoreDecl, CorePat, FieldId, NameId, Origin, PatShape,
    Row, TermId, TermPool,
};
use std::alloc::Global;

/// A function of this type. Its lines are its clauses, and then the steps of its case tree. A clause is
/// `clause CONTEXT|PATTERNS|TYPE|RIGHT`, of which the right side may be missing.
pub fn function(
    alloc: Global,
    pool: &mut TermPool,
    ty: &str,
    lines: &[&str],
) -> Result<CoreDecl, Fault>
    ensures { IfOk result IsShaped }
{
    let ty = term(alloc, pool, ty)?;
    let mut clauses = Vec::new(alloc);
    let mut left = lines;
    while let [line, more @ ..] = left {
        let Some(words) = line.trim().strip_prefix("clause ") else {
            break;
        };
        clauses.push(clause(alloc, pool, words)?)?;
        left = more;
    }
    Ok(CoreDecl::Function {
        name: NameId::new(0),
        ty,
        clauses: Row::from_vec(clauses),
        tree: case_tree(alloc, pool, left)?,
    })
}

fn clause(alloc: Global, pool: &mut TermPool, words: &str) -> Result<CoreClause, Fault> {
    let (context, words) = words.split_once('|').ok_or(Fault::NoRow)?;
    let (pats, words) = words.split_once('|').ok_or(Fault::NoRow)?;
    let (ty, right) = words.split_once('|').ok_or(Fault::NoRow)?;
    let left = CheckedLeft {
        context: telescope(alloc, pool, context)?,
        pats: Row::from_vec(patterns(alloc, pool, pats)?),
        ty: term(alloc, pool, ty)?,
        named: Row::from_vec(Vec::new(alloc)),
        dots: Row::from_vec(Vec::new(alloc)),
        inserted: 0,
    };
    Ok(CoreClause {
        left,
        right: right_side(alloc, pool, right)?,
    })
}

fn right_side(alloc: Global, pool: &mut TermPool, words: &str) -> Result<Option<TermId>, Fault> {
    if is_blank(words) {
        return Ok(None);
    }
    Ok(Some(term(alloc, pool, words)?))
}

/// Patterns between commas, each from those before it: a variable is its number, `c3/2` a constructor at the last two, `.1` a
/// projection, `()` is absurd, and a dotted pattern is its value after a dot and a blank.
fn patterns(alloc: Global, pool: &mut TermPool, words: &str) -> Result<Vec<CorePat>, Fault> {
    let mut made = Vec::new(alloc);
    if !is_blank(words) {
        for part in words.split(',') {
            let shape = take_pattern(alloc, pool, &mut made, part.trim())?;
            made.push(CorePat {
                shape,
                origin: Origin::Written,
                braces: Braces::Without,
            })?;
        }
    }
    Ok(made)
}

fn take_pattern(
    alloc: Global,
    pool: &mut TermPool,
    made: &mut Vec<CorePat>,
    word: &str,
) -> Result<PatShape, Fault> {
    if word == "()" {
        return Ok(PatShape::Absurd);
    }
    if let Some(value) = word.strip_prefix(". ") {
        return Ok(PatShape::Dotted {
            value: term(alloc, pool, value)?,
        });
    }
    if let Some(field) = word.strip_prefix('.') {
        return Ok(PatShape::Projection(FieldId::new(read_number(field)?)));
    }
    match word.strip_prefix('c') {
        Some(words) => at_last(alloc, made, words),
        None => Ok(PatShape::Var(read_number(word)?)),
    }
}

/// A constructor at the last so many patterns, the two numbers with a slash between them.
fn at_last(alloc: Global, made: &mut Vec<CorePat>, words: &str) -> Result<PatShape, Fault> {
    let (con, count) = words.split_once('/').ok_or(Fault::NoTerm)?;
    let mut pats = Vec::new(alloc);
    for _ in 0..read_number(count)? {
        pats.push(made.pop().ok_or(Fault::NoTerm)?)?;
    }
    pats.reverse();
    Ok(PatShape::Con {
        con: ConId::new(read_number(con)?),
        pats,
    })
}
