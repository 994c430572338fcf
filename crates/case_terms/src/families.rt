ghost use Rattle.std.specs.Prelude.{IfOk};
ghost use Rattle.case_terms.specs.Families.{IsFamily, IsShaped};

use crate::fault::Fault;
use crate::telescopes::{is_blank, telescope, terms};
use crate::words::{read_number, term};
use core_terms::{ConDecl, CoreDecl, NameId, Row, Telescope, TermPool};
use std::alloc::Global;

/// What the first word says of a record.
#[derive(Clone, Copy)]
enum Kind {
    Eta,
    Plain,
    Coinductive,
}

/// The parameters and the level of a family.
#[derive(Drop)]
struct Heading {
    params: Telescope,
    level: u32,
}

/// A postulate, whose word and type stand between bars, or a family.
pub fn declaration(alloc: Global, pool: &mut TermPool, words: &str) -> Result<CoreDecl, Fault>
    ensures { IfOk result IsShaped }
{
    if let Some(words) = words.strip_prefix("postulate|") {
        let name = NameId::new(0);
        let ty = term(alloc, pool, words)?;
        return Ok(CoreDecl::Postulate { name, ty });
    }
    family(alloc, pool, words)
}

/// A declaration for each of the words.
pub fn declarations(
    alloc: Global,
    pool: &mut TermPool,
    declared: &[&str],
) -> Result<Vec<CoreDecl>, Fault> {
    let mut decls = Vec::new(alloc);
    for words in declared {
        decls.push(declaration(alloc, pool, words)?)?;
    }
    Ok(decls)
}

/// A family: its kind and level, its parameters, and then of `data` its indices and its constructors, between semicolons each its
/// arguments, an arrow and its indices; of a record its fields. With the word `record` it has eta, if it has a field, with `plain`
/// none, and with `stream` it is coinductive.
pub fn family(alloc: Global, pool: &mut TermPool, words: &str) -> Result<CoreDecl, Fault>
    ensures { IfOk result IsFamily }
{
    let (head, rest) = words.split_once('|').ok_or(Fault::NoRow)?;
    let (kind, level) = head.split_once(' ').ok_or(Fault::NoRow)?;
    let (params, rest) = rest.split_once('|').ok_or(Fault::NoRow)?;
    let heading = Heading {
        params: telescope(alloc, pool, params)?,
        level: read_number(level)?,
    };
    match kind {
        "data" => data(alloc, pool, heading, rest),
        "record" => record(alloc, pool, heading, Kind::Eta, rest),
        "plain" => record(alloc, pool, heading, Kind::Plain, rest),
        "stream" => record(alloc, pool, heading, Kind::Coinductive, rest),
        _ => Err(Fault::NoRow),
    }
}

fn data(
    alloc: Global,
    pool: &mut TermPool,
    heading: Heading,
    words: &str,
) -> Result<CoreDecl, Fault>
    ensures { IfOk result IsFamily }
{
    let (indices, cons) = words.split_once('|').ok_or(Fault::NoRow)?;
    let Heading { params, level } = heading;
    let indices = telescope(alloc, pool, indices)?;
    let cons = constructors(alloc, pool, cons)?;
    Ok(CoreDecl::Family {
        name: NameId::new(0),
        params,
        indices,
        level,
        is_record: false,
        cons,
        fields: Telescope {
            entries: Row::from_vec(Vec::new(alloc)),
        },
        eta: false,
        coinductive: false,
    })
}

/// A record. Its fields are the arguments of its constructor.
fn record(
    alloc: Global,
    pool: &mut TermPool,
    heading: Heading,
    kind: Kind,
    words: &str,
) -> Result<CoreDecl, Fault>
    ensures { IfOk result IsFamily }
{
    let fields = telescope(alloc, pool, words)?;
    let args = Telescope {
        entries: fields.entries.copy()?,
    };
    let con = ConDecl {
        name: None,
        args,
        indices: Row::from_vec(Vec::new(alloc)),
    };
    let Heading { params, level } = heading;
    Ok(CoreDecl::Family {
        name: NameId::new(0),
        params,
        indices: Telescope {
            entries: Row::from_vec(Vec::new(alloc)),
        },
        level,
        is_record: true,
        cons: Row::from_vec(vec![in alloc; con]?),
        eta: matches!(kind, Kind::Eta) && !fields.entries.is_empty(),
        coinductive: matches!(kind, Kind::Coinductive),
        fields,
    })
}

fn constructors(alloc: Global, pool: &mut TermPool, words: &str) -> Result<Row<ConDecl>, Fault> {
    let mut made = Vec::new(alloc);
    if !is_blank(words) {
        for part in words.split(';') {
            made.push(constructor(alloc, pool, part)?)?;
        }
    }
    Ok(Row::from_vec(made))
}

fn constructor(alloc: Global, pool: &mut TermPool, words: &str) -> Result<ConDecl, Fault> {
    let (args, indices) = words.split_once("=>").ok_or(Fault::NoRow)?;
    Ok(ConDecl {
        name: None,
        args: telescope(alloc, pool, args)?,
        indices: terms(alloc, pool, indices)?,
    })
}
