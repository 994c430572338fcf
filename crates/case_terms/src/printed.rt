use crate::fault::Fault;
use crate::terms::is_in;
use core_rules::Flag;
use core_terms::{Node, Parts, TermId, TermPool};
use std::alloc::Global;

/// The most visits before the rest of a term is left out.
const MOST: u32 = 60;

/// Whether the words of a term's parts come before its own word, or have come.
#[derive(Clone, Copy)]
enum Stage {
    Whole,
    Own,
}

/// A term whose words come next.
#[derive(Clone, Copy)]
struct Visit {
    t: TermId,
    stage: Stage,
}

fn whole(t: TermId) -> Visit {
    Visit {
        t,
        stage: Stage::Whole,
    }
}

/// The words that build a term, each after a blank, without the names of binders. Two dots stand for the rest of a large term.
pub fn words_of(alloc: Global, pool: &TermPool, t: TermId) -> Result<String, Fault> {
    let mut out = String::new(alloc);
    let mut visits = vec![in alloc; whole(t)]?;
    for _ in 0..MOST {
        let Some(visit) = visits.pop() else {
            return Ok(out);
        };
        match visit.stage {
            Stage::Whole => push_parts(pool, &mut visits, visit.t)?,
            Stage::Own => write_own(&mut out, pool, visit.t)?,
        }
    }
    out.push_str(" ..")?;
    Ok(out)
}

/// What comes next for a term: its parts from left to right, and then its own word.
fn push_parts(pool: &TermPool, visits: &mut Vec<Visit>, t: TermId) -> Result<(), Fault> {
    if !is_in(pool, t) {
        return Err(Fault::Stray);
    }
    visits.push(Visit {
        t,
        stage: Stage::Own,
    })?;
    match pool.node(t) {
        Node::Con { params, .. } => push_items(visits, pool.args(params)?.as_slice()),
        Node::Meta { args, .. } => push_items(visits, pool.args(args)?.as_slice()),
        Node::Proj { of, .. } => Ok(visits.push(whole(of))?),
        node => push_two(visits, node),
    }
}

fn push_two(visits: &mut Vec<Visit>, node: Node) -> Result<(), Fault> {
    if let Parts::Two { first, second, .. } = node.parts() {
        visits.push(whole(second))?;
        visits.push(whole(first))?;
    }
    Ok(())
}

fn push_items(visits: &mut Vec<Visit>, items: &[TermId]) -> Result<(), Fault> {
    for t in items.iter().rev() {
        visits.push(whole(*t))?;
    }
    Ok(())
}

fn write_own(out: &mut String, pool: &TermPool, t: TermId) -> Result<(), Fault> {
    if !is_in(pool, t) {
        return Err(Fault::Stray);
    }
    let node = pool.node(t);
    write!(out, " {}", sign(&node))?;
    if let Some(number) = number(&node) {
        write!(out, "{number}")?;
    }
    if let Node::Con { params, .. } = pool.node(t) {
        write_count(out, pool.args(params)?.len())?;
    }
    Ok(())
}

/// How many parameters a constructor has, if it has any.
fn write_count(out: &mut String, params: usize) -> Result<(), Fault> {
    if params > 0 {
        write!(out, "/{params}")?;
    }
    Ok(())
}

fn sign(node: &Node) -> &'static str {
    match *node {
        Node::Var(_) => "",
        Node::Sort(_) => "*",
        Node::Pi { flag, .. } => by_flag(flag, ">", ">i"),
        Node::Lam { flag, .. } => by_flag(flag, "\\:", "\\:i"),
        Node::App { flag, .. } => by_flag(flag, "@", "@i"),
        Node::Def(_) => "d",
        Node::Fam(_) => "f",
        Node::Con { .. } => "c",
        Node::Proj { .. } => ".",
        Node::Meta { .. } => "?",
    }
}

/// The number after the sign. The first sort has none.
fn number(node: &Node) -> Option<u32> {
    match *node {
        Node::Var(index) => Some(index),
        Node::Sort(level) if level > 0 => Some(level),
        Node::Def(def) => Some(def.number()),
        Node::Fam(fam) => Some(fam.number()),
        Node::Con { con, .. } => Some(con.number()),
        Node::Proj { field, .. } => Some(field.number()),
        Node::Meta { meta, .. } => Some(meta.number()),
        _ => None,
    }
}

fn by_flag(flag: Flag, explicit: &'static str, implicit: &'static str) -> &'static str {
    match flag {
        Flag::Explicit => explicit,
        Flag::Implicit => implicit,
    }
}
